//! Paths that are resolved.

use pst_base::{Items, Kind, SlotNo};

/// A field of a path: its slot, and what it holds.
#[derive(Clone, Copy, PartialEq, Eq)]
pub struct PathStep {
    pub slot: SlotNo,
    pub kind: Kind,
}

/// The fields of a path, in order: the first is one of the root record, and each further one is a field of the record that
/// the one before leads to.
pub type Slots = Items<PathStep>;
