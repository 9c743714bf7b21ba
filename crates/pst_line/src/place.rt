//! Places, and the stretches of the versions.

use pst_base::{NodeId, RunNo, SlotNo};
use pst_line_nodes::content::{Content, Stamp};

/// A place of a linear history: a version, or the open run.
#[derive(Clone, Copy, PartialEq, Eq)]
pub struct LinePlace {
    pub(crate) stamp: Stamp,
}

/// A version: its run, how many nodes there were at `begin` of its run and at its `publish`, so that the nodes with numbers between are
/// its own, and a node of the root record that is live there.
#[derive(Clone, Copy, PartialEq, Eq)]
pub struct Stretch {
    pub run: RunNo,
    pub from: u64,
    pub to: u64,
    pub root: NodeId,
}

/// What a field had before the open run first wrote it: the first node of the record, and the field's slot.
#[derive(Clone, Copy, PartialEq, Eq)]
pub struct Undo {
    pub node: NodeId,
    pub slot: SlotNo,
    pub content: Content,
}
