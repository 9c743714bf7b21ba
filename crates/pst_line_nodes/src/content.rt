//! What slots hold.

use pst_base::{NodeId, SlotNo};

/// The stamp of a write: how many versions there were before the run that made it. So it is the number of the version that the run
/// becomes.
#[derive(Clone, Copy, PartialEq, Eq)]
pub struct Stamp(pub u32);

/// The number of an inverse slot among those of its node, from 0.
#[derive(Clone, Copy, PartialEq, Eq)]
pub struct InverseNo(pub usize);

/// What a field holds.
#[derive(Clone, Copy, PartialEq, Eq)]
pub enum Content {
    /// A value field's number.
    Number(i64),
    /// A pointer field leads nowhere.
    Null,
    /// A pointer field leads to this node.
    Target(NodeId),
}

/// A content that a slot holds from a stamp on: up to the slot's next one, or for good.
#[derive(Clone, Copy, PartialEq, Eq)]
pub struct StampedContent {
    pub slot: SlotNo,
    pub from: Stamp,
    pub content: Content,
}

/// The entry of a pointer field: the node that has it, and its slot there.
#[derive(Clone, Copy, PartialEq, Eq)]
pub struct Entry {
    pub node: NodeId,
    pub slot: SlotNo,
}
