//! The parts of an image.

use pst_base::{Counts, Items, Name, RunNo, SlotNo, Text, TypeNo, VersionNo};

/// How many numbers of slots an entry tells apart: slot `f` of node `x` is the number `(x + 1) * ENTRY_SLOTS + f`.
pub const ENTRY_SLOTS: u64 = 128;

/// A version: a node of the version tree, and its stretch of the list of places.
#[derive(Clone, Copy)]
pub struct VersionPart {
    /// The version that its run was opened at; 0 for version 0.
    pub parent: VersionNo,
    /// The run that made it; 0 for version 0.
    pub run: RunNo,
    /// The place where it begins, and the one where it ends: positions in the list of places, from 0.
    pub begin: u32,
    pub end: u32,
}

/// A stamped value: what a slot of a fat node holds from a place on.
#[derive(Clone, Copy)]
pub struct StampPart {
    pub slot: SlotNo,
    /// The stamp: a position in the list of places, from 0.
    pub place: u32,
    /// A content as a number of 64 bits, of any value: see `NodePart::bases`.
    pub content: u64,
}

/// A fat node: what is kept of a record over a life.
#[derive(Drop)]
pub struct NodePart {
    /// The record's name.
    pub name: Name,
    /// The record's type.
    pub ty: TypeNo,
    /// The place where its life begins, and the one where it ends: positions in the list of places, from 0.
    pub lo: u32,
    pub hi: u32,
    /// The number of the record's next node plus 1, or 0 where this is the last one.
    pub later: u64,
    /// What each slot holds from `lo` on, as a number of 64 bits: of a value slot the number in two's complement; 0 for null and
    /// for a free inverse slot; of a pointer slot the number of a node plus 1; of an inverse slot that has the entry of slot `f` of
    /// node `x`, `(x + 1) * 128 + f`.
    pub bases: Items<u64>,
    /// The stamped values, by slot and then by place.
    pub stamps: Items<StampPart>,
}

/// What an image holds: a program, a few numbers of its history, and a store.
#[derive(Drop)]
pub struct ImageParts {
    /// The text of the program.
    pub text: Text,
    /// How many charges a run is granted.
    pub budget: u32,
    /// The number that the next run gets.
    pub next_run: RunNo,
    /// How many records were made and how many elements were written so far.
    pub counts: Counts,
    /// How many places there are.
    pub places: u32,
    /// The versions, by their numbers.
    pub versions: Items<VersionPart>,
    /// The nodes, by their numbers.
    pub nodes: Items<NodePart>,
}

/// An image that was read.
#[derive(Drop)]
pub struct Image {
    pub parts: ImageParts,
    /// How many bytes it takes.
    pub length: usize,
}
