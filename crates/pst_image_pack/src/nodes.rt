//! Nodes as the parts of an image.

ghost use Rattle.std.specs.Prelude.{◌≡◌, ◌<◌, ◌≤◌, ◌^◌, ℕ, IfOk, Some, get_or, length, map, slice_get};
ghost use Rattle.std.specs.List.{AllByRecursion};
ghost use Rattle.pst_base.specs.declared.names.NodeId.{NodeId};
ghost use Rattle.pst_base.specs.declared.shape.TheConstants.{MOST_SLOTS};
ghost use Rattle.pst_rows.specs.Rows.{shown, no_stamp};
ghost use Rattle.pst_rows.specs.Values.{base_in};
ghost use Rattle.pst_rows.specs.declared.content.Stamp.{Stamp};
ghost use Rattle.pst_repair.specs.Seen.{seen_in, seen_node};
ghost use Rattle.pst_store_meaning.specs.Store.{Node as Seen};
ghost use Rattle.pst_image_form.specs.Bytes.{Fits64, FitsNode, FitsStamp};
ghost use Rattle.pst_image_meaning.specs.Narrow.{IsNarrow, IsSmallContent};
ghost use Rattle.pst_image_meaning.specs.Parts.{content_number as number_of, link_number as number_of_link, stamp_part as part_of_stamp, node_part as part_of_node};
ghost use Rattle.pst_image_meaning.specs.Denoted.{IsShort, IsShortContent};
ghost use Rattle.pst_image_pack.specs.Positions.{position_in};

use crate::positions::position;
use pst_base::{Items, Name, NoMemory, NodeId, SlotNo, TypeNo};
use pst_image_form::{ENTRY_SLOTS, NodePart, StampPart};
use pst_nodes::node::{Node, Nodes};
use pst_rows::{Content, Row, Stamp};
use std::alloc::Global;

/// A content as a number of 64 bits.
fn content_number(content: Content) -> u64
    requires { IsSmallContent content }
    ensures number { result ≡ number_of content }
    ensures fits { Fits64 result }
    ensures short { IsShortContent content }
{
    match content {
        Content::Number(n) => n.cast_unsigned(),
        Content::Null => 0,
        Content::Target(node) => node.0 + 1,
        Content::Free => 0,
        Content::From(node, slot) => (node.0 + 1) * ENTRY_SLOTS + u64::from(slot.0),
    }
}

/// The number of a next node plus 1, or 0 where there is none.
fn link_number(later: Option<NodeId>) -> u64
    requires { (j : NodeId) → later ≡ Some j → j.0 < 2 ^ 56 }
    ensures number { result ≡ number_of_link later }
    ensures fits { Fits64 result }
{
    match later {
        None => 0,
        Some(node) => node.0 + 1,
    }
}

/// A stamped value, with its position.
fn stamp_part(stamp: Stamp, positions: &[u32]) -> StampPart
    requires few { length positions.now < 2 ^ 32 }
    requires small { IsSmallContent stamp.content }
    ensures part { result ≡ part_of_stamp (position_in positions.now) stamp }
    ensures fits { FitsStamp result }
    ensures short { IsShortContent stamp.content }
{
    StampPart {
        slot: stamp.slot(),
        place: position(positions, stamp.place()),
        content: content_number(stamp.content()),
    }
}

/// What the slots of a row hold at first.
fn bases_of(alloc: Global, row: &Row) -> Result<Items<u64>, NoMemory>
    requires few { length (shown row.now).slots ≤ MOST_SLOTS }
    requires small { (g : ℕ) → g < length (shown row.now).slots → IsSmallContent (base_in (shown row.now) g) }
    ensures bases { IfOk result (λ bases. bases ≡ map (λ c. number_of c.content) (shown row.now).slots) }
    ensures fits { IfOk result (AllByRecursion Fits64) }
    ensures short { IfOk result (λ _. (g : ℕ) → g < length (shown row.now).slots → IsShortContent (base_in (shown row.now) g)) }
{
    let mut bases = Vec::with_capacity(alloc, row.width())?;
    for slot in 0..row.width() {
        bases.push(content_number(row.base(SlotNo(slot as u16))))?;
    }
    Ok(Items::from_vec(bases))
}

/// What is stamped in a row.
fn stamps_of(alloc: Global, row: &Row, positions: &[u32]) -> Result<Items<StampPart>, NoMemory>
    requires few { length positions.now < 2 ^ 32 }
    requires small { (k : ℕ) → k < length (shown row.now).stamps → IsSmallContent (get_or (shown row.now).stamps k no_stamp).content }
    ensures stamps { IfOk result (λ stamps. stamps ≡ map (part_of_stamp (position_in positions.now)) (shown row.now).stamps) }
    ensures fits { IfOk result (AllByRecursion FitsStamp) }
    ensures count { IfOk result (λ stamps. length stamps < 2 ^ 64) }
    ensures short { IfOk result (λ _. (k : ℕ) → k < length (shown row.now).stamps → IsShortContent (get_or (shown row.now).stamps k no_stamp).content) }
{
    let mut stamps = Vec::with_capacity(alloc, row.stamps().len())?;
    for stamp in row.stamps() {
        stamps.push(stamp_part(*stamp, positions))?;
    }
    Ok(Items::from_vec(stamps))
}

/// The numbers of a name and a type fit their types. It has no effect.
fn head_fits(name: Name, ty: TypeNo)
    ensures run { name.run.0 < 2 ^ 32 }
    ensures ordinal { name.ordinal < 2 ^ 32 }
    ensures ty { ty.0 < 2 ^ 8 }
{}

/// A node, with the positions of its places.
fn node_part(alloc: Global, node: &Node, positions: &[u32]) -> Result<NodePart, NoMemory>
    requires few { length positions.now < 2 ^ 32 }
    requires narrow { IsNarrow (seen_node node.now) }
    ensures part { IfOk result (λ part. part ≡ part_of_node (position_in positions.now) (seen_node node.now)) }
    ensures fits { IfOk result FitsNode }
    ensures short { IfOk result (λ _. IsShort (seen_node node.now)) }
{
    let header = &node.header;
    let name = header.name();
    let ty = header.ty();
    head_fits(name, ty);
    Ok(NodePart {
        name,
        ty,
        lo: position(positions, node.row.lo()),
        hi: position(positions, node.row.hi()),
        later: link_number(header.later()),
        bases: bases_of(alloc, &node.row)?,
        stamps: stamps_of(alloc, &node.row, positions)?,
    })
}

/// The nodes, by their numbers. It takes time by the number of nodes, and of what they hold.
///
/// # Errors
/// Where there was no memory.
pub fn nodes_of(
    alloc: Global,
    nodes: &Nodes,
    positions: &[u32],
) -> Result<Items<NodePart>, NoMemory>
    requires few { length positions.now < 2 ^ 32 }
    requires narrow { (i : ℕ) (n : Seen) → slice_get (seen_in nodes.now) i ≡ Some n → IsNarrow n }
    ensures parts { IfOk result (λ parts. parts ≡ map (part_of_node (position_in positions.now)) (seen_in nodes.now)) }
    ensures fits { IfOk result (AllByRecursion FitsNode) }
    ensures short { IfOk result (λ _. (i : ℕ) (n : Seen) → slice_get (seen_in nodes.now) i ≡ Some n → IsShort n) }
{
    let mut parts = Vec::with_capacity(alloc, nodes.list.len())?;
    for node in &nodes.list {
        parts.push(node_part(alloc, node, positions)?)?;
    }
    Ok(Items::from_vec(parts))
}
