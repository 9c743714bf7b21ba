//! Whether nodes are of their types.

ghost use Rattle.std.specs.Prelude.{◌↔◌, ◌^◌, ◌<◌, ◌≤◌, IsTrue, MatchOption, length};
ghost use Rattle.pst_base.specs.Shape.{IsValid};
ghost use Rattle.pst_image_rules.specs.Nodes.{IsAfter, IsStamp, AreSorted, HaveKinds, AreStamps, HasSlots, IsNode, AreNodes};

use crate::contents::fits_slot;
use pst_base::{Shape, SlotNo, TypeNo};
use pst_image_form::{NodePart, StampPart};

/// Whether a stamped value stands behind another one: of a later slot, or of the same slot at a later place.
fn is_after(first: StampPart, second: StampPart) -> bool
    ensures { IsTrue result ↔ IsAfter first second }
{
    first.slot.0 < second.slot.0 || first.slot.0 == second.slot.0 && first.place < second.place
}

/// Whether the stamped values stand in order.
fn are_sorted(stamps: &[StampPart]) -> bool
    ensures { IsTrue result ↔ AreSorted stamps.now }
{
    for i in 1..stamps.len() {
        if !is_after(stamps[i - 1], stamps[i]) {
            return false;
        }
    }
    true
}

/// Whether a stamped value is of a slot that is there, and lies strictly inside the life.
fn is_stamp(node: &NodePart, stamp: StampPart) -> bool
    ensures { IsTrue result ↔ IsStamp node.now stamp }
{
    usize::from(stamp.slot.0) < node.bases.as_slice().len()
        && node.lo < stamp.place
        && stamp.place < node.hi
}

/// Whether the bases of a node are contents of their slots' kinds.
fn bases_fit(shape: &Shape, nodes: &[NodePart], ty: TypeNo, bases: &[u64]) -> bool
    requires { length bases.now < 2 ^ 16 }
    ensures { IsTrue result ↔ HaveKinds shape.now nodes.now ty bases.now }
{
    for slot in 0..bases.len() {
        if !fits_slot(shape, nodes, ty, SlotNo(slot as u16), bases[slot]) {
            return false;
        }
    }
    true
}

/// Whether the stamped values of a node lie inside its life, and are contents of their slots' kinds.
fn stamps_fit(shape: &Shape, nodes: &[NodePart], node: &NodePart) -> bool
    ensures { IsTrue result ↔ AreStamps shape.now nodes.now node.now }
{
    let stamps = node.stamps.as_slice();
    for i in 0..stamps.len() {
        let stamp = stamps[i];
        if !is_stamp(node, stamp) || !fits_slot(shape, nodes, node.ty, stamp.slot, stamp.content) {
            return false;
        }
    }
    true
}

/// How many slots a node of a type has, or None where the shape has no such type.
fn slots_of(shape: &Shape, ty: TypeNo) -> Option<usize>
    requires { IsValid shape.now }
    ensures { MatchOption result (length shape.now ≤ ty.0) (HasSlots shape.now ty) }
{
    match shape.as_slice().get(usize::from(ty.0)) {
        Some(ty) => {
            let elements = usize::from(ty.values) + ty.targets.as_slice().len();
            Some(elements + usize::from(ty.limit))
        }
        None => None,
    }
}

/// Whether a node of an image of so many places is one of its type.
fn is_node(shape: &Shape, places: u32, nodes: &[NodePart], node: &NodePart) -> bool
    requires { IsValid shape.now }
    ensures { IsTrue result ↔ IsNode shape.now places nodes.now node.now }
{
    let bases = node.bases.as_slice();
    let Some(slots) = slots_of(shape, node.ty) else {
        return false;
    };
    bases.len() == slots
        && node.lo < node.hi
        && node.hi < places
        && stamps_fit(shape, nodes, node)
        && are_sorted(node.stamps.as_slice())
        && bases_fit(shape, nodes, node.ty, bases)
}

/// Whether each node of an image of so many places is one of its type. It takes time by the number of slots and stamped values.
pub fn are_nodes(shape: &Shape, places: u32, nodes: &[NodePart]) -> bool
    requires { IsValid shape.now }
    ensures { IsTrue result ↔ AreNodes shape.now places nodes.now }
{
    for node in nodes {
        if !is_node(shape, places, nodes, node) {
            return false;
        }
    }
    true
}
