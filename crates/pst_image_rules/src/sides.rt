//! The mirror rule: pointers have their entries, and entries their pointers.

ghost use Rattle.std.specs.Prelude.{◌≡◌, ◌↔◌, ◌<◌, ◌^◌, IsTrue, IfSome, length, option_map};
ghost use Rattle.pst_image_rules.specs.Segments.{begins, ends, IsSorted};
ghost use Rattle.pst_base.specs.Shape.{type_at, element_count, IsValid};
ghost use Rattle.pst_image_rules.specs.Nodes.{node_at, slot_count, entry};
ghost use Rattle.pst_image_rules.specs.Mirror.{shape_of, IsPointerSlot, IsInverseSlot, IsEnteredAt, IsPointedAt, ArePointersEntered, AreEntriesPointed};
ghost use Rattle.pst_image_rules.specs.Sides.{AreTyped, HasEntryIn, HasOneEntry, IsPointerEntered, IsPointerThere, IsSlotOf, IsMirroredAt, AreBasesMirrored, AreStampsMirrored, IsNodeMirrored, AreMirrored};

use crate::segments::{Segment, segment_at};
use pst_base::{Shape, SlotNo, TypeNo};
use pst_image_form::{ENTRY_SLOTS, NodePart};

/// A side of the mirror rule: that pointers have their entries, or that entries have their pointers.
#[derive(Clone, Copy)]
enum Side {
    Pointers,
    Entries,
}

/// A pointer over a segment of its slot: the node and the slot that hold it, the places where the segment begins and ends, and the
/// node that it leads to.
#[derive(Clone, Copy)]
struct Pointer {
    node: usize,
    slot: SlotNo,
    from: u32,
    until: u32,
    target: usize,
}

/// Whether a content is the entry of a slot of a node.
fn is_entry(content: u64, node: usize, slot: SlotNo) -> bool
    requires { slot.0 < 128 }
    ensures { IsTrue result ↔ (content ≡ entry node slot.0) }
{
    ENTRY_SLOTS <= content
        && content / ENTRY_SLOTS - 1 == node as u64
        && content % ENTRY_SLOTS == u64::from(slot.0)
}

/// How many elements the fields of a type have.
fn elements_of(shape: &Shape, ty: TypeNo) -> usize
    requires valid { IsValid shape.now }
    requires known { ty.0 < length shape.now }
    ensures count { result ≡ element_count (type_at shape.now ty) }
    ensures few { result < 128 }
{
    match shape.as_slice().get(usize::from(ty.0)) {
        Some(ty) => usize::from(ty.values) + ty.targets.as_slice().len(),
        None => 0,
    }
}

/// How many value elements the fields of a type have.
fn values_of(shape: &Shape, ty: TypeNo) -> usize
    requires known { ty.0 < length shape.now }
    ensures { result ≡ (type_at shape.now ty).values }
{
    match shape.as_slice().get(usize::from(ty.0)) {
        Some(ty) => usize::from(ty.values),
        None => 0,
    }
}

/// How many slots the nodes of a type have.
fn slots_of(shape: &Shape, ty: TypeNo) -> usize
    requires valid { IsValid shape.now }
    requires known { ty.0 < length shape.now }
    ensures count { result ≡ slot_count (type_at shape.now ty) }
    ensures few { result < 2 ^ 16 }
{
    match shape.as_slice().get(usize::from(ty.0)) {
        Some(ty) => {
            let elements = usize::from(ty.values) + ty.targets.as_slice().len();
            elements + usize::from(ty.limit)
        }
        None => 0,
    }
}

/// The segment of a slot of a node that begins at a place, if one does.
fn segment_of(nodes: &[NodePart], node: usize, slot: SlotNo, place: u32) -> Option<Segment>
    requires node { node < length nodes.now }
    requires sorted { IsSorted (node_at nodes.now node) }
    requires slot { slot.0 < length (node_at nodes.now node).bases }
    ensures content { option_map (λ s. s.content) result ≡ begins (node_at nodes.now node) slot.0 place }
    ensures end { IfSome result (λ s. s.end ≡ ends (node_at nodes.now node) slot.0 place) }
{
    segment_at(&nodes[node], slot, place)
}

/// Whether an inverse slot of the node that a pointer leads to has its entry.
fn has_entry(nodes: &[NodePart], pointer: Pointer, slot: SlotNo) -> bool
    requires target { pointer.target < length nodes.now }
    requires sorted { IsSorted (node_at nodes.now pointer.target) }
    requires field { pointer.slot.0 < 128 }
    requires slot { slot.0 < length (node_at nodes.now pointer.target).bases }
    ensures { IsTrue result ↔ HasEntryIn nodes.now pointer slot.0 }
{
    match segment_at(&nodes[pointer.target], slot, pointer.from) {
        Some(segment) => {
            is_entry(segment.content, pointer.node, pointer.slot) && segment.end == pointer.until
        }
        None => false,
    }
}

/// Whether just one inverse slot of the node that a pointer leads to has its entry.
fn has_one_entry(shape: &Shape, nodes: &[NodePart], pointer: Pointer) -> bool
    requires valid { IsValid shape.now }
    requires typed { AreTyped shape.now nodes.now }
    requires target { pointer.target < length nodes.now }
    requires field { pointer.slot.0 < 128 }
    ensures { IsTrue result ↔ HasOneEntry shape.now nodes.now pointer }
{
    let first = elements_of(shape, nodes[pointer.target].ty);
    let end = slots_of(shape, nodes[pointer.target].ty);
    let mut found = false;
    for slot in first..end {
        if has_entry(nodes, pointer, SlotNo(slot as u16)) {
            if found {
                return false;
            }
            found = true;
        }
    }
    found
}

/// Whether a pointer lies inside the life of the node that it leads to, and has just one entry there.
fn is_entered(shape: &Shape, nodes: &[NodePart], pointer: Pointer) -> bool
    requires valid { IsValid shape.now }
    requires typed { AreTyped shape.now nodes.now }
    requires target { pointer.target < length nodes.now }
    requires field { pointer.slot.0 < 128 }
    ensures { IsTrue result ↔ IsPointerEntered shape.now nodes.now pointer }
{
    nodes[pointer.target].lo <= pointer.from
        && pointer.until <= nodes[pointer.target].hi
        && has_one_entry(shape, nodes, pointer)
}

/// Whether a pointer is there.
fn has_pointer(nodes: &[NodePart], pointer: Pointer) -> bool
    requires node { pointer.node < length nodes.now }
    requires sorted { IsSorted (node_at nodes.now pointer.node) }
    requires slot { pointer.slot.0 < length (node_at nodes.now pointer.node).bases }
    ensures { IsTrue result ↔ IsPointerThere nodes.now pointer }
{
    match segment_at(&nodes[pointer.node], pointer.slot, pointer.from) {
        Some(segment) => {
            0 < segment.content
                && segment.content - 1 == pointer.target as u64
                && segment.end == pointer.until
        }
        None => false,
    }
}

/// Whether the pointer of a slot is entered whose segment begins at the place, if one does.
fn is_pointer_entered(
    shape: &Shape,
    nodes: &[NodePart],
    node: usize,
    slot: SlotNo,
    place: u32,
) -> bool
    requires valid { IsValid shape.now }
    requires typed { AreTyped shape.now nodes.now }
    requires node { node < length nodes.now }
    requires slot { IsPointerSlot (shape_of shape.now nodes.now node) slot.0 }
    ensures { IsTrue result ↔ IsEnteredAt shape.now nodes.now node slot.0 place }
{
    let Some(segment) = segment_of(nodes, node, slot, place) else {
        return true;
    };
    if segment.content == 0 {
        return true;
    }
    let pointer = Pointer {
        node,
        slot,
        from: place,
        until: segment.end,
        target: (segment.content - 1) as usize,
    };
    is_entered(shape, nodes, pointer)
}

/// Whether the entry of a slot has its pointer whose segment begins at the place, if one does.
fn is_entry_pointed(
    shape: &Shape,
    nodes: &[NodePart],
    node: usize,
    slot: SlotNo,
    place: u32,
) -> bool
    requires typed { AreTyped shape.now nodes.now }
    requires node { node < length nodes.now }
    requires slot { IsInverseSlot (shape_of shape.now nodes.now node) slot.0 }
    ensures { IsTrue result ↔ IsPointedAt nodes.now node slot.0 place }
{
    let Some(segment) = segment_of(nodes, node, slot, place) else {
        return true;
    };
    if segment.content == 0 {
        return true;
    }
    let pointer = Pointer {
        node: (segment.content / ENTRY_SLOTS - 1) as usize,
        slot: SlotNo((segment.content % ENTRY_SLOTS) as u16),
        from: place,
        until: segment.end,
        target: node,
    };
    has_pointer(nodes, pointer)
}

/// The type of a node.
fn type_of(nodes: &[NodePart], node: usize) -> TypeNo
    requires { node < length nodes.now }
    ensures { result ≡ (node_at nodes.now node).ty }
{
    nodes[node].ty
}

/// Where a node's life begins.
fn lo_of(nodes: &[NodePart], node: usize) -> u32
    requires { node < length nodes.now }
    ensures { result ≡ (node_at nodes.now node).lo }
{
    nodes[node].lo
}

/// Whether a slot of a node of a type is one of this side: a pointer slot, or an inverse slot.
fn is_slot_of(shape: &Shape, side: Side, ty: TypeNo, slot: SlotNo) -> bool
    requires valid { IsValid shape.now }
    requires known { ty.0 < length shape.now }
    ensures { IsTrue result ↔ IsSlotOf side (type_at shape.now ty) slot.0 }
{
    let elements = elements_of(shape, ty);
    let slot = usize::from(slot.0);
    match side {
        Side::Pointers => values_of(shape, ty) <= slot && slot < elements,
        Side::Entries => elements <= slot && slot < slots_of(shape, ty),
    }
}

/// Whether a slot is one of the other side, or what its segment holds that begins at the place has its partner.
fn is_mirrored_at(
    shape: &Shape,
    nodes: &[NodePart],
    side: Side,
    node: usize,
    slot: SlotNo,
    place: u32,
) -> bool
    requires valid { IsValid shape.now }
    requires typed { AreTyped shape.now nodes.now }
    requires node { node < length nodes.now }
    ensures { IsTrue result ↔ IsMirroredAt shape.now nodes.now side node slot.0 place }
{
    if !is_slot_of(shape, side, type_of(nodes, node), slot) {
        return true;
    }
    match side {
        Side::Pointers => is_pointer_entered(shape, nodes, node, slot, place),
        Side::Entries => is_entry_pointed(shape, nodes, node, slot, place),
    }
}

/// Whether the bases of a node have their sides.
fn are_bases_mirrored(shape: &Shape, nodes: &[NodePart], side: Side, node: usize) -> bool
    requires valid { IsValid shape.now }
    requires typed { AreTyped shape.now nodes.now }
    requires node { node < length nodes.now }
    ensures { IsTrue result ↔ AreBasesMirrored shape.now nodes.now side node }
{
    let count = slots_of(shape, type_of(nodes, node));
    let place = lo_of(nodes, node);
    for slot in 0..count {
        if !is_mirrored_at(shape, nodes, side, node, SlotNo(slot as u16), place) {
            return false;
        }
    }
    true
}

/// Whether the stamped values of a node have their sides.
fn are_stamps_mirrored(shape: &Shape, nodes: &[NodePart], side: Side, node: usize) -> bool
    requires valid { IsValid shape.now }
    requires typed { AreTyped shape.now nodes.now }
    requires node { node < length nodes.now }
    ensures { IsTrue result ↔ AreStampsMirrored shape.now nodes.now side node }
{
    let stamps = nodes[node].stamps.as_slice();
    for i in 0..stamps.len() {
        let stamp = stamps[i];
        if !is_mirrored_at(shape, nodes, side, node, stamp.slot, stamp.place) {
            return false;
        }
    }
    true
}

/// Whether all that a node holds has its sides.
fn is_node_mirrored(shape: &Shape, nodes: &[NodePart], side: Side, node: usize) -> bool
    requires valid { IsValid shape.now }
    requires typed { AreTyped shape.now nodes.now }
    requires node { node < length nodes.now }
    ensures { IsTrue result ↔ IsNodeMirrored shape.now nodes.now side node }
{
    are_bases_mirrored(shape, nodes, side, node) && are_stamps_mirrored(shape, nodes, side, node)
}

/// Whether all that nodes hold has its sides.
fn are_mirrored(shape: &Shape, nodes: &[NodePart], side: Side) -> bool
    requires valid { IsValid shape.now }
    requires typed { AreTyped shape.now nodes.now }
    ensures { IsTrue result ↔ AreMirrored shape.now nodes.now side }
{
    for node in 0..nodes.len() {
        if !is_node_mirrored(shape, nodes, side, node) {
            return false;
        }
    }
    true
}

/// Whether each pointer segment lies inside the life of the node that it leads to and has just one entry there. It takes time by
/// the number of slots and stamped values, times the limit of a type and the logarithm of a node's stamped values.
pub fn are_pointers_entered(shape: &Shape, nodes: &[NodePart]) -> bool
    requires valid { IsValid shape.now }
    requires typed { AreTyped shape.now nodes.now }
    ensures { IsTrue result ↔ ArePointersEntered shape.now nodes.now }
{
    are_mirrored(shape, nodes, Side::Pointers)
}

/// Whether each entry segment has its pointer. It takes time by the number of slots and stamped values, times the logarithm of a
/// node's stamped values.
pub fn are_entries_pointed(shape: &Shape, nodes: &[NodePart]) -> bool
    requires valid { IsValid shape.now }
    requires typed { AreTyped shape.now nodes.now }
    ensures { IsTrue result ↔ AreEntriesPointed shape.now nodes.now }
{
    are_mirrored(shape, nodes, Side::Entries)
}
