//! What slots of a node hold.

ghost use Rattle.std.specs.Prelude.{◌↔◌, ◌≡◌, IsTrue, length, ◌<◌};
ghost use Rattle.pst_base.specs.Shape.{type_at, field_kind};
ghost use Rattle.pst_image_rules.specs.Nodes.{IsNodeOf, HoldsPointer, HoldsEntry, IsFieldTo, HasKind, FitsSlot};

use pst_base::{Kind, Shape, SlotNo, TypeNo};
use pst_image_form::{ENTRY_SLOTS, NodePart};

/// What a slot of a type holds, or None where the type has no such element.
fn kind_of(shape: &Shape, ty: TypeNo, slot: SlotNo) -> Option<Kind>
    ensures { result ≡ field_kind (type_at shape.now ty) slot.0 }
{
    match shape.as_slice().get(usize::from(ty.0)) {
        Some(ty) => ty.kind(slot),
        None => None,
    }
}

/// Whether there is a node with the number, of the type.
fn is_node_of(nodes: &[NodePart], number: usize, ty: TypeNo) -> bool
    ensures { IsTrue result ↔ IsNodeOf nodes.now number ty }
{
    number < nodes.len() && nodes[number].ty.0 == ty.0
}

/// Whether a pointer slot to nodes of a type may hold this.
fn holds_pointer(nodes: &[NodePart], ty: TypeNo, content: u64) -> bool
    ensures { IsTrue result ↔ HoldsPointer nodes.now ty content }
{
    if content == 0 {
        return true;
    }
    is_node_of(nodes, (content - 1) as usize, ty)
}

/// Whether the slot is a pointer slot of the node that leads to nodes of a type.
fn is_field_to(shape: &Shape, nodes: &[NodePart], node: usize, slot: SlotNo, ty: TypeNo) -> bool
    ensures { IsTrue result ↔ IsFieldTo shape.now nodes.now node slot.0 ty }
{
    if nodes.len() <= node {
        return false;
    }
    match kind_of(shape, nodes[node].ty, slot) {
        Some(Kind::Pointer(target)) => target.0 == ty.0,
        Some(Kind::Int) => false,
        None => false,
    }
}

/// Whether an inverse slot of a node of a type may hold this.
fn holds_entry(shape: &Shape, nodes: &[NodePart], ty: TypeNo, content: u64) -> bool
    ensures { IsTrue result ↔ HoldsEntry shape.now nodes.now ty content }
{
    if content == 0 {
        return true;
    }
    if content < ENTRY_SLOTS {
        return false;
    }
    let node = (content / ENTRY_SLOTS - 1) as usize;
    let slot = SlotNo((content % ENTRY_SLOTS) as u16);
    is_field_to(shape, nodes, node, slot, ty)
}

/// Whether a slot of a node of a type may hold this.
pub fn fits_slot(shape: &Shape, nodes: &[NodePart], ty: TypeNo, slot: SlotNo, content: u64) -> bool
    ensures { IsTrue result ↔ FitsSlot shape.now nodes.now ty slot.0 content }
{
    match kind_of(shape, ty, slot) {
        Some(Kind::Int) => true,
        Some(Kind::Pointer(target)) => holds_pointer(nodes, target, content),
        None => holds_entry(shape, nodes, ty, content),
    }
}
