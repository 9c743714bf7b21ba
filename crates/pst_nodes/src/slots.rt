//! Inverse slots: finding one that a field can take.

ghost use Rattle.std.specs.Prelude.{◌≡◌, ◌<◌, length, IfSome, IfNone, ◌↔◌, IsTrue};
ghost use Rattle.pst_order.specs.Places.{rank};
ghost use Rattle.pst_base.specs.Shape.{type_at, element_count};
ghost use Rattle.pst_rows.specs.Changes.{slot_count};
ghost use Rattle.pst_mirror.specs.Degree.{is_other_entry};
ghost use Rattle.pst_nodes.specs.Arena.{AreRows, IsAlive, type_of, IsTyped, IsOpenSlot, AreFullApart};

use crate::node::Nodes;
use pst_base::{NodeId, Shape, SlotNo, TypeNo, TypeShape};
use pst_order::{Order, Pos};
use pst_rows::Content;

impl Nodes {
    /// An inverse slot of a node that a field of node `x` can take at a place: it is free there, or holds the entry of this
    /// very field. There is none where each one holds the entry of another field.
    pub fn open_slot<O: Order>(
        &self,
        order: &O,
        shape: &Shape,
        id: NodeId,
        at: Pos,
        x: NodeId,
        field: SlotNo,
    ) -> Option<SlotNo>
        requires rows { AreRows (O.places order.now) self.now.list.items }
        requires alive { IsAlive (O.places order.now) self.now.list.items id.0 (rank (O.places order.now) at.0) }
        requires typed { IsTyped shape.now self.now.list.items id.0 }
        ensures some { IfSome result (λ s. IsOpenSlot shape.now (O.places order.now) self.now.list.items id.0 (rank (O.places order.now) at.0) x.0 field.0 s.0) }
        ensures none { IfNone result (AreFullApart shape.now (O.places order.now) self.now.list.items id.0 (rank (O.places order.now) at.0) x.0 field.0) }
    {
        let (first, end) = self.inverse_slots(shape, id);
        for index in first..end {
            let slot = SlotNo(index as u16);
            if !is_other_entry(self.read(order, id, slot, at), x, field) {
                return Some(slot);
            }
        }
        None
    }

    // Where the inverse slots of a node begin and end: they are the last ones, as many as the limit of its type.
    fn inverse_slots(&self, shape: &Shape, id: NodeId) -> (usize, usize)
        requires there { id.0 < length self.now.list.items }
        requires typed { IsTyped shape.now self.now.list.items id.0 }
        ensures first { result.0 ≡ element_count (type_of shape.now self.now.list.items id.0) }
        ensures end { result.1 ≡ slot_count (type_of shape.now self.now.list.items id.0) }
    {
        let end = self.row(id).width();
        let limit = type_at(shape, self.ty(id)).limit;
        (end - usize::from(limit), end)
    }
}

/// The type with a number.
pub fn type_at(shape: &Shape, ty: TypeNo) -> &TypeShape
    requires { ty.0 < length shape.now }
    ensures { result.now ≡ type_at shape.now ty }
{
    &shape.as_slice()[usize::from(ty.0)]
}

// Whether a content is the entry of another field than this one.
fn is_other_entry(content: Content, x: NodeId, field: SlotNo) -> bool
    ensures { result ≡ is_other_entry x.0 field.0 content }
{
    match content {
        Content::From(node, of) => node != x || of != field,
        _ => false,
    }
}
