//! Pointers and their entries: putting a pair in, taking it away, finding an entry.

ghost use Rattle.std.specs.Prelude.{◌≡◌, ◌≢◌, ℕ, ◌+◌, ◌<◌, ◌≤◌, List, length, if◌then◌else◌, ◌==◌, ◌↔◌, IsTrue};
ghost use Rattle.pst_rows.specs.declared.row.Row.{Row};
ghost use Rattle.pst_order.specs.Places.{rank};
ghost use Rattle.pst_mirror.specs.Mirror.{IsMirrored, renamed};
ghost use Rattle.pst_mirror.specs.Contents.{Target, From};
ghost use Rattle.pst_nodes.specs.declared.node.Node.{Node};
ghost use Rattle.pst_nodes.specs.Arena.{HasRoom, row_at, AreRows, chart, HoldsEntryOf, IsAlive, IsSlot};
ghost use Rattle.pst_nodes.specs.Changes.{AreTouched, HasRoomForEntry, IsFieldLinked, IsFieldUnlinked};

use crate::node::Nodes;
use pst_base::{NodeId, SlotNo};
use pst_order::{Order, Pos};
use pst_rows::Content;

impl Nodes {
    /// The slot of a node that holds the entry of a field of node `x`, or of `z` in its place.
    pub fn entry_slot<O: Order>(
        &self,
        order: &O,
        id: NodeId,
        at: Pos,
        x: NodeId,
        z: NodeId,
        field: SlotNo,
    ) -> SlotNo
        requires rows { AreRows (O.places order.now) self.now.list.items }
        requires alive { IsAlive (O.places order.now) self.now.list.items id.0 (rank (O.places order.now) at.0) }
        requires there { (s : ℕ) × HoldsEntryOf (O.places order.now) self.now.list.items id.0 s (rank (O.places order.now) at.0) x.0 z.0 field.0 }
        ensures slot { IsSlot (O.places order.now) self.now.list.items id.0 result.0 (rank (O.places order.now) at.0) }
        ensures entry { HoldsEntryOf (O.places order.now) self.now.list.items id.0 result.0 (rank (O.places order.now) at.0) x.0 z.0 field.0 }
    {
        // The inverse slots are the last ones of a node, so the search begins there.
        for index in (0..self.row(id).width()).rev() {
            let slot = SlotNo(index as u16);
            if is_entry_of(self.read(order, id, slot, at), x, z, field) {
                return slot;
            }
        }
        unreachable!()
    }

    /// Sets a field to a node, and an inverse slot of this node to the field, over one position.
    pub fn link<O: Order>(
        &mut self,
        order: &O,
        from: Pos,
        to: Pos,
        x: NodeId,
        field: SlotNo,
        y: NodeId,
        slot: SlotNo,
    )
        requires rows { AreRows (O.places order.now) self.old.list.items }
        requires mirrored { IsMirrored (chart (O.places order.now) self.old.list.items) }
        requires behind { rank (O.places order.now) to.0 ≡ rank (O.places order.now) from.0 + 1 }
        requires field { IsSlot (O.places order.now) self.old.list.items x.0 field.0 (rank (O.places order.now) from.0) }
        requires slot { IsSlot (O.places order.now) self.old.list.items y.0 slot.0 (rank (O.places order.now) from.0) }
        requires null { (chart (O.places order.now) self.old.list.items).holds x.0 field.0 (rank (O.places order.now) from.0) ≡ Content.Null }
        requires free { (chart (O.places order.now) self.old.list.items).holds y.0 slot.0 (rank (O.places order.now) from.0) ≡ Content.Free }
        requires room_x { (d : Row) → HasRoom (row_at self.old.list.items x.0 d) 2 }
        requires room_y { (d : Row) → HasRoom (row_at self.old.list.items y.0 d) (if y.0 == x.0 then 4 else 2) }
        ensures linked { IsFieldLinked (O.places order.now) self.old.list.items self.new.list.items x.0 field.0 y.0 slot.0 (rank (O.places order.now) from.0) }
        ensures mirrored { IsMirrored (chart (O.places order.now) self.new.list.items) }
        ensures rows { AreRows (O.places order.now) self.new.list.items }
        ensures touched { AreTouched (O.places order.now) self.old.list.items self.new.list.items x.0 field.0 y.0 slot.0 (rank (O.places order.now) from.0) }
    {
        self.set_over(order, x, field, from, to, Content::Target(y));
        self.set_over(order, y, slot, from, to, Content::From(x, field));
    }

    /// Sets a field that holds a node to null, and its entry to free, over one position.
    pub fn unlink<O: Order>(&mut self, order: &O, from: Pos, to: Pos, x: NodeId, field: SlotNo)
        requires rows { AreRows (O.places order.now) self.old.list.items }
        requires mirrored { IsMirrored (chart (O.places order.now) self.old.list.items) }
        requires behind { rank (O.places order.now) to.0 ≡ rank (O.places order.now) from.0 + 1 }
        requires held { (y : ℕ) × ((chart (O.places order.now) self.old.list.items).holds x.0 field.0 (rank (O.places order.now) from.0) ≡ Target y) }
        requires room_x { (d : Row) → HasRoom (row_at self.old.list.items x.0 d) 2 }
        requires room_y { HasRoomForEntry (O.places order.now) self.old.list.items x.0 field.0 (rank (O.places order.now) from.0) }
        ensures unlinked { IsFieldUnlinked (O.places order.now) self.old.list.items self.new.list.items x.0 field.0 (rank (O.places order.now) from.0) }
        ensures mirrored { IsMirrored (chart (O.places order.now) self.new.list.items) }
        ensures rows { AreRows (O.places order.now) self.new.list.items }
    {
        match self.read(order, x, field, from) {
            Content::Target(y) => {
                let slot = self.entry_slot(order, y, from, x, x, field);
                self.set_over(order, x, field, from, to, Content::Null);
                self.set_over(order, y, slot, from, to, Content::Free);
            }
            _ => unreachable!(),
        }
    }
}

// Whether a content is the entry of a field of one of two nodes.
fn is_entry_of(content: Content, x: NodeId, z: NodeId, field: SlotNo) -> bool
    ensures { IsTrue result ↔ (renamed x.0 z.0 content ≡ From z.0 field.0) }
{
    match content {
        Content::From(node, of) => of == field && (node == x || node == z),
        _ => false,
    }
}
