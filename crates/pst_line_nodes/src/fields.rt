//! Writes of a pointer field, with the entries of what it held and holds, and new records.

ghost use Rattle.std.specs.Prelude.{OnOk, OnErr, IfOk, IsOk, IfSome, IfNone, ◌≡◌, ◌≢◌, ◌+◌, ◌<◌, ◌≤◌, ℕ, Bool, true, false, List, length, Some, None};
ghost use Rattle.pst_base.specs.declared.shape.TypeShape.{TypeShape};
ghost use Rattle.pst_base.specs.Shape.{type_at, element_count};
ghost use Rattle.pst_line_nodes.specs.Contents.{Target};
ghost use Rattle.pst_line_nodes.specs.Line.{IsNewest, newest};
ghost use Rattle.pst_line_nodes.specs.Nodes.{line_of, AreKept, HasSlot};
ghost use Rattle.pst_line_nodes.specs.Copying.{node_at};
ghost use Rattle.pst_line_nodes.specs.Making.{AreFreed, entered};
ghost use Rattle.pst_line_nodes.specs.Carried.{HasFieldNulled, HasFieldPointed, AreSomeLine, MayPoint, HasOpenSlot, HasNoOpenSlot, HasNewRecord};

use crate::content::{Content, Entry, InverseNo, Stamp};
use crate::node::Node;
use crate::nodes::{Nodes, type_at};
use pst_base::{Name, NoMemory, NodeId, Shape, SlotNo, TypeNo};

impl Nodes {
    /// An inverse slot of a node that is free, or has the entry of this very field. None where each one has the entry of
    /// another field: then as many pointers lead to the record as its limit allows.
    pub fn open_slot(&self, z: NodeId, x: NodeId, field: SlotNo) -> Option<InverseNo>
        requires newest { IsNewest (line_of (λ _. true) self.now) z.0 }
        ensures some { IfSome result (λ slot. HasOpenSlot self.now z.0 x.0 field.0 slot.0) }
        ensures none { IfNone result (HasNoOpenSlot self.now z.0 x.0 field.0) }
    {
        self.node(z).open_slot(x, field)
    }

    /// Writes null into a field of a newest node, at the newest stamp. A refusal changes nothing, and where the content is
    /// replaced there is none.
    ///
    /// # Errors
    /// Where there was no memory.
    pub fn set_null(&mut self, x: NodeId, field: SlotNo, stamp: Stamp) -> Result<(), NoMemory>
        requires line { AreSomeLine stamp.0 self.old }
        requires newest { IsNewest (line_of (λ _. true) self.old) x.0 }
        requires field { HasSlot self.old x.0 field.0 }
        ensures ok { OnOk result (HasFieldNulled self.old self.new x.0 field.0 stamp.0) }
        ensures kept { (shape : List TypeShape) → AreKept shape stamp.0 self.old → AreKept shape stamp.0 self.new }
        ensures err { OnErr result (self.new ≡ self.old) }
        ensures replaces { (line_of (λ _. true) self.old).since x.0 field.0 ≡ stamp.0 → IsOk result }
    {
        let held = self.read(x, field, stamp);
        self.set(x, field, stamp, Content::Null)?;
        self.free(held, x, field);
        Ok(())
    }

    /// Writes a pointer to a newest node into a field of a newest node, at the newest stamp, and its entry into an inverse
    /// slot. A refusal changes nothing, and where the content is replaced there is none.
    ///
    /// # Errors
    /// Where there was no memory.
    pub fn set_target(
        &mut self,
        x: NodeId,
        field: SlotNo,
        stamp: Stamp,
        z: NodeId,
        slot: InverseNo,
    ) -> Result<(), NoMemory>
        requires open { MayPoint stamp.0 self.old z.0 x.0 field.0 slot.0 }
        requires newest { IsNewest (line_of (λ _. true) self.old) x.0 }
        requires field { HasSlot self.old x.0 field.0 }
        requires target { IsNewest (line_of (λ _. true) self.old) z.0 }
        ensures ok { OnOk result (HasFieldPointed self.old self.new x.0 field.0 stamp.0 z.0 slot.0) }
        ensures kept { (shape : List TypeShape) → AreKept shape stamp.0 self.old → AreKept shape stamp.0 self.new }
        ensures err { OnErr result (self.new ≡ self.old) }
        ensures replaces { (line_of (λ _. true) self.old).since x.0 field.0 ≡ stamp.0 → IsOk result }
    {
        let held = self.read(x, field, stamp);
        self.set(x, field, stamp, Content::Target(z))?;
        self.free(held, x, field);
        self.enter(
            z,
            slot,
            Entry {
                node: x,
                slot: field,
            },
        );
        Ok(())
    }

    // Puts an entry into an inverse slot of a node.
    fn enter(&mut self, z: NodeId, slot: InverseNo, entry: Entry)
        requires there { z.0 < length self.old }
        requires slot { slot.0 < length (node_at self.old z.0).inverse }
        ensures { self.new ≡ entered self.old z.0 slot.0 entry }
    {
        let node = &mut self.list[z.0 as usize];
        node.enter(slot, entry);
    }

    // Frees the entry of a field in the node that the field held.
    fn free(&mut self, held: Content, x: NodeId, field: SlotNo)
        requires { (y : ℕ) → held ≡ Target y → (y < length self.old) × (newest (line_of (λ _. true) self.old) y < length self.old) }
        ensures { AreFreed self.old self.new x.0 field.0 held }
    {
        if let Content::Target(y) = held {
            let holder = self.newest(y);
            let node = &mut self.list[holder.0 as usize];
            node.free(x, field);
        }
    }

    /// Adds the node of a new record with default fields. A refusal changes nothing.
    ///
    /// # Errors
    /// Where there was no memory.
    pub fn make(
        &mut self,
        shape: &Shape,
        name: Name,
        ty: TypeNo,
        stamp: Stamp,
    ) -> Result<NodeId, NoMemory>
        requires known { ty.0 < length shape.now }
        ensures id { IfOk result (λ id. id.0 ≡ length self.old) }
        ensures made { OnOk result (HasNewRecord shape.now self.old self.new name ty stamp.0) }
        ensures kept { AreKept shape.now stamp.0 self.old → AreKept shape.now stamp.0 self.new }
        ensures err { OnErr result (self.new ≡ self.old) }
    {
        let alloc = *self.list.allocator();
        let id = NodeId(self.count());
        let node = Node::new(alloc, type_at(shape, ty), name, ty, id, stamp)?;
        self.list.push(node)?;
        Ok(id)
    }
}
