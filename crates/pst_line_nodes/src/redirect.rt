//! The redirection of pointers to copied nodes, which may copy more nodes.

ghost use Rattle.std.specs.Prelude.{OnOk, OnErr, IfOk, ◌≡◌, ◌≢◌, ◌+◌, ◌<◌, ◌≤◌, ◌↔◌, IsTrue, ℕ, Bool, true, List, length, Some, None};
ghost use Rattle.pst_base.specs.Shape.{type_at, element_count};
ghost use Rattle.pst_line_nodes.specs.Contents.{Target};
ghost use Rattle.pst_line_nodes.specs.Line.{IsNewest, IsLine, IsQuiet};
ghost use Rattle.pst_line_nodes.specs.Nodes.{line_of, AreKept, HasSlot};
ghost use Rattle.pst_line_nodes.specs.Copying.{node_at};
ghost use Rattle.pst_line_nodes.specs.Carried.{AreCarried, IsFullFor, HasRoomFor, IsRedirecting, HasComeTo, Settles};

use crate::content::{Content, Entry, InverseNo, Stamp};
use crate::nodes::{Nodes, type_at};
use pst_base::{NoMemory, NodeId, Shape, SlotNo, TypeShape};

impl Nodes {
    /// Makes room for a write of a field at a stamp, the newest one: gives the node, or its copy where the write would stamp one
    /// value too many. Then all pointers to the copied node are redirected, which may copy more nodes. No heap changes, also
    /// where memory is refused: then some pointers may be left to be redirected.
    ///
    /// # Errors
    /// Where there was no memory.
    pub fn make_room(
        &mut self,
        shape: &Shape,
        x: NodeId,
        field: SlotNo,
        stamp: Stamp,
    ) -> Result<NodeId, NoMemory>
        requires kept { AreKept shape.now stamp.0 self.old }
        requires line { (made : ℕ → Bool) × IsLine shape.now stamp.0 (line_of made self.old) }
        requires quiet { IsQuiet (line_of (λ _. true) self.old) stamp.0 }
        requires newest { IsNewest (line_of (λ _. true) self.old) x.0 }
        ensures room { IfOk result (λ z. HasRoomFor shape.now (line_of (λ _. true) self.new) x.0 field.0 stamp.0 z.0) }
        ensures quiet { OnOk result (IsQuiet (line_of (λ _. true) self.new) stamp.0) }
        ensures carried { AreCarried shape.now stamp.0 self.old self.new }
        ensures kept { AreKept shape.now stamp.0 self.new }
    {
        if self.is_full(shape, x, field, stamp) {
            self.copy_over(shape, x, stamp)
        } else {
            Ok(x)
        }
    }

    // Copies a full node, and redirects all pointers to copied nodes. Gives the newest node of the record.
    fn copy_over(&mut self, shape: &Shape, x: NodeId, stamp: Stamp) -> Result<NodeId, NoMemory>
        requires kept { AreKept shape.now stamp.0 self.old }
        requires line { (made : ℕ → Bool) × IsLine shape.now stamp.0 (line_of made self.old) }
        requires quiet { IsQuiet (line_of (λ _. true) self.old) stamp.0 }
        requires newest { IsNewest (line_of (λ _. true) self.old) x.0 }
        requires full { (f : ℕ) × IsFullFor shape.now (line_of (λ _. true) self.old) x.0 f stamp.0 }
        ensures room { IfOk result (λ z. (f : ℕ) → HasRoomFor shape.now (line_of (λ _. true) self.new) x.0 f stamp.0 z.0) }
        ensures quiet { OnOk result (IsQuiet (line_of (λ _. true) self.new) stamp.0) }
        ensures carried { AreCarried shape.now stamp.0 self.old self.new }
        ensures kept { AreKept shape.now stamp.0 self.new }
    {
        let copy = NodeId(self.count());
        self.copy(x, stamp)?;
        self.redirect_from(shape, copy, stamp)?;
        Ok(self.cover(x, stamp))
    }

    // Whether a write of a field at a stamp would stamp one value too many.
    fn is_full(&self, shape: &Shape, x: NodeId, field: SlotNo, stamp: Stamp) -> bool
        requires kept { AreKept shape.now stamp.0 self.now }
        requires there { x.0 < length self.now }
        requires known { ((line_of (λ _. true) self.now).ty x.0).0 < length shape.now }
        ensures { IsTrue result ↔ IsFullFor shape.now (line_of (λ _. true) self.now) x.0 field.0 stamp.0 }
    {
        let node = self.node(x);
        let limit = type_at(shape, node.ty()).limit;
        node.is_full(usize::from(limit), field, stamp)
    }

    // Redirects each pointer to a node that was copied, where the copies are the nodes from a first one on.
    fn redirect_from(&mut self, shape: &Shape, first: NodeId, stamp: Stamp) -> Result<(), NoMemory>
        requires kept { AreKept shape.now stamp.0 self.old }
        requires line { (made : ℕ → Bool) × IsLine shape.now stamp.0 (line_of made self.old) }
        requires begun { IsRedirecting (line_of (λ _. true) self.old) stamp.0 first.0 0 }
        ensures quiet { OnOk result (IsQuiet (line_of (λ _. true) self.new) stamp.0) }
        ensures carried { AreCarried shape.now stamp.0 self.old self.new }
        ensures kept { AreKept shape.now stamp.0 self.new }
    {
        let mut copy = first;
        while copy.0 < self.count() {
            self.redirect_to(shape, copy, stamp)?;
            copy = NodeId(copy.0 + 1);
        }
        Ok(())
    }

    // Redirects each pointer that is to hold a copy.
    fn redirect_to(&mut self, shape: &Shape, z: NodeId, stamp: Stamp) -> Result<(), NoMemory>
        requires kept { AreKept shape.now stamp.0 self.old }
        requires line { (made : ℕ → Bool) × IsLine shape.now stamp.0 (line_of made self.old) }
        requires there { z.0 < length self.old }
        requires begun { IsRedirecting (line_of (λ _. true) self.old) stamp.0 z.0 0 }
        ensures done { OnOk result (IsRedirecting (line_of (λ _. true) self.new) stamp.0 (z.0 + 1) 0) }
        ensures carried { AreCarried shape.now stamp.0 self.old self.new }
        ensures kept { AreKept shape.now stamp.0 self.new }
    {
        for slot in 0..self.node(z).inverse_slots() {
            self.redirect_slot(shape, z, InverseNo(slot), stamp)?;
        }
        Ok(())
    }

    // Redirects the pointer that an inverse slot of a copy stands for.
    fn redirect_slot(
        &mut self,
        shape: &Shape,
        z: NodeId,
        slot: InverseNo,
        stamp: Stamp,
    ) -> Result<(), NoMemory>
        requires kept { AreKept shape.now stamp.0 self.old }
        requires line { (made : ℕ → Bool) × IsLine shape.now stamp.0 (line_of made self.old) }
        requires there { z.0 < length self.old }
        requires slot { slot.0 < length (node_at self.old z.0).inverse }
        requires begun { IsRedirecting (line_of (λ _. true) self.old) stamp.0 z.0 slot.0 }
        ensures done { OnOk result (IsRedirecting (line_of (λ _. true) self.new) stamp.0 z.0 (slot.0 + 1)) }
        ensures carried { AreCarried shape.now stamp.0 self.old self.new }
        ensures kept { AreKept shape.now stamp.0 self.new }
    {
        match self.node(z).entry(slot) {
            Some(entry) => self.redirect(shape, entry, z, stamp),
            None => Ok(()),
        }
    }

    // Lets a pointer hold the copy z: it is replaced or stamped, or its node is copied, and the copy holds z.
    fn redirect(
        &mut self,
        shape: &Shape,
        entry: Entry,
        z: NodeId,
        stamp: Stamp,
    ) -> Result<(), NoMemory>
        requires kept { AreKept shape.now stamp.0 self.old }
        requires line { (made : ℕ → Bool) × IsLine shape.now stamp.0 (line_of made self.old) }
        requires there { z.0 < length self.old }
        requires entered { HasComeTo (line_of (λ _. true) self.old) stamp.0 z.0 entry.node.0 entry.slot.0 }
        ensures done { OnOk result (Settles (line_of (λ _. true) self.old) (line_of (λ _. true) self.new) stamp.0 z.0 entry.node.0 entry.slot.0) }
        ensures carried { AreCarried shape.now stamp.0 self.old self.new }
        ensures kept { AreKept shape.now stamp.0 self.new }
    {
        if is_target(self.read(entry.node, entry.slot, stamp), z) {
            return Ok(());
        }
        if self.is_full(shape, entry.node, entry.slot, stamp) {
            self.copy(entry.node, stamp)
        } else {
            self.set(entry.node, entry.slot, stamp, Content::Target(z))
        }
    }
}

// Whether a content is a pointer to a node.
fn is_target(content: Content, z: NodeId) -> bool
    ensures { IsTrue result ↔ (content ≡ Target z.0) }
{
    match content {
        Content::Target(y) => y == z,
        Content::Number(_) | Content::Null => false,
    }
}
