//! The arena: adding nodes, reading and changing one slot of one node.

ghost use Rattle.std.specs.Prelude.{◌≡◌, ◌≢◌, ℕ, ◌+◌, ◌<◌, ◌≤◌, List, [], ◌∷◌, ◌++◌, length, IfOk, OnOk, OnErr, IfSome, IfNone, is_some, false, true, not, if◌then◌else◌, ◌==◌, ◌↔◌, IsTrue, IsOk};
ghost use Rattle.std.proofs.Common.{rules};
ghost use Rattle.pst_rows.specs.declared.row.Row.{Row};
ghost use Rattle.pst_order.specs.Places.{rank};
ghost use Rattle.pst_mirror.specs.Lives.{AreChained, IsLive, IsIn};
ghost use Rattle.pst_rows.specs.Rows.{stamped_count, HasMadeRoom, HasSplitRoom};
ghost use Rattle.std.specs.Option.{option_map};
ghost use Rattle.pst_nodes.specs.Arena.{spare_nodes, HasRoom, new_node, rows_of, row_at, frame_at, frames_of, link_at, AreRows, chart, lives, IsAlive, IsSlot, IsSegmentAt, IsTyped, LeadsTo};
ghost use Rattle.pst_nodes.specs.Changes.{HasStampedOver, HasSlotSet, IsSegmentBegun, IsSegmentReplaced, IsTouched, AreSameNodes, IsCutInTwo};

use crate::header::Header;
use crate::links::{Link, Links};
use crate::node::{Node, Nodes};
use pst_base::{Name, NoMemory, NodeId, Shape, SlotNo, TypeNo};
use pst_order::{Order, Pos};
use pst_rows::{Content, Row, Segment, Stamp};
use std::alloc::Global;

impl Links for Nodes {
    ghost count = { λ s. length s.list.items };

    ghost link = { λ s. link_at s.list.items };

    ghost same_rest = { λ s t. (rows_of t.list.items ≡ rows_of s.list.items) × (frames_of t.list.items ≡ frames_of s.list.items) };

    ghost rest_itself = { λ s. Prim.search rules };

    ghost rest_on = { λ s t u p q. Prim.search rules };

    fn queue_link(&self, id: NodeId) -> Link {
        self.list[id.0 as usize].header.link()
    }

    fn set_queue_link(&mut self, id: NodeId, next: Link) {
        self.list[id.0 as usize].header.set_link(next);
    }
}

impl Nodes {
    /// No nodes, and no memory taken.
    pub fn new(alloc: Global) -> Nodes
        ensures { result.list.items ≡ [] }
    {
        Nodes {
            list: Vec::new(alloc),
        }
    }

    /// How many nodes there are.
    pub fn count(&self) -> u64
        ensures { result ≡ length self.now.list.items }
    {
        self.list.len() as u64
    }

    /// How many nodes more need no memory.
    pub fn spare(&self) -> usize
        ensures { result ≡ spare_nodes self.now }
    {
        self.list.capacity() - self.list.len()
    }

    /// Makes room for so many more nodes. A refusal changes nothing, the spare room included; there is none where the room
    /// is there already.
    ///
    /// # Errors
    /// Where there was no memory.
    pub fn reserve(&mut self, n: usize) -> Result<(), NoMemory>
        ensures items { self.new.list.items ≡ self.old.list.items }
        ensures room { OnOk result (n ≤ spare_nodes self.new) }
        ensures as_well { spare_nodes self.old ≤ spare_nodes self.new }
        ensures err { OnErr result (spare_nodes self.new ≡ spare_nodes self.old) }
        ensures full { OnErr result (spare_nodes self.old < n) }
    {
        self.list.reserve(n)
    }

    /// Adds a node, which gets the next number and does not wait. It is not refused where there is spare room for one. A
    /// refusal changes nothing.
    ///
    /// # Errors
    /// Where there was no memory.
    pub fn add(&mut self, name: Name, ty: TypeNo, row: Row) -> Result<NodeId, NoMemory>
        ensures id { IfOk result (λ id. id.0 ≡ length self.old.list.items) }
        ensures added { OnOk result (self.new.list.items ≡ self.old.list.items ++ new_node name ty row ∷ []) }
        ensures err { OnErr result (self.new.list.items ≡ self.old.list.items) }
        ensures succeeds { 1 ≤ spare_nodes self.old → IsOk result }
    {
        let header = Header::new(name, ty, None, Link::Out);
        self.push(Node { header, row })
    }

    /// Adds a node as it is, with its next node and its link, which gets the next number. It is not refused where there is
    /// spare room for one. A refusal changes nothing.
    ///
    /// # Errors
    /// Where there was no memory.
    pub fn push(&mut self, node: Node) -> Result<NodeId, NoMemory>
        ensures id { IfOk result (λ id. id.0 ≡ length self.old.list.items) }
        ensures added { OnOk result (self.new.list.items ≡ self.old.list.items ++ node ∷ []) }
        ensures err { OnErr result (self.new.list.items ≡ self.old.list.items) }
        ensures succeeds { 1 ≤ spare_nodes self.old → IsOk result }
    {
        let id = NodeId(self.list.len() as u64);
        self.list.push(node)?;
        Ok(id)
    }

    /// A node's row.
    #[inline(always)]
    pub fn row(&self, id: NodeId) -> &Row
        requires { id.0 < length self.now.list.items }
        ensures { (d : Row) → result.now ≡ row_at self.now.list.items id.0 d }
    {
        &self.list[id.0 as usize].row
    }

    /// The record of a node.
    #[inline(always)]
    pub fn name(&self, id: NodeId) -> Name
        requires { id.0 < length self.now.list.items }
        ensures { result ≡ (frame_at self.now.list.items id.0).name }
    {
        self.list[id.0 as usize].header.name()
    }

    /// The type of a node.
    pub fn ty(&self, id: NodeId) -> TypeNo
        requires { id.0 < length self.now.list.items }
        ensures { result.0 ≡ (frame_at self.now.list.items id.0).ty }
    {
        self.list[id.0 as usize].header.ty()
    }

    /// The next node of the record.
    #[inline(always)]
    pub fn later(&self, id: NodeId) -> Option<NodeId>
        requires { id.0 < length self.now.list.items }
        ensures { option_map (λ i. i.0) result ≡ (frame_at self.now.list.items id.0).later }
    {
        self.list[id.0 as usize].header.later()
    }

    /// Whether a node of the record comes next.
    #[inline(always)]
    pub fn is_followed(&self, id: NodeId) -> bool
        requires { id.0 < length self.now.list.items }
        ensures { result ≡ is_some (frame_at self.now.list.items id.0).later }
    {
        self.list[id.0 as usize].header.is_followed()
    }

    /// What a slot of a node holds at a place.
    #[inline(always)]
    pub fn read<O: Order>(&self, order: &O, id: NodeId, slot: SlotNo, at: Pos) -> Content
        requires rows { AreRows (O.places order.now) self.now.list.items }
        requires slot { IsSlot (O.places order.now) self.now.list.items id.0 slot.0 (rank (O.places order.now) at.0) }
        ensures { result ≡ (chart (O.places order.now) self.now.list.items).holds id.0 slot.0 (rank (O.places order.now) at.0) }
    {
        self.held_at(order, id, slot, at).content()
    }

    /// Where it is kept what a slot of a node holds at a place: its content is that, and tells no more.
    #[inline(always)]
    pub fn held_at<O: Order>(&self, order: &O, id: NodeId, slot: SlotNo, at: Pos) -> &Stamp
        requires rows { AreRows (O.places order.now) self.now.list.items }
        requires slot { IsSlot (O.places order.now) self.now.list.items id.0 slot.0 (rank (O.places order.now) at.0) }
        ensures { result.now.content ≡ (chart (O.places order.now) self.now.list.items).holds id.0 slot.0 (rank (O.places order.now) at.0) }
    {
        self.row(id).held_at(order, slot, at)
    }

    /// The segment of a slot that covers a place, with what the slot holds there.
    #[inline(always)]
    pub fn covering<O: Order>(&self, order: &O, id: NodeId, slot: SlotNo, at: Pos) -> Segment
        requires rows { AreRows (O.places order.now) self.now.list.items }
        requires slot { IsSlot (O.places order.now) self.now.list.items id.0 slot.0 (rank (O.places order.now) at.0) }
        ensures segment { IsSegmentAt (O.places order.now) self.now.list.items id.0 slot.0 (rank (O.places order.now) at.0)
            result.begin.0 result.end.0 }
        ensures content { result.content ≡ (chart (O.places order.now) self.now.list.items).holds id.0 slot.0 (rank (O.places order.now) at.0) }
    {
        self.row(id).covering(order, slot, at)
    }

    /// Makes room for so many more stamped values in a row. A refusal changes nothing.
    ///
    /// # Errors
    /// Where there was no memory.
    pub fn reserve_row(&mut self, id: NodeId, n: usize) -> Result<(), NoMemory>
        requires { id.0 < length self.old.list.items }
        ensures same { AreSameNodes self.old.list.items self.new.list.items }
        ensures room { OnOk result ((d : Row) → HasRoom (row_at self.new.list.items id.0 d) n) }
        ensures most { (d : Row) → HasMadeRoom (row_at self.old.list.items id.0 d) (row_at self.new.list.items id.0 d) n }
        ensures spare { spare_nodes self.new ≡ spare_nodes self.old }
        ensures err { OnErr result (self.new.list.items ≡ self.old.list.items) }
    {
        let node = &mut self.list[id.0 as usize];
        node.row.reserve(n)
    }

    /// Sets a slot over one position, from a place to the one directly behind it.
    pub fn set_over<O: Order>(
        &mut self,
        order: &O,
        id: NodeId,
        slot: SlotNo,
        from: Pos,
        to: Pos,
        content: Content,
    )
        requires rows { AreRows (O.places order.now) self.old.list.items }
        requires slot { IsSlot (O.places order.now) self.old.list.items id.0 slot.0 (rank (O.places order.now) from.0) }
        requires behind { rank (O.places order.now) to.0 ≡ rank (O.places order.now) from.0 + 1 }
        requires room { (d : Row) → HasRoom (row_at self.old.list.items id.0 d) 2 }
        ensures set { HasSlotSet (O.places order.now) self.old.list.items self.new.list.items id.0 slot.0 (rank (O.places order.now) from.0) content }
        ensures rows { AreRows (O.places order.now) self.new.list.items }
        ensures touched { IsTouched 2 self.old.list.items self.new.list.items id.0 }
        ensures stamped { HasStampedOver (O.places order.now) self.old.list.items self.new.list.items id.0 slot.0 (rank (O.places order.now) from.0) }
    {
        let node = &mut self.list[id.0 as usize];
        node.row.set_over(order, slot, from, to, content);
    }

    /// Begins a segment of a slot at a place where none begins, with the content that is held there. It answers whether it did;
    /// where one begins there nothing changes.
    pub fn begin_segment<O: Order>(&mut self, order: &O, id: NodeId, slot: SlotNo, at: Pos) -> bool
        requires rows { AreRows (O.places order.now) self.old.list.items }
        requires slot { IsSlot (O.places order.now) self.old.list.items id.0 slot.0 (rank (O.places order.now) at.0) }
        requires room { (d : Row) → HasRoom (row_at self.old.list.items id.0 d) 1 }
        ensures begun { result ≡ not ((chart (O.places order.now) self.old.list.items).edge id.0 slot.0 (rank (O.places order.now) at.0)) }
        ensures cut { IsSegmentBegun (O.places order.now) self.old.list.items self.new.list.items id.0 slot.0 (rank (O.places order.now) at.0) }
        ensures same { result ≡ false → self.new.list.items ≡ self.old.list.items }
        ensures rows { AreRows (O.places order.now) self.new.list.items }
        ensures touched { IsTouched 1 self.old.list.items self.new.list.items id.0 }
        ensures stamped { result ≡ true → (d : Row) → stamped_count (row_at self.new.list.items id.0 d) ≡ stamped_count (row_at self.old.list.items id.0 d) + 1 }
    {
        let node = &mut self.list[id.0 as usize];
        node.row.begin_segment(order, slot, at)
    }

    /// Sets the content of the segment that covers a place, over its whole length.
    pub fn replace<O: Order>(
        &mut self,
        order: &O,
        id: NodeId,
        slot: SlotNo,
        at: Pos,
        content: Content,
    )
        requires rows { AreRows (O.places order.now) self.old.list.items }
        requires slot { IsSlot (O.places order.now) self.old.list.items id.0 slot.0 (rank (O.places order.now) at.0) }
        ensures replaced { IsSegmentReplaced (O.places order.now) self.old.list.items self.new.list.items id.0 slot.0 (rank (O.places order.now) at.0) content }
        ensures rows { AreRows (O.places order.now) self.new.list.items }
        ensures touched { IsTouched 0 self.old.list.items self.new.list.items id.0 }
        ensures stamped { (d : Row) → stamped_count (row_at self.new.list.items id.0 d) ≡ stamped_count (row_at self.old.list.items id.0 d) }
    {
        let node = &mut self.list[id.0 as usize];
        node.row.replace(order, slot, at, content);
    }

    /// Cuts a node in two at a place. The node keeps what is before it, and the rest is a new node. A refusal changes nothing.
    ///
    /// # Errors
    /// Where there was no memory.
    pub fn split_off<O: Order>(
        &mut self,
        order: &O,
        id: NodeId,
        at: Pos,
    ) -> Result<NodeId, NoMemory>
        requires rows { AreRows (O.places order.now) self.old.list.items }
        requires there { id.0 < length self.old.list.items }
        requires after { (d : Row) → rank (O.places order.now) (row_at self.old.list.items id.0 d).lo.0 < rank (O.places order.now) at.0 }
        requires before { (d : Row) → rank (O.places order.now) at.0 < rank (O.places order.now) (row_at self.old.list.items id.0 d).hi.0 }
        requires room { 1 ≤ spare_nodes self.old }
        ensures split { IfOk result (λ z. IsCutInTwo (O.places order.now) self.old.list.items self.new.list.items id.0 z.0 at.0) }
        ensures rows { AreRows (O.places order.now) self.new.list.items }
        ensures most { IfOk result (λ z. (d : Row) → HasSplitRoom (row_at self.old.list.items id.0 d) (row_at self.new.list.items id.0 d) (row_at self.new.list.items z.0 d)) }
        ensures err { OnErr result (self.new.list.items ≡ self.old.list.items) }
    {
        let right = NodeId(self.list.len() as u64);
        let node = &mut self.list[id.0 as usize];
        let row = node.row.split_off(order, at)?;
        let old = &mut node.header;
        let header = Header::new(old.name(), old.ty(), old.later(), Link::Out);
        old.set_later(Some(right));
        self.list.push_reserved(Node { header, row });
        Ok(right)
    }

    /// The node of the record that covers a place.
    #[inline(always)]
    pub fn cover<O: Order>(&self, order: &O, id: NodeId, at: Pos) -> NodeId
        requires rows { AreRows (O.places order.now) self.now.list.items }
        requires chained { AreChained (lives (O.places order.now) self.now.list.items) }
        requires live { IsLive (lives (O.places order.now) self.now.list.items) id.0 (rank (O.places order.now) at.0) }
        ensures covers { IsIn (lives (O.places order.now) self.now.list.items) result.0 (rank (O.places order.now) at.0) }
        ensures name { (frame_at self.now.list.items result.0).name ≡ (frame_at self.now.list.items id.0).name }
    {
        let mut node = id;
        while let Some(next) = self.behind(order, node, at) {
            node = next;
        }
        node
    }

    // The next node of the record, where the place is not in the life of this one. The last node of a record is not asked where it ends.
    #[inline(always)]
    fn behind<O: Order>(&self, order: &O, id: NodeId, at: Pos) -> Option<NodeId>
        requires rows { AreRows (O.places order.now) self.now.list.items }
        requires chained { AreChained (lives (O.places order.now) self.now.list.items) }
        requires live { IsLive (lives (O.places order.now) self.now.list.items) id.0 (rank (O.places order.now) at.0) }
        ensures some { IfSome result (λ n. LeadsTo (lives (O.places order.now) self.now.list.items) id.0 (rank (O.places order.now) at.0) n.0) }
        ensures none { IfNone result (IsIn (lives (O.places order.now) self.now.list.items) id.0 (rank (O.places order.now) at.0)) }
    {
        let node = &self.list[id.0 as usize];
        if !node.header.is_followed() || order.before(at, node.row.hi()) {
            return None;
        }
        node.header.later()
    }
}
