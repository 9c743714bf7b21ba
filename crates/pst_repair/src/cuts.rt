//! Cutting the partners of a split node.

ghost use Rattle.std.specs.Prelude.{◌≡◌, ◌≢◌, ℕ, ◌+◌, ◌-◌, ◌<◌, ◌≤◌, List, length, IfSome, IfNone, true};
ghost use Rattle.pst_rows.specs.declared.row.Row.{Row};
ghost use Rattle.pst_order.specs.Places.{rank};
ghost use Rattle.pst_mirror.specs.Mirror.{Chart, names};
ghost use Rattle.pst_nodes.specs.Arena.{HasRoom, row_at, AreRows, chart, IsSlot, IsTyped};
ghost use Rattle.pst_nodes.specs.Changes.{IsSegmentBegun};
ghost use Rattle.pst_repair.specs.Steps.{AreParted, IsOuter, IsOuterOf, HasCutPartner, HasCutPartners, AreGrown, Queues, KeepsQueue, HasQueuedOnly, HasQueuedPartner, HasQueuedPartners, HasRoomRound};

use crate::load::queue_if_over;
use pst_base::{NodeId, Shape, SlotNo, TypeNo};
use pst_nodes::node::Nodes;
use pst_nodes::queue::Queue;
use pst_order::{Order, Pos};
use pst_rows::Content;

/// A slot of a node.
#[derive(Clone, Copy)]
pub struct Place {
    pub node: NodeId,
    pub slot: SlotNo,
}

// The partner, in another node than x, of a slot of z at a place.
fn outer_partner<O: Order>(
    order: &O,
    nodes: &Nodes,
    x: NodeId,
    z: NodeId,
    slot: SlotNo,
    at: Pos,
) -> Option<Place>
    requires rows { AreRows (O.places order.now) nodes.now.list.items }
    requires slot { IsSlot (O.places order.now) nodes.now.list.items z.0 slot.0 (rank (O.places order.now) at.0) }
    requires parted { (w : Chart) × AreParted w (chart (O.places order.now) nodes.now.list.items) x.0 z.0 (rank (O.places order.now) at.0) }
    ensures some { IfSome result (λ p. IsOuterOf (O.places order.now) nodes.now.list.items x.0 z.0 slot.0 p.node.0 p.slot.0 (rank (O.places order.now) at.0)) }
    ensures none { IfNone result ((i g : ℕ) → IsOuter (chart (O.places order.now) nodes.now.list.items) x.0 z.0 slot.0 i g (rank (O.places order.now) at.0) → ⊥) }
{
    match nodes.read(order, z, slot, at) {
        Content::Target(y) if y.0 != x.0 => Some(Place {
            node: y,
            slot: nodes.entry_slot(order, y, at, x, x, slot),
        }),
        Content::From(y, field) if y.0 != x.0 => Some(Place {
            node: y,
            slot: field,
        }),
        _ => None,
    }
}

// Begins a segment of a slot at a place, where none begins, and queues a node that is over its capacity then.
fn cut_slot<O: Order>(
    order: &O,
    shape: &Shape,
    nodes: &mut Nodes,
    queue: &mut Queue,
    place: Place,
    at: Pos,
)
    requires rows { AreRows (O.places order.now) nodes.old.list.items }
    requires slot { IsSlot (O.places order.now) nodes.old.list.items place.node.0 place.slot.0 (rank (O.places order.now) at.0) }
    requires typed { IsTyped shape.now nodes.old.list.items place.node.0 }
    requires room { (d : Row) → HasRoom (row_at nodes.old.list.items place.node.0 d) 1 }
    requires held { (xs : List ℕ) × Queues nodes.old.list.items queue.old xs }
    ensures cut { IsSegmentBegun (O.places order.now) nodes.old.list.items nodes.new.list.items place.node.0 place.slot.0 (rank (O.places order.now) at.0) }
    ensures rows { AreRows (O.places order.now) nodes.new.list.items }
    ensures grown { AreGrown 1 shape.now nodes.old.list.items nodes.new.list.items }
    ensures queue { KeepsQueue (λ _. ⊥) shape.now nodes.old.list.items nodes.new.list.items queue.old queue.new }
    ensures named { HasQueuedOnly (λ i. i ≡ place.node.0) nodes.old.list.items nodes.new.list.items queue.old queue.new }
{
    if nodes.begin_segment(order, place.node, place.slot, at) {
        queue_if_over(shape, nodes, queue, place.node);
    }
}

// Cuts the partner of one slot of z at a place.
fn cut_partner<O: Order>(
    order: &O,
    shape: &Shape,
    nodes: &mut Nodes,
    queue: &mut Queue,
    x: NodeId,
    z: NodeId,
    slot: SlotNo,
    at: Pos,
)
    requires rows { AreRows (O.places order.now) nodes.old.list.items }
    requires slot { IsSlot (O.places order.now) nodes.old.list.items z.0 slot.0 (rank (O.places order.now) at.0) }
    requires parted { (w : Chart) × AreParted w (chart (O.places order.now) nodes.old.list.items) x.0 z.0 (rank (O.places order.now) at.0) }
    requires typed { (i : ℕ) → i < length nodes.old.list.items → IsTyped shape.now nodes.old.list.items i }
    requires room { HasRoomRound (O.places order.now) nodes.old.list.items z.0 x.0 (rank (O.places order.now) at.0) 1 }
    requires held { (xs : List ℕ) × Queues nodes.old.list.items queue.old xs }
    ensures cut { HasCutPartner (O.places order.now) nodes.old.list.items nodes.new.list.items x.0 z.0 slot.0 (rank (O.places order.now) at.0) }
    ensures rows { AreRows (O.places order.now) nodes.new.list.items }
    ensures grown { AreGrown 1 shape.now nodes.old.list.items nodes.new.list.items }
    ensures queue { KeepsQueue (λ _. ⊥) shape.now nodes.old.list.items nodes.new.list.items queue.old queue.new }
    ensures named { HasQueuedPartner (O.places order.now) nodes.old nodes.new queue.old queue.new z.0 slot.0 (rank (O.places order.now) at.0) }
{
    if let Some(place) = outer_partner(order, nodes, x, z, slot, at) {
        cut_slot(order, shape, nodes, queue, place, at);
    }
}

/// Cuts the partners of z's slots, from a first one up to an end, at a place.
pub fn cut_partners<O: Order>(
    order: &O,
    shape: &Shape,
    nodes: &mut Nodes,
    queue: &mut Queue,
    x: NodeId,
    z: NodeId,
    at: Pos,
    first: usize,
    end: usize,
)
    requires rows { AreRows (O.places order.now) nodes.old.list.items }
    requires few { first ≤ end }
    requires slots { (s : ℕ) → s < end → IsSlot (O.places order.now) nodes.old.list.items z.0 s (rank (O.places order.now) at.0) }
    requires parted { (w : Chart) × AreParted w (chart (O.places order.now) nodes.old.list.items) x.0 z.0 (rank (O.places order.now) at.0) }
    requires typed { (i : ℕ) → i < length nodes.old.list.items → IsTyped shape.now nodes.old.list.items i }
    requires room { HasRoomRound (O.places order.now) nodes.old.list.items z.0 x.0 (rank (O.places order.now) at.0) (end - first) }
    requires held { (xs : List ℕ) × Queues nodes.old.list.items queue.old xs }
    ensures cut { HasCutPartners (O.places order.now) nodes.old.list.items nodes.new.list.items x.0 z.0 (rank (O.places order.now) at.0) first end }
    ensures rows { AreRows (O.places order.now) nodes.new.list.items }
    ensures grown { AreGrown (end - first) shape.now nodes.old.list.items nodes.new.list.items }
    ensures queue { KeepsQueue (λ _. ⊥) shape.now nodes.old.list.items nodes.new.list.items queue.old queue.new }
    ensures named { HasQueuedPartners (O.places order.now) nodes.old nodes.new queue.old queue.new z.0 (rank (O.places order.now) at.0) }
{
    for index in first..end {
        let slot = SlotNo(index as u16);
        cut_partner(order, shape, nodes, queue, x, z, slot, at);
    }
}
