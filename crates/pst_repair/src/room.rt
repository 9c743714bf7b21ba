//! Memory first: all that a split grows is grown before the first change.

ghost use Rattle.std.specs.Prelude.{◌≡◌, ◌≢◌, ℕ, ◌+◌, ◌-◌, ◌<◌, ◌≤◌, List, length, IfSome, IfNone, IfOk, OnOk, OnErr, true, false};
ghost use Rattle.pst_rows.specs.declared.row.Row.{Row};
ghost use Rattle.pst_order.specs.Places.{rank};
ghost use Rattle.pst_mirror.specs.Mirror.{IsMirrored, names};
ghost use Rattle.pst_rows.specs.Changes.{IsSplitStamp};
ghost use Rattle.pst_nodes.specs.Arena.{HasRoom, spare_nodes, row_at, AreRows, chart, IsSlot};
ghost use Rattle.pst_nodes.specs.Changes.{AreSameNodes};
ghost use Rattle.pst_repair.specs.Load.{stamped_at};
ghost use Rattle.pst_repair.specs.Steps.{HasRoomFrom, HasRoomNamed, IsParted};

use pst_base::{NoMemory, NodeId, SlotNo};
use pst_nodes::node::Nodes;
use pst_order::{Order, Pos};
use pst_rows::Content;

// The node that a pointer or an entry names.
fn named_node(content: Content) -> Option<NodeId>
    ensures some { IfSome result (λ i. names i.0 content ≡ true) }
    ensures one { IfSome result (λ i. (j : ℕ) → names j content ≡ true → j ≡ i.0) }
    ensures none { IfNone result ((j : ℕ) → names j content ≡ false) }
{
    match content {
        Content::Target(node) => Some(node),
        Content::From(node, _) => Some(node),
        _ => None,
    }
}

// Makes room in the row of the node that a slot of x names at a place, if it is another one.
fn reserve_partner<O: Order>(
    order: &O,
    nodes: &mut Nodes,
    x: NodeId,
    slot: SlotNo,
    at: Pos,
    n: usize,
) -> Result<(), NoMemory>
    requires rows { AreRows (O.places order.now) nodes.old.list.items }
    requires mirrored { IsMirrored (chart (O.places order.now) nodes.old.list.items) }
    requires slot { IsSlot (O.places order.now) nodes.old.list.items x.0 slot.0 (rank (O.places order.now) at.0) }
    ensures same { AreSameNodes nodes.old.list.items nodes.new.list.items }
    ensures room { OnOk result (HasRoomNamed (O.places order.now) nodes.old.list.items nodes.new.list.items x.0 slot.0 (rank (O.places order.now) at.0) n) }
    ensures spare { spare_nodes nodes.new ≡ spare_nodes nodes.old }
{
    match named_node(nodes.read(order, x, slot, at)) {
        Some(node) if node.0 != x.0 => nodes.reserve_row(node, n),
        _ => Ok(()),
    }
}

// Makes room in the rows of the nodes that some slots of x name at a place: for one value a slot.
fn make_room<O: Order>(
    order: &O,
    nodes: &mut Nodes,
    x: NodeId,
    at: Pos,
    first: usize,
    end: usize,
) -> Result<(), NoMemory>
    requires rows { AreRows (O.places order.now) nodes.old.list.items }
    requires mirrored { IsMirrored (chart (O.places order.now) nodes.old.list.items) }
    requires few { first ≤ end }
    requires slots { (s : ℕ) → s < end → IsSlot (O.places order.now) nodes.old.list.items x.0 s (rank (O.places order.now) at.0) }
    ensures same { AreSameNodes nodes.old.list.items nodes.new.list.items }
    ensures room { OnOk result (HasRoomFrom (O.places order.now) nodes.new.list.items x.0 (rank (O.places order.now) at.0) first end (end - first)) }
    ensures spare { spare_nodes nodes.new ≡ spare_nodes nodes.old }
{
    for index in first..end {
        let slot = SlotNo(index as u16);
        reserve_partner(order, nodes, x, slot, at, end - first)?;
    }
    Ok(())
}

/// Cuts node x in two at a place, after room was made for what is cut elsewhere. A refusal leaves all but room as it was.
///
/// # Errors
/// Where there was no memory.
pub fn part<O: Order>(
    order: &O,
    nodes: &mut Nodes,
    x: NodeId,
    at: Pos,
    first: usize,
    end: usize,
) -> Result<NodeId, NoMemory>
    requires rows { AreRows (O.places order.now) nodes.old.list.items }
    requires mirrored { IsMirrored (chart (O.places order.now) nodes.old.list.items) }
    requires few { first ≤ end }
    requires there { x.0 < length nodes.old.list.items }
    requires slots { (s : ℕ) → s < end → IsSlot (O.places order.now) nodes.old.list.items x.0 s (rank (O.places order.now) at.0) }
    requires inside { (d : Row) → IsSplitStamp (rank (O.places order.now)) (row_at nodes.old.list.items x.0 d) (rank (O.places order.now) at.0) }
    ensures parted { IfOk result (λ z. IsParted (O.places order.now) nodes.old.list.items nodes.new.list.items x.0 z.0 at.0 first end (end - first)) }
    ensures rows { OnOk result (AreRows (O.places order.now) nodes.new.list.items) }
    ensures err { OnErr result (AreSameNodes nodes.old.list.items nodes.new.list.items) }
{
    nodes.reserve(1)?;
    make_room(order, nodes, x, at, first, end)?;
    nodes.split_off(order, x, at)
}

/// Where to split a node.
pub fn split_place<O: Order>(order: &O, nodes: &Nodes, id: NodeId) -> Pos
    requires rows { AreRows (O.places order.now) nodes.now.list.items }
    requires there { id.0 < length nodes.now.list.items }
    requires some { 0 < stamped_at nodes.now.list.items id.0 }
    ensures { (d : Row) → IsSplitStamp (rank (O.places order.now)) (row_at nodes.now.list.items id.0 d) (rank (O.places order.now) result.0) }
{
    match nodes.row(id).split_stamp(order) {
        Some(at) => at,
        None => unreachable!(),
    }
}
