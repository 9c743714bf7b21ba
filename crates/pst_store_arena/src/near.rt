//! A record's node at a place, looked for near a node.

ghost use Rattle.std.specs.Prelude.{◌≡◌, ◌<◌, length, IsTrue, IfSome};
ghost use Rattle.pst_order.specs.Places.{rank, IsIn};
ghost use Rattle.pst_mirror.specs.Lives.{AreChained, IsLive, IsIn as IsInLives};
ghost use Rattle.pst_nodes.specs.Arena.{AreRows, lives, frame_at};
ghost use Rattle.pst_store_arena.specs.Kept.{IsRootAt, IsRootBy};

use pst_base::{NodeId, ROOT};
use pst_nodes::node::Nodes;
use pst_order::{Order, Pos};

/// How many nodes of a record are looked at, one behind the other, before the root index is asked.
const NEAR: u32 = 8;

/// The node of a record that lives at a place. The last node of a record lives up to the record's end, so it is not asked
/// where it ends.
#[inline(always)]
pub fn cover<O: Order>(order: &O, nodes: &Nodes, id: NodeId, at: Pos) -> NodeId
    requires rows { AreRows (O.places order.now) nodes.now.list.items }
    requires chained { AreChained (lives (O.places order.now) nodes.now.list.items) }
    requires live { IsLive (lives (O.places order.now) nodes.now.list.items) id.0 (rank (O.places order.now) at.0) }
    ensures covers { IsInLives (lives (O.places order.now) nodes.now.list.items) result.0 (rank (O.places order.now) at.0) }
    ensures name { (frame_at nodes.now.list.items result.0).name ≡ (frame_at nodes.now.list.items id.0).name }
{
    if nodes.is_followed(id) {
        nodes.cover(order, id, at)
    } else {
        id
    }
}

/// The node of the root record that lives at a place, if it is this node or one of the next few of its record. A node
/// that is cut keeps what is before, so the node at a place stays near where it once was, and never stands before it. A node
/// begins where the one before it ends, so only the first is asked where it begins.
#[inline(always)]
pub fn root_beside<O: Order>(order: &O, nodes: &Nodes, near: NodeId, at: Pos) -> Option<NodeId>
    requires rows { AreRows (O.places order.now) nodes.now.list.items }
    requires chained { AreChained (lives (O.places order.now) nodes.now.list.items) }
    requires place { IsIn (O.places order.now) at.0 }
    ensures { IfSome result (λ id. IsRootAt (O.places order.now) nodes.now.list.items id.0 (rank (O.places order.now) at.0)) }
{
    if near.0 >= nodes.count() || !is_root_by(order, nodes, near, at) {
        return None;
    }
    let mut node = near;
    for _ in 0..NEAR {
        let row = nodes.row(node);
        if order.before(at, row.hi()) {
            return Some(node);
        }
        match nodes.later(node) {
            Some(next) => node = next,
            None => return None,
        }
    }
    None
}

// Whether a node is one of the root record that does not begin after a place.
#[inline(always)]
fn is_root_by<O: Order>(order: &O, nodes: &Nodes, id: NodeId, at: Pos) -> bool
    requires rows { AreRows (O.places order.now) nodes.now.list.items }
    requires place { IsIn (O.places order.now) at.0 }
    requires there { id.0 < length nodes.now.list.items }
    ensures { IsTrue result → IsRootBy (O.places order.now) nodes.now.list.items id.0 (rank (O.places order.now) at.0) }
{
    if nodes.name(id) == ROOT {
        let row = nodes.row(id);
        return !order.before(at, row.lo());
    }
    false
}
