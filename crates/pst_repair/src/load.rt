//! Capacity, and the queue of nodes over it.

ghost use Rattle.std.specs.Prelude.{◌≡◌, ◌≢◌, ℕ, ◌+◌, ◌<◌, ◌≤◌, ◌↔◌, IsTrue, List, length, IfSome};
ghost use Rattle.pst_rows.specs.declared.row.Row.{Row};
ghost use Rattle.pst_nodes.specs.Queue.{HoldsList};
ghost use Rattle.pst_nodes.specs.Arena.{frame_at, rows_of, frames_of, link_at, IsTyped};
ghost use Rattle.pst_repair.specs.Load.{half_in, first_in, IsOver};
ghost use Rattle.pst_repair.specs.Steps.{Queues, KeepsQueue, HasQueuedOnly};

use pst_base::{NodeId, Shape, SlotNo, TypeNo};
use pst_nodes::node::Nodes;
use pst_nodes::queue::Queue;
use pst_nodes::slots::type_at;

/// Half of a type's capacity: its pointer slots and its inverse slots.
pub fn half(shape: &Shape, ty: TypeNo) -> usize
    requires { ty.0 < length shape.now }
    ensures { result ≡ half_in shape.now ty.0 }
{
    let ty = type_at(shape, ty);
    ty.targets.as_slice().len() + usize::from(ty.limit)
}

/// The first slot of a type that can hold a pointer or an entry.
pub fn first_link(shape: &Shape, ty: TypeNo) -> usize
    requires { ty.0 < length shape.now }
    ensures { result ≡ first_in shape.now ty.0 }
{
    usize::from(type_at(shape, ty).values)
}

/// Whether a node has more stamped values than its capacity.
pub fn is_over(shape: &Shape, nodes: &Nodes, id: NodeId) -> bool
    requires there { id.0 < length nodes.now.list.items }
    requires typed { IsTyped shape.now nodes.now.list.items id.0 }
    ensures { IsTrue result ↔ IsOver shape.now nodes.now.list.items id.0 }
{
    let half = half(shape, nodes.ty(id));
    let stamped = nodes.row(id).stamped();
    stamped > half && stamped - half > half
}

/// Puts a node into the queue if it is over its capacity and does not wait.
pub fn queue_if_over(shape: &Shape, nodes: &mut Nodes, queue: &mut Queue, id: NodeId)
    requires there { id.0 < length nodes.old.list.items }
    requires typed { IsTyped shape.now nodes.old.list.items id.0 }
    requires held { (xs : List ℕ) × Queues nodes.old.list.items queue.old xs }
    ensures rows { rows_of nodes.new.list.items ≡ rows_of nodes.old.list.items }
    ensures frames { frames_of nodes.new.list.items ≡ frames_of nodes.old.list.items }
    ensures queue { KeepsQueue (λ i. i ≡ id.0) shape.now nodes.old.list.items nodes.new.list.items queue.old queue.new }
    ensures named { HasQueuedOnly (λ i. i ≡ id.0) nodes.old.list.items nodes.new.list.items queue.old queue.new }
{
    if is_over(shape, nodes, id) && !queue.waits(nodes, id) {
        queue.push(nodes, id);
    }
}
