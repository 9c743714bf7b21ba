//! A whole split.

ghost use Rattle.std.specs.Prelude.{◌≡◌, ℕ, ◌+◌, ◌<◌, ◌≤◌, ◌⊎◌, List, length, IfOk, OnOk, OnErr};
ghost use Rattle.pst_nodes.specs.Changes.{AreSameNodes};
ghost use Rattle.pst_repair.specs.Load.{IsSound, IsOver};
ghost use Rattle.pst_repair.specs.Steps.{Queues, KeepsQueue};
ghost use Rattle.pst_repair.specs.Split.{IsSplit, HasQueuedRound};
ghost use Rattle.pst_repair.specs.Shown.{ShowsAll, KeepsLive};

use crate::cuts::cut_partners;
use crate::load::{first_link, half, queue_if_over};
use crate::renames::rename_partners;
use crate::room::{part, split_place};
use pst_base::{NoMemory, NodeId, Shape, SlotNo, TypeNo};
use pst_nodes::node::Nodes;
use pst_nodes::queue::Queue;
use pst_order::{Order, Pos};

/// Splits a node that has more stamped values than its capacity, and queues each half and each partner that is over
/// its capacity then. Gives the right half. A refusal changes nothing but room.
///
/// # Errors
/// Where there was no memory.
#[inline(never)]
pub fn split<O: Order>(
    order: &O,
    shape: &Shape,
    nodes: &mut Nodes,
    queue: &mut Queue,
    id: NodeId,
) -> Result<NodeId, NoMemory>
    requires sound { IsSound shape.now (O.places order.now) nodes.old.list.items }
    requires there { id.0 < length nodes.old.list.items }
    requires over { IsOver shape.now nodes.old.list.items id.0 }
    requires held { (xs : List ℕ) × Queues nodes.old.list.items queue.old xs }
    ensures split { IfOk result (λ z. (n : ℕ) × IsSplit shape.now (O.places order.now) nodes.old.list.items nodes.new.list.items id.0 z.0 n) }
    ensures sound { OnOk result (IsSound shape.now (O.places order.now) nodes.new.list.items) }
    ensures shows { ShowsAll (O.places order.now) nodes.old.list.items nodes.new.list.items }
    ensures live { KeepsLive (O.places order.now) nodes.old.list.items nodes.new.list.items }
    ensures queue { IfOk result (λ z. KeepsQueue (λ i. (i ≡ id.0) ⊎ (i ≡ z.0)) shape.now nodes.old.list.items nodes.new.list.items queue.old queue.new) }
    ensures named { IfOk result (λ z. HasQueuedRound (O.places order.now) nodes.old nodes.new queue.old queue.new id.0 z.0) }
    ensures err_nodes { OnErr result (AreSameNodes nodes.old.list.items nodes.new.list.items) }
    ensures err_queue { OnErr result (queue.new ≡ queue.old) }
{
    let ty = nodes.ty(id);
    let first = first_link(shape, ty);
    let end = first + half(shape, ty);
    let at = split_place(order, nodes, id);
    let right = part(order, nodes, id, at, first, end)?;
    cut_partners(order, shape, nodes, queue, id, right, at, first, end);
    rename_partners(order, nodes, id, right, first, end);
    queue_if_over(shape, nodes, queue, id);
    queue_if_over(shape, nodes, queue, right);
    Ok(right)
}
