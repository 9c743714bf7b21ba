//! The cascade.

ghost use Rattle.std.specs.Prelude.{◌≡◌, ℕ, ◌+◌, ◌≤◌, List, [], length, false, IfOk, OnOk, OnErr};
ghost use Rattle.pst_repair.specs.Load.{IsSound, IsOver, potential_of};
ghost use Rattle.pst_repair.specs.Steps.{Queues};
ghost use Rattle.pst_repair.specs.Shown.{ShowsAll, KeepsLive};
ghost use Rattle.pst_store_meaning.specs.Steps.{AreSplits};
ghost use Rattle.pst_repair.specs.Seen.{seen_in};
ghost use Rattle.pst_repair.specs.Repair.{IsQueued, IsDone, splits_in};

use crate::split::split;
use pst_base::{NoMemory, Shape};
use pst_nodes::node::Nodes;
use pst_nodes::queue::Queue;
use pst_order::Order;

// Splits the node that waits first, and gives whether one waited: then there is one node more, and the potential is lower
// by at least 1. Where none waits nothing changes. No heap changes. After `NoMemory` no node was split, one that is over
// its capacity waits, and all that the call needs still holds.
#[inline(always)]
fn split_next<O: Order>(
    order: &O,
    shape: &Shape,
    nodes: &mut Nodes,
    queue: &mut Queue,
) -> Result<bool, NoMemory>
    requires sound { IsSound shape.now (O.places order.now) nodes.old.list.items }
    requires queued { (xs : List ℕ) × IsQueued shape.now nodes.old.list.items queue.old xs }
    ensures sound { IsSound shape.now (O.places order.now) nodes.new.list.items }
    ensures queued { (xs : List ℕ) × IsQueued shape.now nodes.new.list.items queue.new xs }
    ensures steps { IfOk result (λ more. AreSplits shape.now (O.places order.now) (splits_in more) (seen_in nodes.old) (seen_in nodes.new)) }
    ensures shows { ShowsAll (O.places order.now) nodes.old.list.items nodes.new.list.items }
    ensures live { KeepsLive (O.places order.now) nodes.old.list.items nodes.new.list.items }
    ensures done { IfOk result (λ more. more ≡ false → IsDone shape.now nodes.old nodes.new queue.old queue.new) }
    ensures refused { OnErr result (seen_in nodes.new ≡ seen_in nodes.old) }
    ensures waiting { OnErr result ((i : ℕ) × IsOver shape.now nodes.new.list.items i) }
    ensures splits { IfOk result (λ more. potential_of shape.now nodes.new.list.items + splits_in more ≤ potential_of shape.now nodes.old.list.items) }
    ensures count { IfOk result (λ more. length nodes.new.list.items ≡ length nodes.old.list.items + splits_in more) }
{
    let Some(ends) = queue.ends else {
        return Ok(false);
    };
    let _first = queue.pop(nodes);
    match split(order, shape, nodes, queue, ends.first) {
        Ok(_) => Ok(true),
        Err(refused) => {
            queue.push(nodes, ends.first);
            Err(refused)
        }
    }
}

/// Splits until the queue is empty, and gives the number of splits, which is at most the potential that the nodes had:
/// each split lowers it by at least 1 and adds one node. No heap changes. After `NoMemory` a node that is over its
/// capacity waits again, what was split stays so, and all that the call needs still holds.
///
/// # Errors
/// Where there was no memory.
#[inline(always)]
pub fn repair<O: Order>(
    order: &O,
    shape: &Shape,
    nodes: &mut Nodes,
    queue: &mut Queue,
) -> Result<u64, NoMemory>
    requires sound { IsSound shape.now (O.places order.now) nodes.old.list.items }
    requires queued { (xs : List ℕ) × IsQueued shape.now nodes.old.list.items queue.old xs }
    ensures sound { IsSound shape.now (O.places order.now) nodes.new.list.items }
    ensures queued { (xs : List ℕ) × IsQueued shape.now nodes.new.list.items queue.new xs }
    ensures steps { (k : ℕ) × AreSplits shape.now (O.places order.now) k (seen_in nodes.old) (seen_in nodes.new) }
    ensures counted { IfOk result (λ n. AreSplits shape.now (O.places order.now) n (seen_in nodes.old) (seen_in nodes.new)) }
    ensures shows { ShowsAll (O.places order.now) nodes.old.list.items nodes.new.list.items }
    ensures live { KeepsLive (O.places order.now) nodes.old.list.items nodes.new.list.items }
    ensures empty { OnOk result (Queues nodes.new.list.items queue.new []) }
    ensures within { OnOk result ((i : ℕ) → IsOver shape.now nodes.new.list.items i → ⊥) }
    ensures waiting { OnErr result ((i : ℕ) × IsOver shape.now nodes.new.list.items i) }
    ensures splits { IfOk result (λ n. potential_of shape.now nodes.new.list.items + n ≤ potential_of shape.now nodes.old.list.items) }
    ensures count { IfOk result (λ n. length nodes.new.list.items ≡ length nodes.old.list.items + n) }
{
    let mut splits = 0;
    while split_next(order, shape, nodes, queue)? {
        splits += 1;
    }
    Ok(splits)
}
