//! The cascade of splits, and the root record's nodes that it makes.

ghost use Rattle.std.specs.Prelude.{◌≡◌, ◌<◌, suc, ℕ, List, [], length, OnOk, OnErr, IfOk, IsTrue, ◌↔◌, if◌then◌else◌};
ghost use Rattle.pst_order.specs.Places.{rank};
ghost use Rattle.pst_mirror.specs.Lives.{AreChained};
ghost use Rattle.pst_nodes.specs.Arena.{AreRows, lives};
ghost use Rattle.pst_repair.specs.Load.{IsSound};
ghost use Rattle.pst_repair.specs.Repair.{IsQueued};
ghost use Rattle.pst_repair.specs.Seen.{seen_in};
ghost use Rattle.pst_store_meaning.specs.Store.{AreHeld, AreAllHeld};
ghost use Rattle.pst_store_arena.specs.Calls.{arena_at, IsRepaired};
ghost use Rattle.pst_store_arena.specs.Kept.{waiting_of, noted_of};

use pst_base::{NoMemory, NodeId, ROOT, Shape};
use pst_nodes::node::Nodes;
use pst_nodes::queue::Queue;
use pst_order::Order;
use pst_repair::repair::repair;
use pst_roots::RootIndex;

/// Splits what waits, and then lets the root index hold the root record's nodes that are new. After `NoMemory` some splits
/// are made, the rest waits, and what is not held yet is held by the next call.
///
/// # Errors
/// Where there was no memory.
#[inline(always)]
pub fn repair_and_hold<O: Order>(
    order: &O,
    shape: &Shape,
    nodes: &mut Nodes,
    queue: &mut Queue,
    roots: &mut RootIndex,
    looked_at: &mut u64,
) -> Result<(), NoMemory>
    requires sound { IsSound shape.now (O.places order.now) nodes.old.list.items }
    requires queued { (xs : List ℕ) × IsQueued shape.now nodes.old.list.items queue.old xs }
    requires held { AreHeld (arena_at (O.places order.now) (seen_in nodes.old)) (noted_of nodes.old.list.items roots.old looked_at.old) }
    requires first { (arena_at (O.places order.now) (seen_in nodes.old)).lo 0 ≡ 0 }
    ensures repaired { IsRepaired shape.now (O.places order.now) (seen_in nodes.old) (seen_in nodes.new) }
    ensures queued { (xs : List ℕ) × IsQueued shape.now nodes.new.list.items queue.new xs }
    ensures held { AreHeld (arena_at (O.places order.now) (seen_in nodes.new)) (noted_of nodes.new.list.items roots.new looked_at.new) }
    ensures rested { OnOk result (waiting_of nodes.new.list.items ≡ []) }
    ensures all { OnOk result (AreAllHeld (arena_at (O.places order.now) (seen_in nodes.new)) (noted_of nodes.new.list.items roots.new looked_at.new)) }
{
    let first = first_of(queue);
    repair(order, shape, nodes, queue)?;
    hold_new(order, nodes, first, roots, looked_at)
}

// The node that waits first. What is cut off from it begins directly behind it.
fn first_of(queue: &Queue) -> NodeId {
    match queue.ends {
        Some(ends) => ends.first,
        None => NodeId(0),
    }
}

/// Lets the root index hold the root record's nodes among those that were not looked at yet. They may have been cut off from the
/// node `near`: behind it their place is looked for first. After a refusal the nodes before the one that could not be held are
/// looked at.
///
/// # Errors
/// Where there was no memory.
#[inline(always)]
pub fn hold_new<O: Order>(
    order: &O,
    nodes: &Nodes,
    near: NodeId,
    roots: &mut RootIndex,
    looked_at: &mut u64,
) -> Result<(), NoMemory>
    requires rows { AreRows (O.places order.now) nodes.now.list.items }
    requires chained { AreChained (lives (O.places order.now) nodes.now.list.items) }
    requires first { (arena_at (O.places order.now) (seen_in nodes.now)).lo 0 ≡ 0 }
    requires held { AreHeld (arena_at (O.places order.now) (seen_in nodes.now)) (noted_of nodes.now.list.items roots.old looked_at.old) }
    ensures held { AreHeld (arena_at (O.places order.now) (seen_in nodes.now)) (noted_of nodes.now.list.items roots.new looked_at.new) }
    ensures all { OnOk result (looked_at.new ≡ length nodes.now.list.items) }
{
    for index in *looked_at..nodes.count() {
        hold(order, nodes, near, roots, NodeId(index))?;
        *looked_at = index + 1;
    }
    Ok(())
}

// Lets the root index hold a node where it is one of the root record. A refusal changes nothing but room.
#[inline(never)]
fn hold<O: Order>(
    order: &O,
    nodes: &Nodes,
    near: NodeId,
    roots: &mut RootIndex,
    id: NodeId,
) -> Result<(), NoMemory>
    requires rows { AreRows (O.places order.now) nodes.now.list.items }
    requires chained { AreChained (lives (O.places order.now) nodes.now.list.items) }
    requires first { (arena_at (O.places order.now) (seen_in nodes.now)).lo 0 ≡ 0 }
    requires there { id.0 < length nodes.now.list.items }
    requires held { AreHeld (arena_at (O.places order.now) (seen_in nodes.now)) (noted_of nodes.now.list.items roots.old id.0) }
    ensures held { OnOk result (AreHeld (arena_at (O.places order.now) (seen_in nodes.now)) (noted_of nodes.now.list.items roots.new (suc id.0))) }
    ensures err { OnErr result (AreHeld (arena_at (O.places order.now) (seen_in nodes.now)) (noted_of nodes.now.list.items roots.new id.0)) }
{
    if nodes.name(id) == ROOT {
        roots.reserve(1)?;
        roots.add(order, nodes, near, id);
    }
    Ok(())
}
