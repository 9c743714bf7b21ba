//! What a fork takes: room for it, where its root is looked for, and a place in the order.

ghost use Rattle.std.specs.Prelude.{◌≡◌, ◌+◌, ◌^◌, ◌<◌, ◌≤◌, IfOk, OnOk, OnErr, length, vec_len, vec_capacity};
ghost use Rattle.pst_order.specs.Places.{IsIn};
ghost use Rattle.pst_store.specs.Calls.{IsPlaceIn, IsOneInAtMost};

use crate::fork_list::ForkList;
use pst_base::{NoMemory, NodeId};
use pst_order::{Order, Pos};
use pst_store_meaning::place::Place;
use std::alloc::Global;

/// A node from which a root is looked for. It takes 4 bytes, since there is one for each fork. Where a number does not fit, it is
/// that of the root record's first node, from which each other one is found.
#[derive(Clone, Copy)]
pub struct Near(u32);

impl Near {
    /// The root record's first node.
    pub const FIRST: Near = Near(0);

    /// A node, or the root record's first one.
    #[inline(always)]
    pub fn of(node: NodeId) -> Near {
        match u32::try_from(node.0) {
            Ok(number) => Near(number),
            Err(_) => Near::FIRST,
        }
    }

    /// The node from which to look.
    #[inline(always)]
    pub fn node(self) -> NodeId {
        NodeId(u64::from(self.0))
    }
}

/// Room for one fork more. After `NoMemory` there may be room for a part of it.
///
/// # Errors
/// Where there was no memory.
#[inline(always)]
pub fn reserve_one(forks: &mut ForkList, roots: &mut Vec<Near>) -> Result<(), NoMemory>
    ensures forks { forks.new.forks ≡ forks.old.forks }
    ensures forks_room { OnOk result (1 ≤ forks.new.room) }
    ensures roots_room { OnOk result (vec_len roots.new < vec_capacity roots.new) }
{
    forks.reserve_one()?;
    roots.reserve(1)?;
    Ok(())
}

/// Notes the root's node at a place, to look for it from there the next time. A node that is cut keeps what is before, so that the one at
/// the place stands there, or is one of those that come next.
#[inline(always)]
pub fn note_root(roots: &mut Vec<Near>, at: Place, root: NodeId) {
    if let Some(near) = roots.get_mut(at.number as usize) {
        *near = Near::of(root);
    }
}

/// For each of so many forks the first node of the root record: where a root is looked for as long as nothing nearer is known.
///
/// # Errors
/// Where there was no memory.
pub fn first_roots(alloc: Global, count: usize) -> Result<Vec<Near>, NoMemory>
    ensures { IfOk result (λ roots. vec_len roots ≡ count) }
{
    let mut roots = Vec::new(alloc);
    roots.resize(count, Near::FIRST)?;
    Ok(roots)
}

/// A place between two new entries of the order, both directly behind another one: its end comes in first. After a refusal one
/// of them may have come in.
///
/// # Errors
/// Where there was no memory.
#[inline(always)]
pub fn insert_place<O: Order>(order: &mut O, behind: Pos, number: u32) -> Result<Place, NoMemory>
    requires in_list { IsIn (O.places order.old) behind.0 }
    requires few { length (O.places order.old) + 1 < 2 ^ 30 }
    ensures ok { IfOk result (IsPlaceIn (O.places order.old) (O.places order.new) behind.0 number) }
    ensures err { OnErr result (IsOneInAtMost (O.places order.old) (O.places order.new) behind.0) }
{
    let end = order.insert_after(behind)?;
    let begin = order.insert_after(behind)?;
    Ok(Place { number, begin, end })
}
