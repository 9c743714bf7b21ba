//! The nodes of an arena as a list, and an arena of a list of nodes.

ghost use Rattle.std.specs.Prelude.{◌≡◌, ◌<◌, ℕ, [], length, IfOk};
ghost use Rattle.pst_base.specs.Name.{root_name};
ghost use Rattle.pst_nodes.specs.declared.links.Link.TheVariants.{Out};
ghost use Rattle.pst_nodes.specs.Arena.{link_at};
ghost use Rattle.pst_store_meaning.specs.Store.{AreHeld, AreAllHeld};
ghost use Rattle.pst_repair.specs.Seen.{seen_in};
ghost use Rattle.pst_store_arena.specs.Calls.{AreNodes, AreWaiting, IsOverFull, arena_at};

use crate::fat_nodes::FatNodes;
use pst_base::{NoMemory, Shape};
use pst_nodes::node::Nodes;
use pst_order::Order;
use std::alloc::Global;

/// Fat nodes that can be listed, as for an image of a store, and be made of a list, as where a store is taken up from one.
pub trait Listed: FatNodes {
    /// The nodes by their numbers, with their rows.
    fn list(&self) -> &Nodes
        ensures { seen_in result.now ≡ Self.nodes self.now };

    /// The arena of a list of nodes that keep the rules of an arena: node 0 is the root record's first one, none waits, and
    /// none is above its capacity. All nodes of the root record are held. `NoMemory` where there is no memory for their index.
    fn of_list<O: Order>(
        alloc: Global,
        order: &O,
        shape: &Shape,
        list: Nodes,
    ) -> Result<Self, NoMemory>
    where
        Self: Sized,
        requires nodes { AreNodes shape.now (O.places order.now) (seen_in list) }
        requires some { 0 < length list.list.items }
        requires root { (arena_at (O.places order.now) (seen_in list)).name 0 ≡ root_name }
        requires first { (arena_at (O.places order.now) (seen_in list)).lo 0 ≡ 0 }
        requires out { (i : ℕ) → link_at list.list.items i ≡ Out }
        requires small { (i : ℕ) → IsOverFull shape.now (seen_in list) i → ⊥ }
        ensures nodes { IfOk result (λ arena. Self.nodes arena ≡ seen_in list) }
        ensures rested { IfOk result (λ arena. (Self.noted arena).queue ≡ []) }
        ensures waiting { IfOk result (λ arena. AreWaiting shape.now (Self.nodes arena) (Self.noted arena).queue) }
        ensures held { IfOk result (λ arena. AreHeld (arena_at (O.places order.now) (Self.nodes arena)) (Self.noted arena)) }
        ensures all { IfOk result (λ arena. AreAllHeld (arena_at (O.places order.now) (Self.nodes arena)) (Self.noted arena)) };
}
