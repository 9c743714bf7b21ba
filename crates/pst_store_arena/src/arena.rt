//! The arena: the nodes, the queue of those over their capacity, and the root index, in one value.

use crate::adding::new_node;
use crate::fat_nodes::FatNodes;
use crate::listed::Listed;
use crate::near::{cover, root_beside};
use crate::potential::potential_of;
use crate::repairing::{hold_new, repair_and_hold};
use crate::writes;
use pst_base::{Name, NoMemory, NodeId, ROOT, Shape, SlotNo, TypeNo};
use pst_nodes::node::Nodes;
use pst_nodes::queue::Queue;
use pst_order::{Order, Pos};
use pst_roots::RootIndex;
use pst_rows::Stamp;
use pst_store_meaning::place::Place;
use std::alloc::Global;
use std::marker::Model;

/// Fat nodes in a vector. The links of the queue stand in the nodes themselves.
#[derive(Drop)]
pub struct Arena {
    nodes: Nodes,
    queue: Queue,
    roots: RootIndex,
    looked_at: u64,
}

impl Model for Arena {
    ghost use Rattle.pst_store_arena.specs.Kept.{Kept, kept_of, AreLinked};
    ghost use Rattle.pst_store_arena.specs.Codes.{coded_kept};

    ghost Value = { Kept };

    ghost coded = { coded_kept };

    ghost view = { λ a. kept_of a.nodes.list.items a.roots a.looked_at };

    ghost invariant = { λ a. AreLinked a.nodes.list.items a.queue };
}

impl FatNodes for Arena {
    ghost nodes = { λ a. a.nodes };

    ghost noted = { λ a. a.noted };

    fn started(alloc: Global, shape: &Shape, at: Place) -> Result<Self, NoMemory> {
        let mut nodes = Nodes::new(alloc);
        let first = new_node(alloc, shape, &mut nodes, ROOT, TypeNo(0), at)?;
        let roots = RootIndex::new(alloc, first)?;
        Ok(Arena {
            nodes,
            queue: Queue::new(),
            roots,
            looked_at: 1,
        })
    }

    fn count(&self) -> u64 {
        self.nodes.count()
    }

    fn potential(&self, shape: &Shape) -> u64 {
        potential_of(shape, &self.nodes)
    }

    fn pending(&self) -> bool {
        !self.queue.is_empty()
    }

    #[inline(always)]
    fn name(&self, id: NodeId) -> Name {
        self.nodes.name(id)
    }

    fn ty(&self, id: NodeId) -> TypeNo {
        self.nodes.ty(id)
    }

    #[inline(always)]
    fn cover<O: Order>(&self, order: &O, _shape: &Shape, id: NodeId, at: Pos) -> NodeId {
        cover(order, &self.nodes, id, at)
    }

    // Asked where no node nearby was the one: that it stands apart lets what comes before it take few registers.
    #[inline(never)]
    fn root<O: Order>(&self, order: &O, _shape: &Shape, at: Pos) -> NodeId {
        let held = self.roots.at(order, &self.nodes, at);
        self.nodes.cover(order, held, at)
    }

    fn root_near<O: Order>(&self, order: &O, shape: &Shape, near: NodeId, at: Pos) -> NodeId {
        match root_beside(order, &self.nodes, near, at) {
            Some(node) => node,
            None => self.root(order, shape, at),
        }
    }

    #[inline(always)]
    fn held_at<O: Order>(
        &self,
        order: &O,
        _shape: &Shape,
        id: NodeId,
        slot: SlotNo,
        at: Pos,
    ) -> &Stamp {
        self.nodes.held_at(order, id, slot, at)
    }

    fn open_slot<O: Order>(
        &self,
        order: &O,
        shape: &Shape,
        id: NodeId,
        at: Pos,
        x: NodeId,
        field: SlotNo,
    ) -> Option<SlotNo> {
        self.nodes.open_slot(order, shape, id, at, x, field)
    }

    fn add(
        &mut self,
        shape: &Shape,
        name: Name,
        ty: TypeNo,
        at: Place,
    ) -> Result<NodeId, NoMemory> {
        let alloc = *self.nodes.list.allocator();
        new_node(alloc, shape, &mut self.nodes, name, ty, at)
    }

    fn set_number<O: Order>(
        &mut self,
        order: &O,
        shape: &Shape,
        id: NodeId,
        field: SlotNo,
        at: Place,
        n: i64,
    ) -> Result<(), NoMemory> {
        writes::set_number(
            order,
            shape,
            &mut self.nodes,
            &mut self.queue,
            id,
            field,
            at,
            n,
        )
    }

    fn set_null<O: Order>(
        &mut self,
        order: &O,
        shape: &Shape,
        id: NodeId,
        field: SlotNo,
        at: Place,
    ) -> Result<(), NoMemory> {
        writes::set_null(
            order,
            shape,
            &mut self.nodes,
            &mut self.queue,
            id,
            field,
            at,
        )
    }

    fn set_target<O: Order>(
        &mut self,
        order: &O,
        shape: &Shape,
        id: NodeId,
        field: SlotNo,
        at: Place,
        target: NodeId,
        slot: SlotNo,
    ) -> Result<(), NoMemory> {
        writes::set_target(
            order,
            shape,
            &mut self.nodes,
            &mut self.queue,
            id,
            field,
            at,
            target,
            slot,
        )
    }

    #[inline(always)]
    fn repair<O: Order>(&mut self, order: &O, shape: &Shape) -> Result<(), NoMemory> {
        repair_and_hold(
            order,
            shape,
            &mut self.nodes,
            &mut self.queue,
            &mut self.roots,
            &mut self.looked_at,
        )
    }
}

impl Listed for Arena {
    fn list(&self) -> &Nodes {
        &self.nodes
    }

    fn of_list<O: Order>(
        alloc: Global,
        order: &O,
        _shape: &Shape,
        list: Nodes,
    ) -> Result<Self, NoMemory> {
        let mut roots = RootIndex::new(alloc, NodeId(0))?;
        let mut looked_at = 1;
        hold_new(order, &list, NodeId(0), &mut roots, &mut looked_at)?;
        Ok(Arena {
            nodes: list,
            queue: Queue::new(),
            roots,
            looked_at,
        })
    }
}
