//! The nodes of a line store: a list of nodes.

use crate::line_nodes::LineNodes;
use pst_base::{Name, NoMemory, NodeId, Shape, SlotNo, TypeNo};
use pst_line_nodes::content::{Content, InverseNo, Stamp};
use pst_line_nodes::nodes::Nodes;
use std::alloc::Global;

impl LineNodes for Nodes {
    ghost seen = { λ s. s };

    fn none(alloc: Global) -> Nodes {
        Nodes::new(alloc)
    }

    fn count(&self) -> u64 {
        Nodes::count(self)
    }

    fn potential(&self) -> u64 {
        Nodes::potential(self)
    }

    fn name(&self, x: NodeId) -> Name {
        Nodes::name(self, x)
    }

    fn ty(&self, x: NodeId) -> TypeNo {
        Nodes::ty(self, x)
    }

    fn home(&self, x: NodeId) -> NodeId {
        Nodes::home(self, x)
    }

    fn read(&self, x: NodeId, slot: SlotNo, at: Stamp) -> Content {
        Nodes::read(self, x, slot, at)
    }

    fn cover(&self, id: NodeId, at: Stamp) -> NodeId {
        Nodes::cover(self, id, at)
    }

    fn make_room(
        &mut self,
        shape: &Shape,
        x: NodeId,
        field: SlotNo,
        stamp: Stamp,
    ) -> Result<NodeId, NoMemory> {
        Nodes::make_room(self, shape, x, field, stamp)
    }

    fn set(
        &mut self,
        x: NodeId,
        slot: SlotNo,
        stamp: Stamp,
        content: Content,
    ) -> Result<(), NoMemory> {
        Nodes::set(self, x, slot, stamp, content)
    }

    fn set_null(&mut self, x: NodeId, field: SlotNo, stamp: Stamp) -> Result<(), NoMemory> {
        Nodes::set_null(self, x, field, stamp)
    }

    fn open_slot(&self, z: NodeId, x: NodeId, field: SlotNo) -> Option<InverseNo> {
        Nodes::open_slot(self, z, x, field)
    }

    fn set_target(
        &mut self,
        x: NodeId,
        field: SlotNo,
        stamp: Stamp,
        z: NodeId,
        slot: InverseNo,
    ) -> Result<(), NoMemory> {
        Nodes::set_target(self, x, field, stamp, z, slot)
    }

    fn make(
        &mut self,
        shape: &Shape,
        name: Name,
        ty: TypeNo,
        stamp: Stamp,
    ) -> Result<NodeId, NoMemory> {
        Nodes::make(self, shape, name, ty, stamp)
    }
}
