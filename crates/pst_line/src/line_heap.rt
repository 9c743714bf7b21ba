//! The store as a heap at many places.

use crate::line_store::LineStore;
use crate::place::LinePlace;
use pst_base::{Name, NoMemory, NodeId, ROOT, SlotNo, TypeNo};
use pst_versions::{HeapAt, StoreFault};

impl HeapAt for LineStore {
    type Ref = NodeId;

    type Place = LinePlace;

    ghost use Rattle.pst_versions.specs.Store.{MayStorePointer, PointerOutcome};
    ghost use Rattle.pst_line.specs.Held.{state_in};

    ghost state = { state_in };

    fn known(&self) {
        self.whole();
    }

    fn root(&self, at: LinePlace) -> NodeId {
        match &self.core {
            None => NodeId(0),
            Some(core) => core.root(at),
        }
    }

    fn load_value(&self, at: LinePlace, r: NodeId, field: SlotNo) -> i64 {
        match &self.core {
            None => 0,
            Some(core) => core.number(at, r, field),
        }
    }

    fn load_pointer(&self, at: LinePlace, r: NodeId, field: SlotNo) -> Option<NodeId> {
        match &self.core {
            None => None,
            Some(core) => core.pointer(at, r, field),
        }
    }

    fn name_of(&self, r: NodeId) -> Name {
        match &self.core {
            None => ROOT,
            Some(core) => core.name(r),
        }
    }

    fn type_of(&self, r: NodeId) -> TypeNo {
        match &self.core {
            None => TypeNo(0),
            Some(core) => core.ty(r),
        }
    }

    fn nearest(&self, _at: LinePlace, r: NodeId) -> NodeId {
        r
    }

    fn same(&self, r: NodeId, q: NodeId) -> bool {
        match &self.core {
            None => true,
            Some(core) => core.name(r) == core.name(q),
        }
    }

    fn allocate(&mut self, at: LinePlace, ty: TypeNo, name: Name) -> Result<NodeId, NoMemory> {
        match &mut self.core {
            None => Err(NoMemory),
            Some(core) => core.make(at, ty, name),
        }
    }

    fn store_value(
        &mut self,
        at: LinePlace,
        r: NodeId,
        field: SlotNo,
        n: i64,
    ) -> Result<(), NoMemory> {
        match &mut self.core {
            None => Err(NoMemory),
            Some(core) => core.write_number(at, r, field, n),
        }
    }

    fn store_pointer(
        &mut self,
        at: LinePlace,
        r: NodeId,
        field: SlotNo,
        target: Option<NodeId>,
    ) -> Result<(), StoreFault>
        requires { MayStorePointer (state_in self.old) at r field.0 target }
        ensures { PointerOutcome (state_in self.old) at r field.0 target result (state_in self.new) }
    {
        match &mut self.core {
            None => Err(StoreFault::Memory),
            Some(core) => core.point(at, r, field, target),
        }
    }
}
