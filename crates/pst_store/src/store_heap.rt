//! The store as a heap at many places, which are forked and published.

ghost use Rattle.std.specs.Prelude.{◌≡◌, ◌<◌, Some, length, slice_get};

use crate::Started;
use crate::store::StoreOf;
use pst_base::{Counts, Name, NoMemory, NodeId, RunNo, SlotNo, TypeNo, VersionNo};
use pst_order::Order;
use pst_store_arena::FatNodes;
use pst_store_meaning::place::Place;
use pst_versions::{HeapAt, StoreFault, VersionedHeap};

impl<O: Order + Drop, N: FatNodes> HeapAt for StoreOf<O, N> {
    type Ref = NodeId;

    type Place = Place;

    ghost use Rattle.std.specs.Prelude.{◌≡◌, ◌⊎◌, [], Some, IfOk, IfSome, OnOk, OnErr};
    ghost use Rattle.pst_base.specs.declared.names.Kind.TheVariants.{Int};
    ghost use Rattle.pst_base.specs.Heap.{kind_in};
    ghost use Rattle.pst_base.specs.Name.{root_name};
    ghost use Rattle.pst_versions.specs.State.{Allocated, HasRoom, IsFresh, IsNewType, Unchanged, ValueStored, WritesStay};
    ghost use Rattle.pst_versions.specs.Store.{MayStorePointer, PointerOutcome};
    ghost use Rattle.pst_store_meaning.specs.Arena.{IsIn};
    ghost use Rattle.pst_store_meaning.specs.Store.{arena, begin_of};
    ghost use Rattle.pst_store.specs.Calls.{HoldsAfter, HoldsRoots, RestsAfter};
    ghost use Rattle.pst_store.specs.Whole.{Stamps, queue_in, state_in};

    ghost state = { state_in };

    fn known(&self) {
        self.whole();
    }

    fn root(&self, at: Place) -> NodeId
        requires { (state_in self.now).has at }
        ensures name { (state_in self.now).name result ≡ root_name }
        ensures live { (state_in self.now).live at result }
        ensures covers { IfSome self.now (λ s. IsIn (arena s) result.0 (begin_of s at)) }
    {
        self.begun().root(at)
    }

    #[inline(always)]
    fn load_value(&self, at: Place, r: NodeId, field: SlotNo) -> i64 {
        self.begun().number(at, r, field)
    }

    #[inline(always)]
    fn load_pointer(&self, at: Place, r: NodeId, field: SlotNo) -> Option<NodeId> {
        self.begun().pointer(at, r, field)
    }

    fn name_of(&self, r: NodeId) -> Name {
        self.begun().name(r)
    }

    fn type_of(&self, r: NodeId) -> TypeNo {
        self.begun().ty(r)
    }

    #[inline(always)]
    fn nearest(&self, at: Place, r: NodeId) -> NodeId
        requires live { (state_in self.now).live at r }
        ensures name { (state_in self.now).name result ≡ (state_in self.now).name r }
        ensures live { (state_in self.now).live at result }
        ensures covers { IfSome self.now (λ s. IsIn (arena s) result.0 (begin_of s at)) }
    {
        self.begun().nearest(at, r)
    }

    #[inline(always)]
    fn same(&self, r: NodeId, q: NodeId) -> bool {
        let started = self.begun();
        r == q || started.name(r) == started.name(q)
    }

    fn allocate(&mut self, at: Place, ty: TypeNo, name: Name) -> Result<NodeId, NoMemory>
        requires writable { (state_in self.old).writable at }
        requires known_type { IsNewType (state_in self.old) ty }
        requires fresh { IsFresh (state_in self.old) name }
        requires room { HasRoom (state_in self.old) }
        ensures ok { IfOk result (λ r. Allocated (state_in self.old) at ty name r (state_in self.new)) }
        ensures err { OnErr result (Unchanged (state_in self.old) (state_in self.new)) }
        ensures rested { IfOk result (λ _. queue_in self.new ≡ []) }
        ensures held { IfOk result (λ _. IfSome self.new HoldsRoots) }
    {
        match &mut self.started {
            None => first_of(&[]),
            Some(started) => started.make(at, ty, name),
        }
    }

    fn store_value(&mut self, at: Place, r: NodeId, field: SlotNo, n: i64) -> Result<(), NoMemory>
        requires writable { (state_in self.old).writable at }
        requires live { (state_in self.old).live at r }
        requires field { kind_in (state_in self.old).shape ((state_in self.old).heap at) ((state_in self.old).name r) field.0 ≡ Some Int }
        requires room { HasRoom (state_in self.old) }
        ensures ok { let s = state_in self.old in let t = state_in self.new in OnOk result (ValueStored s at (s.name r) field.0 n t × WritesStay s t) }
        ensures err { let s = state_in self.old in let t = state_in self.new in OnErr result (Unchanged s t ⊎ ValueStored s at (s.name r) field.0 n t) }
        ensures rested { OnOk result (queue_in self.new ≡ []) }
        ensures held { OnOk result (IfSome self.new HoldsRoots) }
        ensures stamps { Stamps 2 self.old self.new }
    {
        match &mut self.started {
            None => first_of(&[]),
            Some(started) => started.write_number(at, r, field, n),
        }
    }

    fn store_pointer(
        &mut self,
        at: Place,
        r: NodeId,
        field: SlotNo,
        target: Option<NodeId>,
    ) -> Result<(), StoreFault>
        requires { MayStorePointer (state_in self.old) at r field.0 target }
        ensures outcome { PointerOutcome (state_in self.old) at r field.0 target result (state_in self.new) }
        ensures rested { RestsAfter result (queue_in self.new) }
        ensures held { IfSome self.new (HoldsAfter result) }
        ensures stamps { Stamps 6 self.old self.new }
    {
        match &mut self.started {
            None => first_of(&[]),
            Some(started) => started.point(at, r, field, target),
        }
    }
}

impl<O: Order + Drop, N: FatNodes> StoreOf<O, N> {
    ghost use Rattle.std.specs.Prelude.{◌≡◌, Some, IsSome};

    // The store as it is started.
    #[inline(always)]
    fn begun(&self) -> &Started<O, N>
        requires { IsSome self.now }
        ensures { self.now ≡ Some result.now }
    {
        match &self.started {
            None => {
                let none: &[&Started<O, N>] = &[];
                none[0]
            }
            Some(started) => started,
        }
    }
}

impl<O: Order + Drop, N: FatNodes> VersionedHeap for StoreOf<O, N> {
    ghost use Rattle.std.specs.Prelude.{◌≡◌, ◌<◌, IfOk, IfSome, OnErr, length, slice_get};
    ghost use Rattle.pst_versions.specs.State.{ForkRefused, Forked, IsOpenFork, IsPublished, Published, Unchanged, WritesStay};
    ghost use Rattle.pst_versions.specs.declared.versioned.TheConstants.{MOST_FORKS};
    ghost use Rattle.pst_store.specs.Whole.{nodes_in, queue_in, state_in};

    fn known_versions(&self) {
        self.whole();
    }

    fn fork(&mut self, from: Place) -> Result<Place, NoMemory>
        requires published { IsPublished (state_in self.old) from }
        requires calls { (state_in self.old).fork_calls < MOST_FORKS }
        ensures ok { IfOk result (λ place. Forked (state_in self.old) from place (state_in self.new)) }
        ensures err { OnErr result (ForkRefused (state_in self.old) (state_in self.new)) }
        ensures nodes { nodes_in self.new ≡ nodes_in self.old }
        ensures queue { queue_in self.new ≡ queue_in self.old }
    {
        match &mut self.started {
            None => Err(NoMemory),
            Some(started) => started.make_fork(from),
        }
    }

    fn publish(&mut self, parent: VersionNo, run: RunNo, at: Place) -> Result<VersionNo, NoMemory>
        requires there { parent.0 < length (state_in self.old).versions }
        requires forked { IfSome (slice_get (state_in self.old).versions parent.0) (λ row. IsOpenFork (state_in self.old) at row.place) }
        ensures ok { IfOk result (λ version. Published (state_in self.old) parent run at version (state_in self.new)) }
        ensures err { OnErr result (Unchanged (state_in self.old) (state_in self.new) × WritesStay (state_in self.old) (state_in self.new)) }
        ensures nodes { nodes_in self.new ≡ nodes_in self.old }
        ensures queue { queue_in self.new ≡ queue_in self.old }
    {
        match &mut self.started {
            None => Err(NoMemory),
            Some(started) => started.make_version(parent, run, at),
        }
    }

    fn place_of(&self, version: VersionNo) -> Option<Place> {
        match &self.started {
            None => None,
            Some(started) => started.place_of(version),
        }
    }

    fn parent(&self, version: VersionNo) -> Option<VersionNo> {
        match &self.started {
            None => None,
            Some(started) => started.parent(version),
        }
    }

    fn count(&self) -> u32 {
        match &self.started {
            None => 0,
            Some(started) => started.count(),
        }
    }

    fn counts(&self) -> Counts {
        match &self.started {
            None => Counts {
                records: 0,
                pointer_writes: 0,
                value_writes: 0,
            },
            Some(started) => started.counts(),
        }
    }
}

// The first element of a list. A write of a store that is not started answers that of an empty one, where what the call requires
// rules that out: the compiler makes no code for it, and so none for the question that would lead there. `begun` indexes such a
// list itself.
#[inline(always)]
fn first_of<T: Copy>(list: &[T]) -> T
    requires { 0 < length list.now }
    ensures { slice_get list.now 0 ≡ Some result }
{
    list[0]
}
