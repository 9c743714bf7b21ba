//! A store that is started.

use crate::fork_list::ForkList;
use crate::forking::{Near, first_roots, insert_place, note_root, reserve_one};
use crate::types::{capacity_of, field_kind};
use pst_base::{Counts, Kind, Name, NoMemory, NodeId, RunNo, Shape, SlotNo, TypeNo, VersionNo};
use pst_order::Order;
use pst_store_arena::FatNodes;
use pst_store_meaning::place::{Fork, Place};
use pst_versions::{MOST_FORKS, StoreFault, Versions};
use std::alloc::Global;
use std::marker::Model;

/// A store with version 0 at least, over any order list and any arena of fat nodes.
#[derive(Drop)]
pub struct Started<O: Order + Drop, N: FatNodes> {
    shape: Shape,
    order: O,
    nodes: N,
    start: Place,
    versions: Versions<Place>,
    forks: ForkList,
    // For each fork the root record's node at its place, as it was when the place was forked last or published; before that, the one
    // at the place that was forked: where to look from.
    roots: Vec<Near>,
    calls: u32,
    // Over which places the records live that an image had, and how many runs it tells of that have no fork: none where the store was
    // started.
    relics: Vec<Place>,
    spent: u32,
    counts: Counts,
}

/// What a store is made of. Contracts see the store that it is the whole of.
#[derive(Drop)]
pub struct Parts<O: Order + Drop, N: FatNodes> {
    pub shape: Shape,
    pub order: O,
    pub nodes: N,
    pub start: Place,
    pub versions: Versions<Place>,
    pub forks: Vec<Fork>,
    pub calls: u32,
    pub relics: Vec<Place>,
    pub spent: u32,
    pub counts: Counts,
}

impl<O: Order + Drop, N: FatNodes> Model for Parts<O, N> {
    ghost use Rattle.pst_store_meaning.specs.Store.{Stored};
    ghost use Rattle.pst_store.specs.Codes.{coded_stored};
    ghost use Rattle.pst_store.specs.Calls.{stored_of};

    ghost Value = { Stored };

    ghost coded = { coded_stored };

    ghost view = { λ p. stored_of p.shape (O.places p.order) (N.nodes p.nodes) (N.noted p.nodes) p.start p.versions p.forks.items p.calls p.relics.items p.spent p.counts };
}

impl<O: Order + Drop, N: FatNodes> Model for Started<O, N> {
    ghost use Rattle.pst_store_meaning.specs.Store.{Stored};
    ghost use Rattle.pst_store.specs.Codes.{coded_stored};
    ghost use Rattle.pst_store.specs.Calls.{IsKept, stored_of};

    ghost Value = { Stored };

    ghost coded = { coded_stored };

    ghost view = { λ s. stored_of s.shape (O.places s.order) (N.nodes s.nodes) (N.noted s.nodes) s.start s.versions s.forks.forks s.calls s.relics.items s.spent s.counts };

    ghost invariant = { λ s. IsKept (stored_of s.shape (O.places s.order) (N.nodes s.nodes) (N.noted s.nodes) s.start s.versions s.forks.forks s.calls s.relics.items s.spent s.counts) };
}

impl<O: Order + Drop, N: FatNodes> Started<O, N> {
    ghost use Rattle.std.specs.Prelude.{◌≡◌, ◌⊎◌, ◌↔◌, ◌<◌, Some, None, OnOk, OnErr, IfOk, IfNone, IfSome, IsTrue, false, length, slice_get, []};
    ghost use Rattle.std.specs.Option.{option_map};
    ghost use Rattle.pst_base.specs.declared.names.Kind.TheVariants.{Int};
    ghost use Rattle.pst_base.specs.Heap.{kind_in, type_in, value_in, pointer_in, IsPointer};
    ghost use Rattle.pst_base.specs.Name.{root_name};
    ghost use Rattle.pst_base.specs.Shape.{IsValid, type_at};
    ghost use Rattle.pst_mirror.specs.Potential.{capacity, potential};
    ghost use Rattle.pst_versions.specs.Rows.{parent_of};
    ghost use Rattle.pst_versions.specs.Store.{MayStorePointer, PointerOutcome};
    ghost use Rattle.pst_versions.specs.State.{HasRoom, Allocated, IsNewType, IsFresh, IsPublished, Forked, ForkRefused, IsOpenFork, Published};
    ghost use Rattle.pst_store_meaning.specs.declared.place.Place.{Place};
    ghost use Rattle.pst_store_meaning.specs.Arena.{IsIn};
    ghost use Rattle.pst_store_meaning.specs.Store.{arena, begin_of, loads, state_of};
    ghost use Rattle.pst_store_arena.specs.Calls.{AreOthers, IsOpenTo};
    ghost use Rattle.pst_versions.specs.declared.versioned.TheConstants.{MOST_FORKS};
    ghost use Rattle.pst_store.specs.Calls.{IsKept, IsStarted, kind_at, IsNumberStored, IsPointerStored, HoldsAfter, HoldsRoots, RestsAfter, Stays, Same, IsLinked, IsRefused, IsSplitUp, IsStamped, StampsAtMost, HasNoRoom};

    /// A store with version 0, which has the root record alone.
    ///
    /// # Errors
    /// Where there was no memory.
    pub fn start(alloc: Global, shape: &Shape) -> Result<Started<O, N>, NoMemory>
        requires { IsValid shape.now }
        ensures { IfOk result (IsStarted shape.now) }
    {
        let mut order = O::new(alloc)?;
        let begin = order.first();
        let end = order.insert_after(begin)?;
        let start = Place {
            number: 0,
            begin,
            end,
        };
        Ok(Started {
            shape: shape.copy(alloc)?,
            order,
            nodes: N::started(alloc, shape, start)?,
            start,
            versions: Versions::new(alloc, start)?,
            forks: ForkList::new(alloc),
            roots: Vec::new(alloc),
            calls: 0,
            relics: Vec::new(alloc),
            spent: 0,
            counts: Counts {
                records: 1,
                pointer_writes: 0,
                value_writes: 0,
            },
        })
    }

    /// A store of parts that keep what a store keeps. `NoMemory` where there is none for a node beside each fork.
    ///
    /// # Errors
    /// Where there was no memory.
    pub fn of_parts(alloc: Global, parts: Parts<O, N>) -> Result<Started<O, N>, NoMemory>
        requires { IsKept parts }
        ensures { IfOk result (λ store. store ≡ parts) }
    {
        let forks = ForkList::of_list(alloc, &parts.forks)?;
        let roots = first_roots(alloc, forks.len())?;
        Ok(Started {
            shape: parts.shape,
            order: parts.order,
            nodes: parts.nodes,
            start: parts.start,
            versions: parts.versions,
            forks,
            roots,
            calls: parts.calls,
            relics: parts.relics,
            spent: parts.spent,
            counts: parts.counts,
        })
    }

    /// The order list.
    pub fn order(&self) -> &O
        ensures { O.places result.now ≡ self.now.places }
    {
        &self.order
    }

    /// The nodes.
    pub fn node_list(&self) -> &N
        ensures nodes { N.nodes result.now ≡ self.now.nodes }
        ensures noted { N.noted result.now ≡ self.now.noted }
    {
        &self.nodes
    }

    /// The run that made a version, or None exactly where there is no such version.
    pub fn run_of(&self, version: VersionNo) -> Option<RunNo>
        ensures { result ≡ option_map (λ row. row.run) (slice_get self.now.versions version.0) }
    {
        self.versions.run_of(version)
    }

    /// What is known of every store.
    pub fn whole(&self)
        ensures { IsKept self.now }
    {
        let _ = &self.counts;
    }

    /// How many nodes there are.
    pub fn node_count(&self) -> u64
        ensures { result ≡ length self.now.nodes }
    {
        self.nodes.count()
    }

    /// By how many stamped values in all the nodes exceed half of what their type's capacity is.
    pub fn potential(&self) -> u64
        ensures { result ≡ potential (loads self.now) }
    {
        self.nodes.potential(&self.shape)
    }

    /// How many stamped values a node of a type has at most when nothing waits.
    pub fn capacity(&self, ty: TypeNo) -> u32
        requires { ty.0 < length self.now.shape }
        ensures { result ≡ capacity (type_at self.now.shape ty) }
    {
        capacity_of(&self.shape, ty)
    }

    /// Whether a node waits to be split.
    pub fn pending(&self) -> bool
        ensures { IsTrue result ↔ ¬ (self.now.noted.queue ≡ []) }
    {
        self.nodes.pending()
    }

    /// The root record, at a place: the node of it that lives there.
    pub fn root(&self, at: Place) -> NodeId
        requires { (state_of self.now).has at }
        ensures name { (state_of self.now).name result ≡ root_name }
        ensures live { (state_of self.now).live at result }
        ensures covers { IsIn (arena self.now) result.0 (begin_of self.now at) }
    {
        let near = match self.roots.get(at.number as usize) {
            Some(near) => *near,
            None => Near::FIRST,
        };
        self.nodes
            .root_near(&self.order, &self.shape, near.node(), at.begin)
    }

    /// The node of a record that lives at a place. A node that other runs cut meanwhile may stand far before it.
    #[inline(always)]
    pub fn nearest(&self, at: Place, r: NodeId) -> NodeId
        requires live { (state_of self.now).live at r }
        ensures name { (state_of self.now).name result ≡ (state_of self.now).name r }
        ensures live { (state_of self.now).live at result }
        ensures covers { IsIn (arena self.now) result.0 (begin_of self.now at) }
    {
        self.nodes.cover(&self.order, &self.shape, r, at.begin)
    }

    /// The number in a field of a record, at a place.
    #[inline(always)]
    pub fn number(&self, at: Place, r: NodeId, field: SlotNo) -> i64
        requires live { (state_of self.now).live at r }
        requires field { kind_at self.now at r field.0 ≡ Some Int }
        ensures { result ≡ value_in ((state_of self.now).heap at) ((state_of self.now).name r) field.0 }
    {
        let node = self.nodes.cover(&self.order, &self.shape, r, at.begin);
        self.nodes
            .held_at(&self.order, &self.shape, node, field, at.begin)
            .number()
    }

    /// The record that a field holds, at a place, or None exactly where the field is null.
    #[inline(always)]
    pub fn pointer(&self, at: Place, r: NodeId, field: SlotNo) -> Option<NodeId>
        requires live { (state_of self.now).live at r }
        requires field { IsPointer (kind_at self.now at r field.0) }
        ensures target { option_map (state_of self.now).name result ≡ pointer_in ((state_of self.now).heap at) ((state_of self.now).name r) field.0 }
        ensures live { IfSome result ((state_of self.now).live at) }
    {
        let id = self.nodes.cover(&self.order, &self.shape, r, at.begin);
        self.nodes
            .held_at(&self.order, &self.shape, id, field, at.begin)
            .target()
    }

    /// The name of a record.
    #[inline(always)]
    pub fn name(&self, r: NodeId) -> Name
        requires { (p : Place) × (state_of self.now).live p r }
        ensures { result ≡ (state_of self.now).name r }
    {
        self.nodes.name(r)
    }

    /// The type of a record.
    pub fn ty(&self, r: NodeId) -> TypeNo
        requires { (p : Place) × (state_of self.now).live p r }
        ensures { (p : Place) → (state_of self.now).live p r → type_in ((state_of self.now).heap p) ((state_of self.now).name r) ≡ Some result }
    {
        self.nodes.ty(r)
    }

    /// The kind of a field of a record at a place, or None exactly where it has no such field.
    pub fn kind(&self, at: Place, r: NodeId, field: SlotNo) -> Option<Kind>
        requires { (state_of self.now).live at r }
        ensures { result ≡ kind_at self.now at r field.0 }
    {
        field_kind(&self.shape, self.ty(r), field)
    }

    /// Whether a place can be forked once more, and each count can be raised once.
    pub fn has_room(&self) -> bool
        ensures calls { IsTrue result → (state_of self.now).fork_calls < MOST_FORKS }
        ensures counts { IsTrue result → HasRoom (state_of self.now) }
        ensures only { (state_of self.now).fork_calls < MOST_FORKS → HasRoom (state_of self.now) → IsTrue result }
    {
        let counts = self.counts;
        self.calls < MOST_FORKS
            && counts.records < 1 << 60
            && counts.pointer_writes < 1 << 60
            && counts.value_writes < 1 << 60
    }

    /// Splits the nodes that wait, until none does. After `NoMemory` those that were not split still wait.
    ///
    /// # Errors
    /// Where there was no memory.
    #[inline(always)]
    pub fn repair(&mut self) -> Result<(), NoMemory>
        ensures rested { OnOk result (self.new.noted.queue ≡ []) }
        ensures held { OnOk result (HoldsRoots self.new) }
        ensures splits { IsSplitUp self.old self.new }
        ensures same { Same self.old self.new }
        ensures stays { Stays self.old self.new }
    {
        self.nodes.repair(&self.order, &self.shape)
    }

    /// Makes a record with all fields 0 or null, at a place that can be written.
    ///
    /// # Errors
    /// Where there was no memory.
    pub fn make(&mut self, at: Place, ty: TypeNo, name: Name) -> Result<NodeId, NoMemory>
        requires writable { (state_of self.old).writable at }
        requires known_type { IsNewType (state_of self.old) ty }
        requires fresh { IsFresh (state_of self.old) name }
        requires room { HasRoom (state_of self.old) }
        ensures rested { IfOk result (λ _. self.new.noted.queue ≡ []) }
        ensures held { IfOk result (λ _. HoldsRoots self.new) }
        ensures ok { IfOk result (λ r. Allocated (state_of self.old) at ty name r (state_of self.new)) }
        ensures err { OnErr result (Same self.old self.new) }
    {
        self.repair()?;
        self.add_record(at, ty, name)
    }

    /// Makes a record as `make` does, and splits nothing.
    #[inline(always)]
    fn add_record(&mut self, at: Place, ty: TypeNo, name: Name) -> Result<NodeId, NoMemory>
        requires writable { (state_of self.old).writable at }
        requires known_type { IsNewType (state_of self.old) ty }
        requires fresh { IsFresh (state_of self.old) name }
        requires room { HasRoom (state_of self.old) }
        ensures noted { self.new.noted ≡ self.old.noted }
        ensures held { HoldsRoots self.old → IfOk result (λ _. HoldsRoots self.new) }
        ensures ok { IfOk result (λ r. Allocated (state_of self.old) at ty name r (state_of self.new)) }
        ensures err { OnErr result (Same self.old self.new) }
    {
        let id = self.nodes.add(&self.shape, name, ty, at)?;
        self.counts.records += 1;
        Ok(id)
    }

    /// Writes a number, at a place that can be written, and splits nothing: the nodes that were over their capacity wait still, and
    /// those that now are wait too. `write_number` calls it between two repairs, and tests do so to see what one split changes.
    ///
    /// # Errors
    /// Where there was no memory.
    #[inline(always)]
    pub fn stamp_number(
        &mut self,
        at: Place,
        r: NodeId,
        field: SlotNo,
        n: i64,
    ) -> Result<(), NoMemory>
        requires writable { (state_of self.old).writable at }
        requires live { (state_of self.old).live at r }
        requires field { kind_at self.old at r field.0 ≡ Some Int }
        requires room { HasRoom (state_of self.old) }
        ensures ok { OnOk result (IsNumberStored self.old at r field.0 n self.new × Stays self.old self.new) }
        ensures stamped { IsStamped 2 self.old self.new }
        ensures err { OnErr result (Same self.old self.new) }
    {
        let id = self.nodes.cover(&self.order, &self.shape, r, at.begin);
        self.nodes
            .set_number(&self.order, &self.shape, id, field, at, n)?;
        self.counts.value_writes += 1;
        Ok(())
    }

    /// Writes a number, at a place that can be written.
    ///
    /// # Errors
    /// Where there was no memory.
    pub fn write_number(
        &mut self,
        at: Place,
        r: NodeId,
        field: SlotNo,
        n: i64,
    ) -> Result<(), NoMemory>
        requires writable { (state_of self.old).writable at }
        requires live { (state_of self.old).live at r }
        requires field { kind_at self.old at r field.0 ≡ Some Int }
        requires room { HasRoom (state_of self.old) }
        ensures rested { OnOk result (self.new.noted.queue ≡ []) }
        ensures held { OnOk result (HoldsRoots self.new) }
        ensures stamps { StampsAtMost 2 self.old self.new }
        ensures ok { OnOk result (IsNumberStored self.old at r field.0 n self.new × Stays self.old self.new) }
        ensures err { OnErr result (Same self.old self.new ⊎ IsNumberStored self.old at r field.0 n self.new) }
    {
        self.repair()?;
        self.stamp_number(at, r, field, n)?;
        self.repair()
    }

    /// Writes null, at a place that can be written.
    ///
    /// # Errors
    /// Where there was no memory.
    pub fn write_null(&mut self, at: Place, r: NodeId, field: SlotNo) -> Result<(), NoMemory>
        requires writable { (state_of self.old).writable at }
        requires live { (state_of self.old).live at r }
        requires field { IsPointer (kind_at self.old at r field.0) }
        requires room { HasRoom (state_of self.old) }
        ensures rested { OnOk result (self.new.noted.queue ≡ []) }
        ensures held { OnOk result (HoldsRoots self.new) }
        ensures stamps { StampsAtMost 6 self.old self.new }
        ensures ok { OnOk result (IsPointerStored self.old at r field.0 None self.new × Stays self.old self.new) }
        ensures err { OnErr result (Same self.old self.new ⊎ IsPointerStored self.old at r field.0 None self.new) }
    {
        self.repair()?;
        self.stamp_null(at, r, field)?;
        self.repair()
    }

    /// Writes null, at a place that can be written, and splits nothing.
    #[inline(always)]
    fn stamp_null(&mut self, at: Place, r: NodeId, field: SlotNo) -> Result<(), NoMemory>
        requires writable { (state_of self.old).writable at }
        requires live { (state_of self.old).live at r }
        requires field { IsPointer (kind_at self.old at r field.0) }
        requires room { HasRoom (state_of self.old) }
        ensures ok { OnOk result (IsPointerStored self.old at r field.0 None self.new × Stays self.old self.new) }
        ensures stamped { IsStamped 6 self.old self.new }
        ensures err { OnErr result (Same self.old self.new) }
    {
        let id = self.nodes.cover(&self.order, &self.shape, r, at.begin);
        self.nodes
            .set_null(&self.order, &self.shape, id, field, at)?;
        self.counts.pointer_writes += 1;
        Ok(())
    }

    /// Writes a pointer to a record, at a place that can be written, or answers false exactly where the record has no
    /// room for a pointer more.
    ///
    /// # Errors
    /// Where there was no memory.
    pub fn link(&mut self, at: Place, r: NodeId, field: SlotNo, q: NodeId) -> Result<bool, NoMemory>
        requires { MayStorePointer (state_of self.old) at r field.0 (Some q) }
        ensures rested { IfOk result (λ _. self.new.noted.queue ≡ []) }
        ensures held { IfOk result (λ _. HoldsRoots self.new) }
        ensures stamps { StampsAtMost 6 self.old self.new }
        ensures written { IfOk result (λ done. IsTrue done → IsLinked self.old at r field.0 q self.new) }
        ensures full { IfOk result (λ done. done ≡ false → IsRefused self.old at r field.0 q self.new) }
        ensures err { OnErr result (Same self.old self.new ⊎ IsPointerStored self.old at r field.0 (Some ((state_of self.old).name q)) self.new) }
    {
        self.repair()?;
        let done = self.stamp_target(at, r, field, q)?;
        if !done {
            return Ok(false);
        }
        self.repair()?;
        Ok(true)
    }

    /// Writes a pointer to a record, at a place that can be written, and splits nothing, or answers false exactly where the
    /// record has no room for a pointer more: then nothing changes.
    #[inline(always)]
    fn stamp_target(
        &mut self,
        at: Place,
        r: NodeId,
        field: SlotNo,
        q: NodeId,
    ) -> Result<bool, NoMemory>
        requires { MayStorePointer (state_of self.old) at r field.0 (Some q) }
        ensures written { IfOk result (λ done. IsTrue done → IsLinked self.old at r field.0 q self.new) }
        ensures full { IfOk result (λ done. done ≡ false → HasNoRoom self.old at r field.0 q × (self.new ≡ self.old)) }
        ensures stamped { IsStamped 6 self.old self.new }
        ensures err { OnErr result (Same self.old self.new) }
    {
        let x = self.nodes.cover(&self.order, &self.shape, r, at.begin);
        let y = self.nodes.cover(&self.order, &self.shape, q, at.begin);
        match self.open_slot(at, x, field, y) {
            None => Ok(false),
            Some(slot) => {
                self.nodes
                    .set_target(&self.order, &self.shape, x, field, at, y, slot)?;
                self.counts.pointer_writes += 1;
                Ok(true)
            }
        }
    }

    /// An inverse slot of node `y` that holds no entry of another field than this one of node `x`, at a place, or None where
    /// each one does.
    #[inline(always)]
    fn open_slot(&self, at: Place, x: NodeId, field: SlotNo, y: NodeId) -> Option<SlotNo>
        requires { IsIn (arena self.now) y.0 (begin_of self.now at) }
        ensures none { IfNone result (AreOthers self.now.shape (arena self.now) y.0 (begin_of self.now at) x.0 field.0) }
        ensures some { IfSome result (λ s. IsOpenTo self.now.shape (arena self.now) y.0 (begin_of self.now at) x.0 field.0 s.0) }
    {
        self.nodes
            .open_slot(&self.order, &self.shape, y, at.begin, x, field)
    }

    /// Writes a pointer, or null for None, at a place that can be written. It is refused exactly where the target has no room
    /// for a pointer more.
    ///
    /// # Errors
    /// Where the target has no room for a pointer more, or there was no memory.
    pub fn point(
        &mut self,
        at: Place,
        r: NodeId,
        field: SlotNo,
        to: Option<NodeId>,
    ) -> Result<(), StoreFault>
        requires { MayStorePointer (state_of self.old) at r field.0 to }
        ensures rested { RestsAfter result self.new.noted.queue }
        ensures held { HoldsAfter result self.new }
        ensures stamps { StampsAtMost 6 self.old self.new }
        ensures outcome { PointerOutcome (state_of self.old) at r field.0 to result (state_of self.new) }
    {
        match to {
            None => match self.write_null(at, r, field) {
                Ok(()) => Ok(()),
                Err(_) => Err(StoreFault::Memory),
            },
            Some(q) => match self.link(at, r, field, q) {
                Ok(true) => Ok(()),
                Ok(false) => Err(StoreFault::InDegree),
                Err(_) => Err(StoreFault::Memory),
            },
        }
    }

    /// A new place that can be written, with the heap of a published place. Its end comes in first, so that its begin then
    /// comes to stand before it: both directly behind the begin of the place that is forked. No node changes.
    ///
    /// # Errors
    /// Where there was no memory.
    pub fn make_fork(&mut self, from: Place) -> Result<Place, NoMemory>
        requires published { IsPublished (state_of self.old) from }
        requires calls { (state_of self.old).fork_calls < MOST_FORKS }
        ensures nodes { self.new.nodes ≡ self.old.nodes }
        ensures noted { self.new.noted ≡ self.old.noted }
        ensures ok { IfOk result (λ place. Forked (state_of self.old) from place (state_of self.new)) }
        ensures err { OnErr result (ForkRefused (state_of self.old) (state_of self.new)) }
    {
        let root = self.root(from);
        note_root(&mut self.roots, from, root);
        self.calls += 1;
        reserve_one(&mut self.forks, &mut self.roots)?;
        let number = self.forks.len() as u32;
        let place = insert_place(&mut self.order, from.begin, number)?;
        self.roots.push_reserved(Near::of(root));
        self.forks.push(Fork {
            place,
            from,
            published: false,
        });
        Ok(place)
    }

    /// Makes an unpublished place the next version. No node changes.
    ///
    /// # Errors
    /// Where there was no memory.
    pub fn make_version(
        &mut self,
        parent: VersionNo,
        run: RunNo,
        at: Place,
    ) -> Result<VersionNo, NoMemory>
        requires there { parent.0 < length (state_of self.old).versions }
        requires forked { IfSome (slice_get (state_of self.old).versions parent.0) (λ row. IsOpenFork (state_of self.old) at row.place) }
        ensures nodes { self.new.nodes ≡ self.old.nodes }
        ensures noted { self.new.noted ≡ self.old.noted }
        ensures ok { IfOk result (λ version. Published (state_of self.old) parent run at version (state_of self.new)) }
        ensures err { OnErr result (Same self.old self.new × Stays self.old self.new) }
    {
        let root = self.root(at);
        let version = self.versions.publish(parent, run, at)?;
        self.forks.mark_published(at.number);
        note_root(&mut self.roots, at, root);
        Ok(version)
    }

    /// The place of a version, or None exactly where there is no such version.
    pub fn place_of(&self, version: VersionNo) -> Option<Place>
        ensures { result ≡ option_map (λ row. row.place) (slice_get self.now.versions version.0) }
    {
        self.versions.place_of(version)
    }

    /// The version that a version was made from, or None exactly for version 0 and where there is no such version.
    pub fn parent(&self, version: VersionNo) -> Option<VersionNo>
        ensures { result ≡ parent_of self.now.versions version.0 }
    {
        self.versions.parent(version)
    }

    /// How many versions there are.
    pub fn count(&self) -> u32
        ensures { result ≡ length self.now.versions }
    {
        self.versions.count()
    }

    /// How many records were made, and how many pointers and numbers were written.
    pub fn counts(&self) -> Counts
        ensures { result ≡ self.now.counts }
    {
        self.counts
    }
}
