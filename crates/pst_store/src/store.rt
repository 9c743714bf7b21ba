//! The store, and what is asked of it alone.

use crate::Started;
use pst_base::{NoMemory, RunNo, Shape, TypeNo, VersionNo};
use pst_order::{LabelOrder, Order, Pos};
use pst_store_arena::{Arena, FatNodes};
use std::alloc::Global;
use std::marker::Model;

/// A fully persistent heap of fat nodes: empty, or started with version 0. It is a heap at many places that are forked and
/// published (`HeapAt`, `VersionedHeap`). Each call that writes first splits the nodes that wait, then writes, and then splits
/// the nodes that are over their capacity. A pointer write stamps at most six values, and a number write two (`stamps` of
/// both calls); all splits together add no more nodes than that pays for (`whole`). After a write that succeeds the root index
/// holds all nodes of the root record (`held`).
#[derive(Drop)]
pub struct StoreOf<O: Order + Drop, N: FatNodes = Arena> {
    pub(crate) started: Option<Started<O, N>>,
}

/// The store over the order list by labels.
pub type Store = StoreOf<LabelOrder>;

impl<O: Order + Drop, N: FatNodes> Model for StoreOf<O, N> {
    ghost use Rattle.std.specs.Prelude.{Option};
    ghost use Rattle.std.specs.Coded.{coded_option};
    ghost use Rattle.pst_store_meaning.specs.Store.{Stored};
    ghost use Rattle.pst_store.specs.Codes.{coded_stored};

    ghost Value = { Option Stored };

    ghost coded = { coded_option coded_stored };

    ghost view = { λ s. s.started };
}

impl<O: Order + Drop, N: FatNodes> StoreOf<O, N> {
    ghost use Rattle.std.specs.Prelude.{◌≡◌, ◌<◌, ◌↔◌, [], None, Some, OnOk, OnErr, IfSome, IsSome, IsSomeAnd, IsTrue, length, slice_get};
    ghost use Rattle.std.specs.Option.{option_map};
    ghost use Rattle.pst_versions.specs.declared.rows.VersionRow.{VersionRow};
    ghost use Rattle.pst_store_meaning.specs.declared.place.Place.{Place};
    ghost use Rattle.pst_base.specs.Shape.{IsValid, type_at};
    ghost use Rattle.pst_mirror.specs.Potential.{capacity};
    ghost use Rattle.pst_versions.specs.State.{Unchanged, WritesStay};
    ghost use Rattle.pst_store_meaning.specs.Store.{IsStore};
    ghost use Rattle.pst_store.specs.Calls.{IsKept, IsStarted};
    ghost use Rattle.pst_store.specs.Whole.{IsBounded, IsSmall, nodes_in, potential_in, queue_in, state_in};

    /// A store with no version and no node. It takes no memory.
    pub fn empty() -> Self
        ensures { result ≡ None }
    {
        StoreOf { started: None }
    }

    /// Starts an empty store: it then has version 0, in which the root record is alone. After `NoMemory` it is still empty.
    ///
    /// # Errors
    /// Where there was no memory.
    pub fn start(&mut self, alloc: Global, shape: &Shape) -> Result<(), NoMemory>
        requires empty { self.old ≡ None }
        requires shape { IsValid shape.now }
        ensures ok { OnOk result (IsSomeAnd self.new (IsStarted shape.now)) }
        ensures err { OnErr result (self.new ≡ None) }
    {
        let started = Started::start(alloc, shape)?;
        self.started = Some(started);
        Ok(())
    }

    /// The store as it is started, or None exactly where it is still empty.
    pub fn into_started(self) -> Option<Started<O, N>>
        ensures { result ≡ self }
    {
        self.started
    }

    /// A store that is started already.
    pub fn of_started(started: Started<O, N>) -> Self
        ensures { result ≡ Some started }
    {
        StoreOf {
            started: Some(started),
        }
    }

    /// The order list of a store that is started.
    pub fn order(&self) -> &O
        requires { IsSome self.now }
        ensures { IsSomeAnd self.now (λ s. O.places result.now ≡ s.places) }
    {
        self.started.as_ref().unwrap().order()
    }

    /// The nodes of a store that is started.
    pub fn node_list(&self) -> &N
        requires { IsSome self.now }
        ensures nodes { N.nodes result.now ≡ nodes_in self.now }
        ensures queue { (N.noted result.now).queue ≡ queue_in self.now }
    {
        self.started.as_ref().unwrap().node_list()
    }

    /// Where a version begins and ends in the order list, or None exactly where there is no such version.
    pub fn ends_of(&self, version: VersionNo) -> Option<(Pos, Pos)>
        ensures { result ≡ option_map (λ (row : VersionRow Place). (row.place.begin, row.place.end)) (slice_get (state_in self.now).versions version.0) }
    {
        let place = self.started.as_ref()?.place_of(version)?;
        Some((place.begin, place.end))
    }

    /// The run that made a version, or None exactly where there is no such version.
    pub fn run_of(&self, version: VersionNo) -> Option<RunNo>
        ensures { result ≡ option_map (λ (row : VersionRow Place). row.run) (slice_get (state_in self.now).versions version.0) }
    {
        match &self.started {
            None => None,
            Some(started) => started.run_of(version),
        }
    }

    /// What is known of every store, also after want of memory: what a store keeps; that the nodes over their capacity wait
    /// and no others; that no more nodes and potential are there than one for each record that was made, six for each pointer
    /// that was written and two for each number; and that no node is over its capacity where nothing waits.
    pub fn whole(&self)
        ensures store { IfSome self.now IsStore }
        ensures kept { IfSome self.now IsKept }
        ensures bounded { IsBounded self.now }
        ensures small { queue_in self.now ≡ [] → IsSmall self.now }
    {
        if let Some(started) = &self.started {
            started.whole();
        }
    }

    /// How many nodes there are.
    pub fn nodes(&self) -> u64
        ensures { result ≡ length (nodes_in self.now) }
    {
        match &self.started {
            None => 0,
            Some(started) => started.node_count(),
        }
    }

    /// The potential: by how many stamped values in all the nodes exceed half of their type's capacity. It goes over all nodes.
    pub fn potential(&self) -> u64
        ensures { result ≡ potential_in self.now }
    {
        match &self.started {
            None => 0,
            Some(started) => started.potential(),
        }
    }

    /// How many stamped values a node of a type of the store has at most where nothing waits: twice the sum of how many
    /// pointer fields the type has and of its in-degree limit.
    pub fn capacity(&self, ty: TypeNo) -> u32
        requires { ty.0 < length (state_in self.now).shape }
        ensures { result ≡ capacity (type_at (state_in self.now).shape ty) }
    {
        match &self.started {
            None => 0,
            Some(started) => started.capacity(ty),
        }
    }

    /// Whether a node waits to be split.
    pub fn pending(&self) -> bool
        ensures { IsTrue result ↔ ¬ (queue_in self.now ≡ []) }
    {
        match &self.started {
            None => false,
            Some(started) => started.pending(),
        }
    }
}
