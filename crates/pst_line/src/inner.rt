//! A store that is started.

use crate::line_nodes::LineNodes;
use crate::place::{LinePlace, Stretch};
use crate::undo_list::UndoList;
use pst_base::{Counts, Name, NoMemory, NodeId, ROOT, RunNo, Shape, SlotNo, TypeNo, VersionNo};
use pst_line_nodes::content::{Content, Stamp};
use std::alloc::Global;
use std::marker::Model;

/// A store with version 0 at least. Its `root` is a node of the root record that is live at the newest stamp: the newest one, unless
/// memory was wanting.
#[derive(Drop)]
pub(crate) struct Core<N: LineNodes> {
    pub(crate) shape: Shape,
    pub(crate) nodes: N,
    pub(crate) undo: UndoList,
    pub(crate) versions: Vec<Stretch>,
    pub(crate) opened: Option<u64>,
    pub(crate) failed: bool,
    pub(crate) counts: Counts,
    pub(crate) root: NodeId,
}

impl<N: LineNodes> Model for Core<N> {
    ghost use Rattle.pst_line.specs.Held.{Held, IsHeld};

    ghost Value = { Held };

    ghost view = { λ s. record { shape = s.shape; nodes = N.seen s.nodes; undo = s.undo; versions = s.versions.items; opened = s.opened; failed = s.failed; counts = s.counts; root = s.root } };

    ghost invariant = { λ s. IsHeld (record { shape = s.shape; nodes = N.seen s.nodes; undo = s.undo; versions = s.versions.items; opened = s.opened; failed = s.failed; counts = s.counts; root = s.root }) };
}

impl<N: LineNodes> Core<N> {
    ghost use Rattle.std.specs.Prelude.{◌≡◌, ◌<◌, Some, None, OnOk, OnErr, IfOk, IfSome, IsSome, false, length, if◌then◌else◌, nat_lt};
    ghost use Rattle.std.specs.Option.{option_map};
    ghost use Rattle.pst_base.specs.declared.names.Kind.TheVariants.{Int};
    ghost use Rattle.pst_base.specs.Heap.{kind_in, type_in, value_in, pointer_in, IsPointer};
    ghost use Rattle.pst_base.specs.Name.{root_name};
    ghost use Rattle.pst_line.specs.declared.place.LinePlace.{LinePlace};
    ghost use Rattle.pst_versions.specs.State.{Unchanged, WritesStay};
    ghost use Rattle.pst_line_nodes.specs.Line.{potential};
    ghost use Rattle.pst_base.specs.Shape.{IsValid};
    ghost use Rattle.pst_line.specs.Store.{state_of, place_at, Began, IsStarted, LinePublished};
    ghost use Rattle.pst_line.specs.Held.{IsHeld, line_in, stored_of};

    /// A store with version 0, which has the root record alone.
    pub(crate) fn start(alloc: Global, shape: &Shape) -> Result<Core<N>, NoMemory>
        requires { IsValid shape.now }
        ensures { IfOk result (λ core. IsStarted shape.now (stored_of core)) }
    {
        let mut nodes = N::none(alloc);
        let root = nodes.make(shape, ROOT, TypeNo(0), Stamp(0))?;
        let mut versions = Vec::new(alloc);
        versions.push(Stretch {
            run: RunNo(0),
            from: root.0,
            to: nodes.count(),
            root,
        })?;
        Ok(Core {
            shape: shape.copy(alloc)?,
            nodes,
            undo: UndoList::new(alloc),
            versions,
            opened: None,
            failed: false,
            counts: Counts {
                records: 1,
                pointer_writes: 0,
                value_writes: 0,
            },
            root,
        })
    }

    /// What is known of every store.
    pub(crate) fn whole(&self)
        ensures { IsHeld self.now }
    {
        let _ = &self.counts;
    }

    // The stamp of the open run, or of the next one.
    pub(crate) fn stamp(&self) -> Stamp
        ensures { result.0 ≡ length self.now.versions }
    {
        Stamp(self.versions.len() as u32)
    }

    /// The root record, at a place: the node that its version keeps, or the newest one.
    pub(crate) fn root(&self, at: LinePlace) -> NodeId
        requires { (state_of (stored_of self.now)).has at }
        ensures name { (state_of (stored_of self.now)).name result ≡ root_name }
        ensures live { (state_of (stored_of self.now)).live at result }
    {
        match self.versions.get(at.stamp.0 as usize) {
            Some(version) => version.root,
            None => self.root,
        }
    }

    /// The number in a field of a record, at a place.
    pub(crate) fn number(&self, at: LinePlace, r: NodeId, field: SlotNo) -> i64
        requires live { (state_of (stored_of self.now)).live at r }
        requires field { let s = state_of (stored_of self.now) in kind_in s.shape (s.heap at) (s.name r) field.0 ≡ Some Int }
        ensures { let s = state_of (stored_of self.now) in result ≡ value_in (s.heap at) (s.name r) field.0 }
    {
        let x = self.nodes.cover(r, at.stamp);
        number_of(self.nodes.read(x, field, at.stamp))
    }

    /// The record that a field holds, at a place, or None exactly where the field is null.
    pub(crate) fn pointer(&self, at: LinePlace, r: NodeId, field: SlotNo) -> Option<NodeId>
        requires live { (state_of (stored_of self.now)).live at r }
        requires field { let s = state_of (stored_of self.now) in IsPointer (kind_in s.shape (s.heap at) (s.name r) field.0) }
        ensures target { let s = state_of (stored_of self.now) in option_map s.name result ≡ pointer_in (s.heap at) (s.name r) field.0 }
        ensures live { IfSome result ((state_of (stored_of self.now)).live at) }
    {
        let x = self.nodes.cover(r, at.stamp);
        target_of(self.nodes.read(x, field, at.stamp))
    }

    /// The name of a record.
    pub(crate) fn name(&self, r: NodeId) -> Name
        requires { (p : LinePlace) × (state_of (stored_of self.now)).live p r }
        ensures { result ≡ (state_of (stored_of self.now)).name r }
    {
        self.nodes.name(r)
    }

    /// The type of a record.
    pub(crate) fn ty(&self, r: NodeId) -> TypeNo
        requires { (p : LinePlace) × (state_of (stored_of self.now)).live p r }
        ensures { let s = state_of (stored_of self.now) in (p : LinePlace) → s.live p r → type_in (s.heap p) (s.name r) ≡ Some result }
    {
        self.nodes.ty(r)
    }

    /// Opens a run. Its place has the newest heap. It takes no memory.
    pub(crate) fn begin(&mut self) -> LinePlace
        requires { self.old.opened ≡ None }
        ensures { Began (state_of (stored_of self.old)) (state_of (stored_of self.new)) result }
    {
        self.opened = Some(self.nodes.count());
        LinePlace {
            stamp: self.stamp(),
        }
    }

    /// Makes the open run's heap the next version. A refusal changes nothing.
    pub(crate) fn publish(&mut self, run: RunNo) -> Result<VersionNo, NoMemory>
        requires open { IsSome self.old.opened }
        requires whole { self.old.failed ≡ false }
        requires few { length self.old.versions < 4294967295 }
        ensures ok { IfOk result (λ version. LinePublished (state_of (stored_of self.old)) (state_of (stored_of self.new)) run version) }
        ensures closed { OnOk result (self.new.opened ≡ None) }
        ensures err { OnErr result (self.new ≡ self.old) }
    {
        let version = VersionNo(self.stamp().0);
        let to = self.nodes.count();
        let from = self.opened.unwrap_or(to);
        self.versions.push(Stretch {
            run,
            from,
            to,
            root: self.root,
        })?;
        self.opened = None;
        self.undo = UndoList::new(self.undo.allocator());
        Ok(version)
    }

    /// The place of a version, or None exactly where there is none.
    pub(crate) fn place_of(&self, version: VersionNo) -> Option<LinePlace>
        ensures { result ≡ (if nat_lt version.0 (length self.now.versions) then Some (place_at version.0) else None) }
    {
        if version.0 < self.stamp().0 {
            Some(LinePlace {
                stamp: Stamp(version.0),
            })
        } else {
            None
        }
    }

    /// How many versions there are.
    pub(crate) fn count(&self) -> u32
        ensures { result ≡ length self.now.versions }
    {
        self.stamp().0
    }

    /// What was made and written.
    pub(crate) fn counts(&self) -> Counts
        ensures { result ≡ self.now.counts }
    {
        self.counts
    }

    /// How many nodes there are.
    pub(crate) fn node_count(&self) -> u64
        ensures { result ≡ length self.now.nodes }
    {
        self.nodes.count()
    }

    /// How many values are stamped in newest nodes. It goes over all nodes.
    pub(crate) fn potential(&self) -> u64
        ensures { result ≡ potential (line_in self.now) }
    {
        self.nodes.potential()
    }
}

ghost use Rattle.std.specs.Prelude.{◌≡◌};
ghost use Rattle.std.specs.Option.{option_map};
ghost use Rattle.pst_line_nodes.specs.Line.{number};
ghost use Rattle.pst_line.specs.Held.{target};

// The number that a field holds, or 0.
fn number_of(content: Content) -> i64
    ensures { result ≡ number content }
{
    match content {
        Content::Number(n) => n,
        Content::Null | Content::Target(_) => 0,
    }
}

// The node that a field holds.
fn target_of(content: Content) -> Option<NodeId>
    ensures { result ≡ target content }
{
    match content {
        Content::Target(y) => Some(y),
        Content::Null | Content::Number(_) => None,
    }
}
