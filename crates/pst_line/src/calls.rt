//! What a line store has to be able to do, beside `HeapAt`.

ghost use Rattle.std.specs.Prelude.{◌≡◌, OnOk, OnErr, IfOk, Some, None, false, ◌<◌, length, List, slice_get, nat_lt, if◌then◌else◌};
ghost use Rattle.std.specs.Option.{option_map};
ghost use Rattle.pst_base.specs.Shape.{IsValid};
ghost use Rattle.pst_versions.specs.State.{Unchanged, WritesStay};
ghost use Rattle.pst_line_nodes.specs.Line.{potential};
ghost use Rattle.pst_line.specs.declared.place.LinePlace.{LinePlace};
ghost use Rattle.pst_line.specs.declared.place.Undo.{Undo};
ghost use Rattle.pst_line.specs.Noted.{AreNoted};
ghost use Rattle.pst_line.specs.Store.{Stored, stamp, place_at, IsStored, IsRested, IsClosed, IsEmpty, IsStarted, Means, IsChain, Began, LinePublished, Undone};

use crate::place::LinePlace;
use pst_base::{Counts, NoMemory, NodeId, RunNo, Shape, VersionNo};
use pst_versions::HeapAt;
use std::alloc::Global;

/// A store of a linear history: only the newest version is written, by one run at a time. What the calls do is said of the heap
/// at many places that the store is (`state`); `stored` says besides whether a run is open, and what the nodes are.
pub trait LineCalls: HeapAt<Ref = NodeId, Place = LinePlace> {
    /// What the store holds.
    ghost stored: { Self → Stored };

    /// What the fields had that the open run has written.
    ghost noted: { Self → List Undo };

    /// What is known of every such store. An empty one has no place. While no run is open no store answered Memory. However often
    /// the open run writes, it has noted each field that it has written once, and no other: so much memory an undo needs.
    fn known_line(&self)
        ensures means { Means (Self.state self.now) (stored self.now) }
        ensures chain { IsChain (Self.state self.now) }
        ensures stored { 0 < stamp (stored self.now) → IsStored (stored self.now) }
        ensures rested { 0 < stamp (stored self.now) → (stored self.now).failed ≡ false → IsRested (stored self.now) }
        ensures closed { 0 < stamp (stored self.now) → (stored self.now).opened ≡ None → ((stored self.now).failed ≡ false) × IsClosed (stored self.now) }
        ensures empty { stamp (stored self.now) ≡ 0 → IsEmpty (stored self.now) }
        ensures listed { AreNoted (stored self.now) (noted self.now) };

    /// Gives an empty store version 0, the root record alone. A refusal changes nothing.
    fn start(&mut self, alloc: Global, shape: &Shape) -> Result<(), NoMemory>
        requires empty { IsEmpty (stored self.old) }
        requires valid { IsValid shape.now }
        ensures ok { OnOk result (IsStarted shape.now (stored self.new)) }
        ensures err { OnErr result (self.new ≡ self.old) };

    /// Opens a run. Its place has the newest heap. It takes no memory.
    fn begin(&mut self) -> LinePlace
        requires none { (stored self.old).opened ≡ None }
        requires started { 0 < length (Self.state self.old).versions }
        ensures { Began (Self.state self.old) (Self.state self.new) result };

    /// Gives up the open run: each of its writes is undone, and its records are of no version. It takes no memory. The open
    /// run's place is the one that can be written.
    fn undo(&mut self)
        requires { (p : LinePlace) × (Self.state self.old).writable p }
        ensures undone { Undone (Self.state self.old) (Self.state self.new) }
        ensures closed { (stored self.new).opened ≡ None };

    /// Makes the open run's heap the next version. A refusal changes nothing.
    fn publish(&mut self, run: RunNo) -> Result<VersionNo, NoMemory>
        requires open { (p : LinePlace) × (Self.state self.old).writable p }
        requires few { length (Self.state self.old).versions < 4294967295 }
        ensures ok { IfOk result (λ version. LinePublished (Self.state self.old) (Self.state self.new) run version) }
        ensures closed { OnOk result ((stored self.new).opened ≡ None) }
        ensures err { OnErr result (Unchanged (Self.state self.old) (Self.state self.new) × WritesStay (Self.state self.old) (Self.state self.new)) };

    /// The place of a version, or None exactly where there is none.
    fn at(&self, version: VersionNo) -> Option<LinePlace>
        ensures place { result ≡ option_map (λ row. row.place) (slice_get (Self.state self.now).versions version.0) }
        ensures number { result ≡ (if nat_lt version.0 (length (Self.state self.now).versions) then Some (place_at version.0) else None) };

    /// How many versions there are.
    fn count(&self) -> u32
        ensures { result ≡ length (Self.state self.now).versions };

    /// What was made and written.
    fn counts(&self) -> Counts
        ensures { result ≡ (Self.state self.now).counts };

    /// How many nodes there are.
    fn nodes(&self) -> u64
        ensures { result ≡ (stored self.now).line.count };

    /// How many values are stamped in newest nodes. It goes over all nodes.
    fn potential(&self) -> u64
        ensures { result ≡ potential (stored self.now).line };
}
