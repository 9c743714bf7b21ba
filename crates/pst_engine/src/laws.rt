//! How an engine and a heap begin, as laws.

ghost use Rattle.std.specs.Prelude.{◌≡◌, ◌+◌, ◌<◌, ◌≤◌, []};
ghost use Rattle.pst_history.specs.History.{begun, opening};
ghost use Rattle.pst_history.specs.Sound.{IsBudget};
ghost use Rattle.pst_engine.specs.Stands.{EngineStands, IsOpeningHeap, IsStartedHeap, opening_of};
ghost use Rattle.pst_history.specs.declared.history.TheConstants.{BUDGET, RUNS};

use crate::engine::Engine;
use pst_engine_runs::{Meant, known};
use pst_versions::VersionedHeap;

/// An engine without open runs and a heap, whose versions have runs of their own below the engine's next run number, and forks in the
/// order of these runs, and in which no record has a run number from that one on, stand for the opening that has the heap's versions,
/// heaps and counts, with no run since.
pub fn an_opening_stands<H: VersionedHeap, C: Meant>(code: &C, heap: &H, engine: &Engine<H>)
    requires idle { engine.now.active.items.items ≡ [] }
    requires next_run { (0 < engine.now.next_run.0) × (engine.now.next_run.0 ≤ RUNS + 1) }
    requires budget { IsBudget engine.now.budget }
    requires heap { IsOpeningHeap (C.meant code.now).meaning (H.state heap.now) engine.now.next_run.0 }
    ensures { EngineStands (C.meant code.now) engine.now (H.state heap.now) (begun (opening_of (H.state heap.now) engine.now.next_run.0 engine.now.budget)) }
{
    heap.known();
    heap.known_versions();
    known::<H, C>(code);
}

/// A new engine and a heap as it is started stand for the opening of `run`.
pub fn a_new_engine_stands<H: VersionedHeap, C: Meant>(code: &C, heap: &H, engine: &Engine<H>)
    requires new { (engine.now.active.items.items ≡ []) × (engine.now.next_run.0 ≡ 1) × (engine.now.budget ≡ BUDGET) }
    requires heap { IsStartedHeap (C.meant code.now).meaning (H.state heap.now) }
    ensures { EngineStands (C.meant code.now) engine.now (H.state heap.now) (begun (opening (C.meant code.now).meaning.shape)) }
{
    heap.known();
    heap.known_versions();
    known::<H, C>(code);
}
