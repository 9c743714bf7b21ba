//! The heap of a version, by the path from version 0.

ghost use Rattle.std.specs.Prelude.{◌≡◌, ◌<◌, ◌≤◌, ℕ, ◌+◌, IfOk, OnOk, IsSome, length, Some, slice_get};
ghost use Rattle.pst_base.specs.Heap.{OrdinaryHeap};
ghost use Rattle.pst_program.specs.Outcome.{calls_of};
ghost use Rattle.pst_program.specs.View.{routines_of};
ghost use Rattle.pst_program.specs.Typed.{IsTyped};
ghost use Rattle.pst_history.specs.declared.history.Descent.{Descent};
ghost use Rattle.pst_history.specs.Meaning.{IsWork};
ghost use Rattle.pst_history.specs.History.{heap_of, outcome_of, run_at, version_count, work_of};
ghost use Rattle.pst_history.specs.Sound.{IsSoundHistory, made_below};
ghost use Rattle.pst_history.specs.Direct.{meaning_of};
ghost use Rattle.pst_replay.specs.Replay.{IsEnd, IsEndOfRun, IsNumbered, IsPath, direct_calls, kept_for, parent_in};

use crate::history::NumberedHistory;
use crate::program::{execute, first_heap};
use pst_base::{NoMemory, RunNo, VersionNo};
use pst_eval::Outcome;
use pst_heap::PlainHeap;
use pst_history::{Run, Since, run_of, version_of};
use pst_program::{ProcCall, Program};
use std::alloc::Global;

/// The versions from this one down to 1, each the parent of the one before.
fn path_to(alloc: Global, history: &Since, version: VersionNo) -> Result<Vec<u32>, NoMemory>
    requires parents { (i : ℕ) (v : Descent) → slice_get history.now.versions i ≡ Some v → v.parent.0 ≤ i }
    requires there { version.0 ≤ length history.now.versions }
    ensures { IfOk result (λ path. IsPath history.now.versions 0 version.0 path.items) }
{
    let mut path = Vec::new(alloc);
    let mut at = version.0;
    while at > 0 {
        path.push(at)?;
        at = version_of(history, at).parent.0;
    }
    Ok(path)
}

/// Carries the heap of a version's parent on to that of the version, by the run that made it.
fn carry(
    alloc: Global,
    program: &Program,
    history: &NumberedHistory,
    heap: &mut PlainHeap,
    version: u32,
) -> Result<(), NoMemory>
    requires typed { IsTyped (routines_of program.now) }
    requires sound { IsSoundHistory (meaning_of program.now) (kept_for program.now history.now) }
    requires numbered { IsNumbered program.now history.now }
    requires above { 0 < version }
    requires there { version ≤ length history.now.since.versions }
    requires shape { heap.old.shape ≡ (meaning_of program.now).shape }
    requires heap { heap.old.heap ≡ heap_of (meaning_of program.now) (kept_for program.now history.now) (parent_in history.now.since.versions version) }
    ensures shape { OnOk result (heap.new.shape ≡ (meaning_of program.now).shape) }
    ensures heap { OnOk result (heap.new.heap ≡ heap_of (meaning_of program.now) (kept_for program.now history.now) version) }
{
    let made = version_of(&history.since, version);
    let run = run_of(&history.since, made.run);
    let calls = history.calls_of_run(made.run);
    execute(alloc, program, heap, made.run, run, calls, run.budget)?;
    Ok(())
}

/// The heap of a version: the runs on the path from version 0 are executed again, one after another.
fn heap_at(
    alloc: Global,
    program: &Program,
    history: &NumberedHistory,
    version: VersionNo,
) -> Result<PlainHeap, NoMemory>
    requires typed { IsTyped (routines_of program.now) }
    requires sound { IsSoundHistory (meaning_of program.now) (kept_for program.now history.now) }
    requires numbered { IsNumbered program.now history.now }
    requires there { version.0 ≤ length history.now.since.versions }
    ensures shape { IfOk result (λ heap. heap.shape ≡ (meaning_of program.now).shape) }
    ensures heap { IfOk result (λ heap. heap.heap ≡ heap_of (meaning_of program.now) (kept_for program.now history.now) version.0) }
{
    let mut path = path_to(alloc, &history.since, version)?;
    let mut heap = first_heap(alloc, program)?;
    let mut at = 0;
    while let Some(next) = path.pop() {
        carry(alloc, program, history, &mut heap, next)?;
        at = next;
    }
    let _ = at;
    Ok(heap)
}

/// What a run with a number, and with these calls by number, comes to under its grant on the heap of its parent.
pub(crate) fn worked(
    alloc: Global,
    program: &Program,
    history: &NumberedHistory,
    number: RunNo,
    run: &Run,
    calls: &[ProcCall],
) -> Result<Outcome, NoMemory>
    requires typed { IsTyped (routines_of program.now) }
    requires sound { IsSoundHistory (meaning_of program.now) (kept_for program.now history.now) }
    requires numbered { IsNumbered program.now history.now }
    requires calls { calls_of calls.now ≡ direct_calls program.now run.now }
    requires there { run.now.parent.0 < version_count (kept_for program.now history.now) }
    requires older { made_below (kept_for program.now history.now).start history.now.since.versions run.now.parent.0 ≤ number.0 }
    requires work { IsWork (meaning_of program.now) (work_of number.0 run.now) }
    ensures { IfOk result (IsEnd (outcome_of (meaning_of program.now) (kept_for program.now history.now) number.0 run.now run.now.granted)) }
{
    let mut heap = heap_at(alloc, program, history, run.parent)?;
    execute(alloc, program, &mut heap, number, run, calls, run.granted)
}

/// What a run of the history comes to under its grant.
pub(crate) fn outcome_under(
    alloc: Global,
    program: &Program,
    history: &NumberedHistory,
    number: RunNo,
) -> Result<Outcome, NoMemory>
    requires typed { IsTyped (routines_of program.now) }
    requires sound { IsSoundHistory (meaning_of program.now) (kept_for program.now history.now) }
    requires numbered { IsNumbered program.now history.now }
    requires there { IsSome (run_at (kept_for program.now history.now) number.0) }
    ensures { IfOk result (IsEndOfRun program.now history.now number.0) }
{
    let run = run_of(&history.since, number);
    let calls = history.calls_of_run(number);
    worked(alloc, program, history, number, run, calls)
}
