//! Why a command is refused.

ghost use Rattle.std.specs.Prelude.{◌≡◌, ◌<◌, IfSome, IsSome, length, position};
ghost use Rattle.pst_history.specs.History.{first};
ghost use Rattle.pst_history.specs.Meaning.{kinds_refusal};
ghost use Rattle.pst_engine_runs.specs.Stands.{IsRunAt};
ghost use Rattle.pst_engine_runs.specs.Refused.{is_run, entry_of, version_by, call_by, runs_by, open_by, run_by, calls_by, refusal_by};

use crate::entry::{Activations, OpenEntry};
use crate::{Meant, refusal_of_procedure, refusal_of_query};
use pst_base::{RunNo, VersionNo};
use pst_history::{CALLS, OPEN_RUNS, RUNS, first_of};
use pst_script::{Call, Command, Refusal};
use pst_versions::VersionedHeap;

/// Whether an entry is that of a run.
fn is_run<H: VersionedHeap>(entry: &OpenEntry<H>, run: RunNo) -> bool
    ensures { result ≡ is_run run entry.now }
{
    entry.run.0 == run.0
}

/// The index of the entry of a run.
fn entry_at<H: VersionedHeap>(active: &[OpenEntry<H>], run: RunNo) -> Option<usize>
    ensures { result ≡ position (is_run run) active.now }
{
    active.iter().position(|entry| is_run(entry, run))
}

/// The index of the entry of a run that stands as far behind the first entry as its number is above that of the first: so it does
/// where all runs that were opened from that one on are open yet. None where no run or another one stands there.
fn expected_at<H: VersionedHeap>(active: &[OpenEntry<H>], run: RunNo) -> Option<usize>
    ensures within { IfSome result (λ at. at < length active.now) }
    ensures run { IfSome result (λ at. IsRunAt active.now at run) }
{
    if active.is_empty() || run.0 < active[0].run.0 {
        return None;
    }
    let at = (run.0 - active[0].run.0) as usize;
    if at < active.len() && is_run(&active[at], run) {
        return Some(at);
    }
    None
}

/// The index of the entry of a run that is open.
pub fn index_of<H: VersionedHeap>(active: &Activations<H>, run: RunNo) -> usize
    requires { IsSome (position (is_run run) active.now.items.items) }
    ensures at { result < length active.now.items.items }
    ensures run { IsRunAt active.now.items.items result run }
{
    let entries = active.items.as_slice();
    if let Some(at) = expected_at(entries, run) {
        return at;
    }
    entry_at(entries, run).unwrap()
}

/// Whether no version has the number.
fn refusal_of_version<H: VersionedHeap>(heap: &H, version: VersionNo) -> Option<Refusal>
    ensures { result ≡ version_by (H.state heap.now) version }
{
    if heap.count() <= version.0 {
        return Some(Refusal::Version);
    }
    None
}

/// Whether all run numbers are taken.
fn refusal_of_runs(next_run: RunNo) -> Option<Refusal>
    ensures { result ≡ runs_by next_run.0 }
{
    if next_run.0 as usize > RUNS {
        return Some(Refusal::Runs);
    }
    None
}

/// Whether as many runs are open as may be.
fn refusal_of_open_runs<H: VersionedHeap>(active: &[OpenEntry<H>]) -> Option<Refusal>
    ensures { result ≡ open_by active.now }
{
    if active.len() >= OPEN_RUNS {
        return Some(Refusal::RunsOpen);
    }
    None
}

/// Whether no open run has the number.
fn refusal_of_run<H: VersionedHeap>(active: &[OpenEntry<H>], run: RunNo) -> Option<Refusal>
    ensures { result ≡ run_by (entry_of active.now run) }
{
    if expected_at(active, run).is_some() {
        return None;
    }
    match entry_at(active, run) {
        None => Some(Refusal::Run),
        Some(_) => None,
    }
}

/// Whether no open run has the number, or the run has as many calls as may be.
fn refusal_of_calls<H: VersionedHeap>(active: &[OpenEntry<H>], run: RunNo) -> Option<Refusal>
    ensures { result ≡ calls_by (entry_of active.now run) }
{
    match entry_at(active, run) {
        None => Some(Refusal::Run),
        Some(at) => {
            if active[at].calls as usize >= CALLS {
                return Some(Refusal::Calls);
            }
            None
        }
    }
}

/// Whether a procedure that may write can't be called so, or the version is not there.
fn refusal_of_call<H: VersionedHeap, C: Meant>(code: &C, heap: &H, call: &Call) -> Option<Refusal>
    ensures { result ≡ call_by (H.state heap.now) (kinds_refusal ((C.meant code.now).meaning.proc call.now.procedure) call.now.arguments) call.now.version }
{
    first_of(
        refusal_of_procedure(code, &call.procedure, &call.arguments),
        refusal_of_version(heap, call.version),
    )
}

/// Whether no further run may be opened.
fn refusal_of_opening<H: VersionedHeap>(active: &[OpenEntry<H>], next_run: RunNo) -> Option<Refusal>
    ensures { result ≡ first (runs_by next_run.0) (open_by active.now) }
{
    first_of(refusal_of_runs(next_run), refusal_of_open_runs(active))
}

/// Why a command is refused, by what open runs and heap hold: the first refusal that holds, or None where none does.
pub fn refused<H: VersionedHeap, C: Meant>(
    code: &C,
    heap: &H,
    active: &[OpenEntry<H>],
    next_run: RunNo,
    command: &Command,
) -> Option<Refusal>
    ensures { result ≡ refusal_by (C.meant code.now).meaning (H.state heap.now) active.now next_run.0 command.now }
{
    match command {
        Command::Run(call) => first_of(
            refusal_of_call(code, heap, call),
            refusal_of_runs(next_run),
        ),
        Command::Query(call) => first_of(
            refusal_of_query(code, &call.procedure, &call.arguments),
            refusal_of_version(heap, call.version),
        ),
        Command::OpenRun(call) => first_of(
            refusal_of_call(code, heap, call),
            refusal_of_opening(active, next_run),
        ),
        Command::OpenEmpty { version } => first_of(
            refusal_of_version(heap, *version),
            refusal_of_opening(active, next_run),
        ),
        Command::CallRun {
            run,
            procedure,
            arguments,
        } => first_of(
            refusal_of_procedure(code, procedure, arguments),
            refusal_of_calls(active, *run),
        ),
        Command::StepRun { run, .. } => refusal_of_run(active, *run),
        Command::CloseRun { run } => refusal_of_run(active, *run),
        Command::DropRun { run } => refusal_of_run(active, *run),
        Command::Budget { .. } => None,
        Command::Versions => None,
        Command::Stats => None,
    }
}
