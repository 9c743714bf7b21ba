//! Slices of open runs.

ghost use Rattle.std.specs.Prelude.{◌≡◌, ◌<◌, ◌^◌, IfOk, OnOk, length};
ghost use Rattle.pst_history.specs.History.{granted_more, stepped};
ghost use Rattle.pst_engine_runs.specs.Runs.{named};
ghost use Rattle.pst_engine_runs.specs.Stands.{IsRunAt, StandForSome, VersionsStay};
ghost use Rattle.pst_engine_runs.specs.Changes.{Calls, MayCallSome, Steps};

use crate::entry::OpenEntry;
use crate::{Meant, add, advance, known};
use pst_base::{NoMemory, Numbers, RunNo, Text};
use pst_program::Ended;
use pst_script::Reply;
use pst_versions::VersionedHeap;

/// The answer to a run that was executed as far as its grant reaches.
fn stepped(run: RunNo, end: Ended) -> Reply
    ensures { result ≡ stepped run end }
{
    match end {
        Ended::Stopped => Reply::Running { run },
        Ended::Done | Ended::Trapped(_) => Reply::Finished { run },
    }
}

/// Grants an open run more charges, executes it as far as they reach, and gives the answer. The versions are those of before,
/// also where memory was wanting.
///
/// # Errors
/// Where there was no memory.
pub fn step<H: VersionedHeap, C: Meant>(
    code: &C,
    heap: &mut H,
    active: &mut Vec<OpenEntry<H>>,
    at: usize,
    run: RunNo,
    charges: u32,
) -> Result<Reply, NoMemory>
    requires at { at < length active.old.items }
    requires run { IsRunAt active.old.items at run }
    requires stands { StandForSome (C.meant code.now) active.old.items (H.state heap.old) }
    ensures ok { IfOk result (Steps (C.meant code.now) active.old.items (H.state heap.old) run (granted_more charges) active.new.items (H.state heap.new)) }
    ensures stay { VersionsStay (H.state heap.old) (H.state heap.new) }
{
    heap.known();
    heap.known_versions();
    known::<H, C>(code);
    let end = advance(code, &mut active[at].activation, heap, charges)?;
    Ok(stepped(run, end))
}

/// Adds a call to an open run, executes it as far as the charges granted so far reach, and gives the answer. The run keeps its
/// place among the entries, and the versions are those of before, also where memory was wanting.
///
/// # Errors
/// Where there was no memory.
pub fn call<H: VersionedHeap, C: Meant>(
    code: &C,
    heap: &mut H,
    active: &mut Vec<OpenEntry<H>>,
    at: usize,
    run: RunNo,
    procedure: &Text,
    arguments: &Numbers,
) -> Result<Reply, NoMemory>
    requires at { at < length active.old.items }
    requires run { IsRunAt active.old.items at run }
    requires stands { MayCallSome (C.meant code.now) active.old.items (H.state heap.old) run (named procedure.now arguments.now) }
    ensures ok { IfOk result (Calls (C.meant code.now) active.old.items (H.state heap.old) run procedure.now arguments.now active.new.items (H.state heap.new)) }
    ensures same_run { OnOk result ((at < length active.new.items) × IsRunAt active.new.items at run) }
    ensures stay { VersionsStay (H.state heap.old) (H.state heap.new) }
{
    heap.known();
    heap.known_versions();
    known::<H, C>(code);
    let entry = &mut active[at];
    add(code, &mut entry.activation, procedure, arguments)?;
    entry.calls += 1;
    let end = advance(code, &mut entry.activation, heap, 0)?;
    Ok(stepped(run, end))
}
