//! Runs that are opened.

ghost use Rattle.std.specs.Prelude.{◌≡◌, ◌+◌, ◌<◌, ◌∷◌, [], IfOk, OnOk, length};
ghost use Rattle.pst_history.specs.History.{call_of};
ghost use Rattle.pst_engine_runs.specs.Stands.{IsRunAt, VersionsStay};
ghost use Rattle.pst_engine.specs.Changes.{MayOpenSome, Opens, OpensWith};

use pst_base::{NoMemory, RunNo, VersionNo};
use pst_engine_runs::{Meant, OpenEntry, bare, call, known, place_at};
use pst_script::Call;
use pst_versions::VersionedHeap;
use std::alloc::Global;

/// Opens a run without a call on the heap of a version, and gives the index of its entry.
pub(crate) fn open<H: VersionedHeap, C: Meant>(
    alloc: Global,
    code: &C,
    heap: &mut H,
    active: &mut Vec<OpenEntry<H>>,
    budget: u32,
    next_run: RunNo,
    version: VersionNo,
) -> Result<usize, NoMemory>
    requires { MayOpenSome (C.meant code.now) active.old.items budget next_run.0 (H.state heap.old) version [] }
    ensures ok { OnOk result (Opens (C.meant code.now) active.old.items budget next_run.0 (H.state heap.old) version [] active.new.items (H.state heap.new)) }
    ensures at { IfOk result (λ at. (at < length active.new.items) × IsRunAt active.new.items at next_run) }
    ensures stay { VersionsStay (H.state heap.old) (H.state heap.new) }
{
    heap.known();
    heap.known_versions();
    known::<H, C>(code);
    let place = heap.fork(place_at(heap, version))?;
    let activation = bare(code, alloc, place, next_run, budget)?;
    heap.known();
    let at = active.len();
    active.push(OpenEntry {
        run: next_run,
        parent: version,
        calls: 0,
        activation,
    })?;
    Ok(at)
}

/// Opens a run with one call, and gives the index of its entry.
pub(crate) fn open_with<H: VersionedHeap, C: Meant>(
    alloc: Global,
    code: &C,
    heap: &mut H,
    active: &mut Vec<OpenEntry<H>>,
    budget: u32,
    next_run: RunNo,
    first: &Call,
) -> Result<usize, NoMemory>
    requires { MayOpenSome (C.meant code.now) active.old.items budget next_run.0 (H.state heap.old) first.now.version (call_of first.now ∷ []) }
    ensures ok { OnOk result (OpensWith (C.meant code.now) active.old.items budget next_run.0 (H.state heap.old) first.now active.new.items (H.state heap.new)) }
    ensures at { IfOk result (λ at. (at < length active.new.items) × IsRunAt active.new.items at next_run) }
    ensures stay { VersionsStay (H.state heap.old) (H.state heap.new) }
{
    let at = open(alloc, code, heap, active, budget, next_run, first.version)?;
    call(
        code,
        heap,
        active,
        at,
        next_run,
        &first.procedure,
        &first.arguments,
    )?;
    Ok(at)
}
