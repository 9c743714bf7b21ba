//! The commands, one function each.

ghost use Rattle.std.specs.Prelude.{◌≡◌, IfOk, OnErr};
ghost use Rattle.pst_script.specs.declared.command.Command.TheVariants as command;
ghost use Rattle.pst_engine_runs.specs.Stands.{VersionsStay};
ghost use Rattle.pst_engine.specs.Stands.{Carries, CarriesCall, MayAnswer};

use crate::closing::close;
use crate::engine::Engine;
use crate::opening::{open, open_with};
use pst_base::{NoMemory, Numbers, RunNo, Text, VersionNo};
use pst_engine_runs::{Meant, call, index_of, query, step};
use pst_script::{Call, Reply};
use pst_versions::VersionedHeap;
use std::alloc::Global;

/// Opens a run with one call, and gives the index of its entry.
pub(crate) fn open_run<H: VersionedHeap, C: Meant>(
    alloc: Global,
    code: &C,
    heap: &mut H,
    engine: &mut Engine<H>,
    first: &Call,
) -> Result<Reply, NoMemory>
    requires { MayAnswer (C.meant code.now) engine.old (H.state heap.old) (command.OpenRun first.now) }
    ensures ok { IfOk result (Carries (C.meant code.now) engine.old (H.state heap.old) (command.OpenRun first.now) engine.new (H.state heap.new)) }
    ensures stay { VersionsStay (H.state heap.old) (H.state heap.new) }
    ensures same_failed { engine.new.failed ≡ engine.old.failed }
{
    let run = engine.next_run;
    let budget = engine.budget;
    open_with(
        alloc,
        code,
        heap,
        &mut engine.active.items,
        budget,
        run,
        first,
    )?;
    engine.next_run = RunNo(run.0 + 1);
    Ok(Reply::Opened { run })
}

/// Opens a run without a call.
pub(crate) fn open_empty<H: VersionedHeap, C: Meant>(
    alloc: Global,
    code: &C,
    heap: &mut H,
    engine: &mut Engine<H>,
    version: VersionNo,
) -> Result<Reply, NoMemory>
    requires { MayAnswer (C.meant code.now) engine.old (H.state heap.old) (command.OpenEmpty version) }
    ensures ok { IfOk result (Carries (C.meant code.now) engine.old (H.state heap.old) (command.OpenEmpty version) engine.new (H.state heap.new)) }
    ensures stay { VersionsStay (H.state heap.old) (H.state heap.new) }
    ensures same_failed { engine.new.failed ≡ engine.old.failed }
{
    let run = engine.next_run;
    let budget = engine.budget;
    open(
        alloc,
        code,
        heap,
        &mut engine.active.items,
        budget,
        run,
        version,
    )?;
    engine.next_run = RunNo(run.0 + 1);
    Ok(Reply::Opened { run })
}

/// Opens a run with one call, and carries it to its end.
pub(crate) fn run<H: VersionedHeap, C: Meant>(
    alloc: Global,
    code: &C,
    heap: &mut H,
    engine: &mut Engine<H>,
    first: &Call,
) -> Result<Reply, NoMemory>
    requires { MayAnswer (C.meant code.now) engine.old (H.state heap.old) (command.Run first.now) }
    ensures ok { IfOk result (Carries (C.meant code.now) engine.old (H.state heap.old) (command.Run first.now) engine.new (H.state heap.new)) }
    ensures err { OnErr result (VersionsStay (H.state heap.old) (H.state heap.new)) }
    ensures same_failed { engine.new.failed ≡ engine.old.failed }
{
    let run = engine.next_run;
    let budget = engine.budget;
    let active = &mut engine.active.items;
    let at = open_with(alloc, code, heap, active, budget, run, first)?;
    let reply = close(code, heap, active, at, run)?;
    engine.next_run = RunNo(run.0 + 1);
    Ok(reply)
}

/// Adds a call to an open run.
pub(crate) fn call_run<H: VersionedHeap, C: Meant>(
    code: &C,
    heap: &mut H,
    engine: &mut Engine<H>,
    run: RunNo,
    procedure: &Text,
    arguments: &Numbers,
) -> Result<Reply, NoMemory>
    requires { MayAnswer (C.meant code.now) engine.old (H.state heap.old) (command.CallRun run procedure.now arguments.now) }
    ensures ok { IfOk result (CarriesCall (C.meant code.now) engine.old (H.state heap.old) run procedure.now arguments.now engine.new (H.state heap.new)) }
    ensures stay { VersionsStay (H.state heap.old) (H.state heap.new) }
    ensures same_failed { engine.new.failed ≡ engine.old.failed }
{
    let at = index_of(&engine.active, run);
    call(
        code,
        heap,
        &mut engine.active.items,
        at,
        run,
        procedure,
        arguments,
    )
}

/// Grants an open run more charges.
pub(crate) fn step_run<H: VersionedHeap, C: Meant>(
    code: &C,
    heap: &mut H,
    engine: &mut Engine<H>,
    run: RunNo,
    charges: u32,
) -> Result<Reply, NoMemory>
    requires { MayAnswer (C.meant code.now) engine.old (H.state heap.old) (command.StepRun run charges) }
    ensures ok { IfOk result (Carries (C.meant code.now) engine.old (H.state heap.old) (command.StepRun run charges) engine.new (H.state heap.new)) }
    ensures stay { VersionsStay (H.state heap.old) (H.state heap.new) }
    ensures same_failed { engine.new.failed ≡ engine.old.failed }
{
    let at = index_of(&engine.active, run);
    step(code, heap, &mut engine.active.items, at, run, charges)
}

/// Carries an open run to its end.
pub(crate) fn close_run<H: VersionedHeap, C: Meant>(
    code: &C,
    heap: &mut H,
    engine: &mut Engine<H>,
    run: RunNo,
) -> Result<Reply, NoMemory>
    requires { MayAnswer (C.meant code.now) engine.old (H.state heap.old) (command.CloseRun run) }
    ensures ok { IfOk result (Carries (C.meant code.now) engine.old (H.state heap.old) (command.CloseRun run) engine.new (H.state heap.new)) }
    ensures err { OnErr result (VersionsStay (H.state heap.old) (H.state heap.new)) }
    ensures same_failed { engine.new.failed ≡ engine.old.failed }
{
    let at = index_of(&engine.active, run);
    close(code, heap, &mut engine.active.items, at, run)
}

/// Gives an open run up.
pub(crate) fn drop_run<H: VersionedHeap, C: Meant>(
    _code: &C,
    _heap: &H,
    engine: &mut Engine<H>,
    run: RunNo,
) -> Reply
    requires { MayAnswer (C.meant _code.now) engine.old (H.state _heap.now) (command.DropRun run) }
    ensures carries { Carries (C.meant _code.now) engine.old (H.state _heap.now) (command.DropRun run) engine.new (H.state _heap.now) result }
    ensures same_failed { engine.new.failed ≡ engine.old.failed }
{
    let at = index_of(&engine.active, run);
    engine.active.items.remove(at);
    Reply::Dropped { run }
}

/// Carries out a query.
pub(crate) fn ask<H: VersionedHeap, C: Meant>(
    alloc: Global,
    code: &C,
    heap: &mut H,
    engine: &Engine<H>,
    first: &Call,
) -> Result<Reply, NoMemory>
    requires { MayAnswer (C.meant code.now) engine.now (H.state heap.old) (command.Query first.now) }
    ensures ok { IfOk result (Carries (C.meant code.now) engine.now (H.state heap.old) (command.Query first.now) engine.now (H.state heap.new)) }
    ensures stay { VersionsStay (H.state heap.old) (H.state heap.new) }
{
    query(alloc, code, heap, engine.budget, engine.next_run, first)
}
