//! The answer to a command that is not refused.

ghost use Rattle.std.specs.Prelude.{◌≡◌, ◌<◌, ◌+◌, IfOk, OnErr, length, map, drop, slice_get, Some};
ghost use Rattle.pst_engine_runs.specs.Stands.{VersionsStay};
ghost use Rattle.pst_engine.specs.Stands.{Carries, MayAnswer};

use crate::engine::Engine;
use crate::lines::{ask, call_run, close_run, drop_run, open_empty, open_run, run, step_run};
use pst_base::{NoMemory, VersionNo};
use pst_engine_runs::{Meant, known};
use pst_script::{Command, Parents, Reply};
use pst_versions::VersionedHeap;
use std::alloc::Global;

/// The parents of the versions after 0.
fn parents<H: VersionedHeap>(alloc: Global, heap: &H) -> Result<Parents, NoMemory>
    ensures { IfOk result (λ p. p ≡ map (λ row. row.parent) (drop 1 (H.state heap.now).versions)) }
{
    let mut items = Vec::new(alloc);
    for version in 1..heap.count() {
        items.push(heap.parent(VersionNo(version)).unwrap())?;
    }
    Ok(Parents::from_vec(items))
}

/// Carries out a command that is not refused.
pub(crate) fn answer<H: VersionedHeap, C: Meant>(
    alloc: Global,
    code: &C,
    heap: &mut H,
    engine: &mut Engine<H>,
    command: &Command,
) -> Result<Reply, NoMemory>
    requires { MayAnswer (C.meant code.now) engine.old (H.state heap.old) command.now }
    ensures ok { IfOk result (Carries (C.meant code.now) engine.old (H.state heap.old) command.now engine.new (H.state heap.new)) }
    ensures err { OnErr result (VersionsStay (H.state heap.old) (H.state heap.new)) }
    ensures same_failed { engine.new.failed ≡ engine.old.failed }
{
    heap.known_versions();
    known::<H, C>(code);
    match command {
        Command::Run(call) => run(alloc, code, heap, engine, call),
        Command::Query(call) => ask(alloc, code, heap, engine, call),
        Command::OpenRun(call) => open_run(alloc, code, heap, engine, call),
        Command::OpenEmpty { version } => open_empty(alloc, code, heap, engine, *version),
        Command::CallRun {
            run,
            procedure,
            arguments,
        } => call_run(code, heap, engine, *run, procedure, arguments),
        Command::StepRun { run, charges } => step_run(code, heap, engine, *run, *charges),
        Command::CloseRun { run } => close_run(code, heap, engine, *run),
        Command::DropRun { run } => Ok(drop_run(code, heap, engine, *run)),
        Command::Budget { charges } => {
            engine.budget = *charges;
            Ok(Reply::BudgetSet { charges: *charges })
        }
        Command::Versions => Ok(Reply::VersionList(parents(alloc, heap)?)),
        Command::Stats => Ok(Reply::StatsAre(heap.counts())),
    }
}
