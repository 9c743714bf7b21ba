//! The commands that work on heaps: a run and a query.

ghost use Rattle.std.specs.Prelude.{◌≡◌, ◌<◌, IfOk, OnOk, OnErr, None, length};
ghost use Rattle.pst_versions.specs.State.{Unchanged};
ghost use Rattle.pst_script.specs.declared.command.Command.TheVariants as command;
ghost use Rattle.pst_history.specs.History.{queried};
ghost use Rattle.pst_engine_runs.specs.Stands.{VersionsStay};
ghost use Rattle.pst_line.specs.declared.place.LinePlace.{LinePlace};
ghost use Rattle.pst_linerun.specs.Carried.{CarriesQuery, CarriesRun, MayCarry, Settled};

use crate::carrying::carry_out;
use pst_base::{NoMemory, Numbers, RunNo};
use pst_engine_runs::{Meant, known};
use pst_line::calls::LineCalls;
use pst_program::Ended;
use pst_script::{Call, Reply};
use std::alloc::Global;

/// Makes the open run the next version where it is done, and undoes it where it has trapped, and gives the answer.
fn settle<S: LineCalls>(
    store: &mut S,
    run: RunNo,
    printed: Numbers,
    end: Ended,
) -> Result<Reply, NoMemory>
    requires open { (p : LinePlace) × (S.state store.old).writable p }
    requires few { length (S.state store.old).versions < 4294967295 }
    ensures ok { IfOk result (λ r. Settled (S.state store.old) run printed end r (S.state store.new)) }
    ensures closed { OnOk result ((S.stored store.new).opened ≡ None) }
    ensures err { OnErr result (Unchanged (S.state store.old) (S.state store.new)) }
{
    match end {
        Ended::Done => {
            let version = store.publish(run)?;
            Ok(Reply::Version { printed, version })
        }
        Ended::Trapped(trap) => {
            store.undo();
            Ok(Reply::Trapped { printed, trap })
        }
        Ended::Stopped => {
            store.undo();
            Ok(Reply::Answer { printed })
        }
    }
}

/// Carries out a run on the newest version. After `NoMemory` it may still be open, and the versions are those of before.
pub(crate) fn run<S: LineCalls, C: Meant>(
    alloc: Global,
    code: &C,
    store: &mut S,
    budget: u32,
    number: RunNo,
    call: &Call,
) -> Result<Reply, NoMemory>
    requires { MayCarry (C.meant code.now).meaning budget number.0 (S.state store.old) (S.stored store.old) (command.Run call.now) }
    ensures ok { IfOk result (CarriesRun S.state S.stored (C.meant code.now).meaning budget number.0 store.old call.now store.new) }
    ensures err { OnErr result (VersionsStay (S.state store.old) (S.state store.new)) }
{
    known::<S, C>(code);
    store.known_line();
    let at = store.begin();
    store.known();
    let (printed, end) = carry_out(alloc, code, store, at, number, budget, call)?;
    store.known_line();
    let reply = settle(store, number, printed, end)?;
    store.known_line();
    Ok(reply)
}

/// The answer to a query.
fn queried(printed: Numbers, end: Ended) -> Reply
    ensures { result ≡ queried printed end }
{
    match end {
        Ended::Trapped(trap) => Reply::Trapped { printed, trap },
        Ended::Done | Ended::Stopped => Reply::Answer { printed },
    }
}

/// Carries out a query at the place of a version. It is given the next run number, and does not take it.
pub(crate) fn ask<S: LineCalls, C: Meant>(
    alloc: Global,
    code: &C,
    store: &mut S,
    budget: u32,
    number: RunNo,
    call: &Call,
) -> Result<Reply, NoMemory>
    requires { MayCarry (C.meant code.now).meaning budget number.0 (S.state store.old) (S.stored store.old) (command.Query call.now) }
    ensures ok { IfOk result (CarriesQuery S.state S.stored (C.meant code.now).meaning budget number.0 store.old call.now store.new) }
    ensures err { OnErr result (VersionsStay (S.state store.old) (S.state store.new)) }
{
    known::<S, C>(code);
    store.known();
    store.known_line();
    let at = store.at(call.version).unwrap();
    let (printed, end) = carry_out(alloc, code, store, at, number, budget, call)?;
    store.known_line();
    Ok(queried(printed, end))
}
