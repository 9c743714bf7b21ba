//! The answer to a command that is not refused.

ghost use Rattle.std.specs.Prelude.{◌≡◌, IfOk, OnErr, None, drop, map};
ghost use Rattle.pst_engine_runs.specs.Stands.{VersionsStay};
ghost use Rattle.pst_linerun.specs.Carried.{MayCarry, SessionCarries};

use crate::lines::{ask, run};
use crate::session::LineSession;
use pst_base::{NoMemory, RunNo, VersionNo};
use pst_engine_runs::{Meant, known};
use pst_line::calls::LineCalls;
use pst_script::{Command, Parents, Reply};
use std::alloc::Global;

/// The parents of the versions after 0: each comes from the one before it.
fn parents<S: LineCalls>(alloc: Global, store: &S) -> Result<Parents, NoMemory>
    ensures { IfOk result (λ p. p ≡ map (λ row. row.parent) (drop 1 (S.state store.now).versions)) }
{
    store.known_line();
    let mut items = Vec::new(alloc);
    for version in 1..store.count() {
        items.push(VersionNo(version - 1))?;
    }
    Ok(Parents::from_vec(items))
}

/// Carries out a command that is not refused.
pub(crate) fn answer<S: LineCalls, C: Meant>(
    alloc: Global,
    code: &C,
    store: &mut S,
    session: &mut LineSession,
    command: &Command,
) -> Result<Reply, NoMemory>
    requires { MayCarry (C.meant code.now).meaning session.old.budget session.old.next_run.0 (S.state store.old) (S.stored store.old) command.now }
    ensures ok { IfOk result (SessionCarries S.state S.stored (C.meant code.now).meaning session.old store.old command.now session.new store.new) }
    ensures err { OnErr result (VersionsStay (S.state store.old) (S.state store.new)) }
    ensures same_failed { session.new.failed ≡ session.old.failed }
{
    known::<S, C>(code);
    store.known_line();
    let number = session.next_run;
    match command {
        Command::Run(call) => {
            let reply = run(alloc, code, store, session.budget, number, call)?;
            session.next_run = RunNo(number.0 + 1);
            Ok(reply)
        }
        Command::Query(call) => ask(alloc, code, store, session.budget, number, call),
        Command::OpenRun(_)
        | Command::OpenEmpty { .. }
        | Command::CallRun { .. }
        | Command::StepRun { .. }
        | Command::CloseRun { .. }
        | Command::DropRun { .. } => unreachable!(),
        Command::Budget { charges } => {
            session.budget = *charges;
            Ok(Reply::BudgetSet { charges: *charges })
        }
        Command::Versions => Ok(Reply::VersionList(parents(alloc, store)?)),
        Command::Stats => Ok(Reply::LineStatsAre(store.counts())),
    }
}
