//! Why a command is refused.

ghost use Rattle.std.specs.Prelude.{◌≡◌};
ghost use Rattle.pst_history.specs.History.{first};
ghost use Rattle.pst_engine_runs.specs.Refused.{version_by, runs_by};
ghost use Rattle.pst_linerun.specs.Carried.{old_by, line_refusal_by};

use pst_base::{RunNo, VersionNo};
use pst_engine_runs::{Meant, refusal_of_procedure, refusal_of_query};
use pst_history::{RUNS, first_of};
use pst_line::calls::LineCalls;
use pst_script::{Command, Refusal};

/// Whether no version has the number.
fn refusal_of_version<S: LineCalls>(store: &S, version: VersionNo) -> Option<Refusal>
    ensures { result ≡ version_by (S.state store.now) version }
{
    if store.count() <= version.0 {
        return Some(Refusal::Version);
    }
    None
}

/// Whether the version is not the newest one.
fn refusal_of_old<S: LineCalls>(store: &S, version: VersionNo) -> Option<Refusal>
    ensures { result ≡ old_by (S.state store.now) version }
{
    if version.0 as u64 + 1 != store.count() as u64 {
        return Some(Refusal::Old);
    }
    None
}

/// Whether all run numbers are taken.
fn refusal_of_runs(next_run: RunNo) -> Option<Refusal>
    ensures { result ≡ runs_by next_run.0 }
{
    if next_run.0 as usize > RUNS {
        return Some(Refusal::Runs);
    }
    None
}

/// The first refusal of a command that holds, if one does.
pub(crate) fn refused<S: LineCalls, C: Meant>(
    code: &C,
    store: &S,
    next_run: RunNo,
    command: &Command,
) -> Option<Refusal>
    ensures { result ≡ line_refusal_by (C.meant code.now).meaning (S.state store.now) next_run.0 command.now }
{
    match command {
        Command::Run(call) => first_of(
            first_of(
                refusal_of_procedure(code, &call.procedure, &call.arguments),
                refusal_of_version(store, call.version),
            ),
            first_of(
                refusal_of_old(store, call.version),
                refusal_of_runs(next_run),
            ),
        ),
        Command::Query(call) => first_of(
            refusal_of_query(code, &call.procedure, &call.arguments),
            refusal_of_version(store, call.version),
        ),
        Command::OpenRun(_) => Some(Refusal::Line),
        Command::OpenEmpty { .. } => Some(Refusal::Line),
        Command::CallRun { .. } => Some(Refusal::Line),
        Command::StepRun { .. } => Some(Refusal::Line),
        Command::CloseRun { .. } => Some(Refusal::Line),
        Command::DropRun { .. } => Some(Refusal::Line),
        Command::Budget { .. } => None,
        Command::Versions => None,
        Command::Stats => None,
    }
}
