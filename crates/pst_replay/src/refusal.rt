//! Why a command is refused.

ghost use Rattle.std.specs.Prelude.{◌≡◌, ◌+◌, length, count_by, nat_le, nat_lt, not};
ghost use Rattle.pst_program.specs.View.{routines_of};
ghost use Rattle.pst_program.specs.Typed.{IsTyped};
ghost use Rattle.pst_script.specs.declared.reply.Refusal.TheVariants as because;
ghost use Rattle.pst_history.specs.Meaning.{when};
ghost use Rattle.pst_history.specs.History.{call_refusal, first, is_full_run, is_open, is_open_run, numbered, refusal};
ghost use Rattle.pst_history.specs.Direct.{meaning_of};
ghost use Rattle.pst_history.specs.Since.{history_for};
ghost use Rattle.pst_history.specs.declared.history.TheConstants.{OPEN_RUNS, RUNS};

use crate::arguments::{refusal_of_procedure, refusal_of_query};
use pst_base::{RunNo, VersionNo};
use pst_history::{CALLS, OPEN_RUNS, RUNS, Run, RunState, Since, first_of};
use pst_program::Program;
use pst_script::{Call, Command, Refusal};

/// Whether no version has the number.
fn refusal_of_version(history: &Since, version: VersionNo) -> Option<Refusal>
    ensures { result ≡ when (nat_le (1 + length history.now.versions) version.0) because.Version }
{
    if history.versions.items.len() < version.0 as usize {
        return Some(Refusal::Version);
    }
    None
}

/// Whether no open run has the number.
fn refusal_of_run(history: &Since, number: RunNo) -> Option<Refusal>
    ensures { result ≡ when (not (is_open_run (numbered 1 history.now.runs number.0))) because.Run }
{
    let at = number.0 as usize;
    if at == 0 || at > history.runs.items.len() || !is_open(&history.runs.items[at - 1]) {
        return Some(Refusal::Run);
    }
    None
}

/// Whether a run may be granted more.
fn is_open(run: &Run) -> bool
    ensures { result ≡ is_open run.now }
{
    match run.state {
        RunState::Open => true,
        RunState::Closed => false,
        RunState::Dropped => false,
    }
}

/// Whether all run numbers are taken.
fn refusal_of_runs(history: &Since) -> Option<Refusal>
    ensures { result ≡ when (nat_lt RUNS (1 + length history.now.runs)) because.Runs }
{
    if history.runs.items.len() >= RUNS {
        return Some(Refusal::Runs);
    }
    None
}

/// Whether as many runs are open as may be.
fn refusal_of_open_runs(open_runs: usize) -> Option<Refusal>
    ensures { result ≡ when (nat_le OPEN_RUNS open_runs) because.RunsOpen }
{
    if open_runs >= OPEN_RUNS {
        return Some(Refusal::RunsOpen);
    }
    None
}

/// Whether a run has as many calls as may be.
fn refusal_of_calls(history: &Since, number: RunNo) -> Option<Refusal>
    ensures { result ≡ when (is_full_run (numbered 1 history.now.runs number.0)) because.Calls }
{
    let at = number.0 as usize;
    if at == 0 || at > history.runs.items.len() {
        return None;
    }
    if history.runs.items[at - 1].calls.items.len() >= CALLS {
        return Some(Refusal::Calls);
    }
    None
}

/// Whether the call of a command is refused: its procedure and arguments, then its version.
fn refusal_of_call(program: &Program, history: &Since, call: &Call) -> Option<Refusal>
    requires typed { IsTyped (routines_of program.now) }
    ensures { result ≡ call_refusal (history_for program.now history.now) ((meaning_of program.now).proc call.now.procedure) call.now }
{
    first_of(
        refusal_of_procedure(
            program,
            call.procedure.as_slice(),
            call.arguments.as_slice(),
        ),
        refusal_of_version(history, call.version),
    )
}

/// Whether a run can't be opened: its number, then how many runs are open.
fn refusal_of_opening(history: &Since, open_runs: usize) -> Option<Refusal>
    ensures { result ≡ first (when (nat_lt RUNS (1 + length history.now.runs)) because.Runs) (when (nat_le OPEN_RUNS open_runs) because.RunsOpen) }
{
    first_of(refusal_of_runs(history), refusal_of_open_runs(open_runs))
}

/// The first refusal of a command that holds, if one does: of the name of a procedure, its arguments, a version or run, or of as
/// many runs or calls as there may be. It looks at no heap and changes nothing.
///
/// `open_runs` is how many runs of the history are open, at most 64. The caller keeps count of them, so that a history of a million
/// runs is not gone through at each line.
#[tactic(auto, unfolding(pst_history::specs::History::refusal))]
pub fn refused(
    program: &Program,
    history: &Since,
    open_runs: usize,
    command: &Command,
) -> Option<Refusal>
    requires typed { IsTyped (routines_of program.now) }
    requires counted { open_runs ≡ count_by is_open history.now.runs }
    ensures { result ≡ refusal (meaning_of program.now) (history_for program.now history.now) command.now }
{
    match command {
        Command::Run(call) => first_of(
            refusal_of_call(program, history, call),
            refusal_of_runs(history),
        ),
        Command::Query(call) => first_of(
            refusal_of_query(
                program,
                call.procedure.as_slice(),
                call.arguments.as_slice(),
            ),
            refusal_of_version(history, call.version),
        ),
        Command::OpenRun(call) => first_of(
            refusal_of_call(program, history, call),
            refusal_of_opening(history, open_runs),
        ),
        Command::OpenEmpty { version } => first_of(
            refusal_of_version(history, *version),
            refusal_of_opening(history, open_runs),
        ),
        Command::CallRun {
            run,
            procedure,
            arguments,
        } => first_of(
            refusal_of_procedure(program, procedure.as_slice(), arguments.as_slice()),
            first_of(
                refusal_of_run(history, *run),
                refusal_of_calls(history, *run),
            ),
        ),
        Command::StepRun { run, .. } => refusal_of_run(history, *run),
        Command::CloseRun { run } => refusal_of_run(history, *run),
        Command::DropRun { run } => refusal_of_run(history, *run),
        Command::Budget { .. } => None,
        Command::Versions => None,
        Command::Stats => None,
    }
}
