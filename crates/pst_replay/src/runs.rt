//! Runs: a call more, more charges, an end, and all at once.

ghost use Rattle.std.specs.Prelude.{◌≡◌, ◌+◌, ◌≤◌, IfOk, OnOk, IsSome, IsTrue, length};
ghost use Rattle.pst_script.specs.declared.command.Command.TheVariants as command;
ghost use Rattle.pst_script.specs.declared.reply.Reply.TheVariants as answer;
ghost use Rattle.pst_program.specs.View.{routines_of};
ghost use Rattle.pst_program.specs.Typed.{IsTyped};
ghost use Rattle.pst_history.specs.History.{run_at, is_open_run, ended};
ghost use Rattle.pst_history.specs.Sound.{IsSoundHistory};
ghost use Rattle.pst_history.specs.Direct.{meaning_of};
ghost use Rattle.pst_history.specs.Since.{Opens};
ghost use Rattle.pst_replay.specs.Replay.{IsNumbered, TellsProgress, kept_for, Accepts, reply_for, changed_for, Finishes};
ghost use Rattle.pst_history.specs.declared.history.TheConstants.{RUNS};

use crate::history::NumberedHistory;
use crate::path::outcome_under;
use pst_base::{NoMemory, Numbers, RunNo, Text, VersionNo};
use pst_eval::Outcome;
use pst_history::{
    NamedCalls, Since, grant, named_call, next_number, one_call, publish, run_of, shut,
};
use pst_program::{Ended, Program};
use pst_script::{Call, Reply};
use std::alloc::Global;

/// Opens a run on a version, and gives its number.
pub(crate) fn begin(
    alloc: Global,
    program: &Program,
    history: &mut NumberedHistory,
    version: VersionNo,
    calls: NamedCalls,
) -> Result<Reply, NoMemory>
    requires typed { IsTyped (routines_of program.now) }
    requires numbered { IsNumbered program.now history.old }
    requires few { length history.old.since.runs ≤ RUNS }
    ensures number { IfOk result (λ r. r ≡ answer.Opened (record { 0 = 1 + length history.old.since.runs })) }
    ensures opens { OnOk result (Opens version calls history.old.since history.new.since) }
    ensures numbered { OnOk result (IsNumbered program.now history.new) }
{
    let run = next_number(&history.since);
    history.open(alloc, program, version, calls)?;
    Ok(Reply::Opened { run })
}

/// Whether a run has ended under its grant.
fn progress(
    alloc: Global,
    program: &Program,
    history: &NumberedHistory,
    number: RunNo,
) -> Result<Reply, NoMemory>
    requires typed { IsTyped (routines_of program.now) }
    requires sound { IsSoundHistory (meaning_of program.now) (kept_for program.now history.now) }
    requires numbered { IsNumbered program.now history.now }
    requires there { IsSome (run_at (kept_for program.now history.now) number.0) }
    ensures { IfOk result (TellsProgress program.now history.now number) }
{
    let outcome = outcome_under(alloc, program, history, number)?;
    match outcome.ended {
        Ended::Stopped => Ok(Reply::Running { run: number }),
        Ended::Done | Ended::Trapped(_) => Ok(Reply::Finished { run: number }),
    }
}

/// Grants an open run more charges.
pub(crate) fn step(
    alloc: Global,
    program: &Program,
    history: &mut NumberedHistory,
    number: RunNo,
    charges: u32,
) -> Result<Reply, NoMemory>
    requires typed { IsTyped (routines_of program.now) }
    requires sound { IsSoundHistory (meaning_of program.now) (kept_for program.now history.old) }
    requires numbered { IsNumbered program.now history.old }
    requires accepted { Accepts program.now history.old (command.StepRun number charges) }
    ensures reply { IfOk result (λ r. r ≡ reply_for program.now history.old (command.StepRun number charges)) }
    ensures changed { OnOk result (kept_for program.now history.new ≡ changed_for program.now history.old (command.StepRun number charges)) }
    ensures numbered { OnOk result (IsNumbered program.now history.new) }
{
    grant(&mut history.since, number, charges);
    progress(alloc, program, history, number)
}

/// Adds a call to an open run.
pub(crate) fn call(
    alloc: Global,
    program: &Program,
    history: &mut NumberedHistory,
    number: RunNo,
    procedure: &Text,
    arguments: &Numbers,
) -> Result<Reply, NoMemory>
    requires typed { IsTyped (routines_of program.now) }
    requires sound { IsSoundHistory (meaning_of program.now) (kept_for program.now history.old) }
    requires numbered { IsNumbered program.now history.old }
    requires accepted { Accepts program.now history.old (command.CallRun number procedure.now arguments.now) }
    ensures reply { IfOk result (λ r. r ≡ reply_for program.now history.old (command.CallRun number procedure.now arguments.now)) }
    ensures changed { OnOk result (kept_for program.now history.new ≡ changed_for program.now history.old (command.CallRun number procedure.now arguments.now)) }
    ensures numbered { OnOk result (IsNumbered program.now history.new) }
{
    history.add(program, number, named_call(procedure, arguments)?)?;
    progress(alloc, program, history, number)
}

/// Publishes the version of a run that was carried to its end, where it is done.
fn finish(
    history: &mut Since,
    number: RunNo,
    parent: VersionNo,
    outcome: Outcome,
) -> Result<Reply, NoMemory>
    requires { length history.old.versions ≤ RUNS }
    ensures reply { IfOk result (λ r. r ≡ ended (1 + length history.old.versions) outcome.printed outcome.ended) }
    ensures version { OnOk result (Finishes number.0 parent outcome.ended history.old history.new) }
{
    match outcome.ended {
        Ended::Done => {
            let version = publish(history, number, parent)?;
            Ok(Reply::Version {
                printed: outcome.printed,
                version,
            })
        }
        Ended::Trapped(trap) => Ok(Reply::Trapped {
            printed: outcome.printed,
            trap,
        }),
        Ended::Stopped => Ok(Reply::Answer {
            printed: outcome.printed,
        }),
    }
}

/// Carries an open run to its end, and publishes its version where it is done.
pub(crate) fn close(
    alloc: Global,
    program: &Program,
    history: &mut NumberedHistory,
    number: RunNo,
) -> Result<Reply, NoMemory>
    requires typed { IsTyped (routines_of program.now) }
    requires sound { IsSoundHistory (meaning_of program.now) (kept_for program.now history.old) }
    requires numbered { IsNumbered program.now history.old }
    requires open { IsTrue (is_open_run (run_at (kept_for program.now history.old) number.0)) }
    ensures reply { IfOk result (λ r. r ≡ reply_for program.now history.old (command.CloseRun number)) }
    ensures closed { OnOk result (kept_for program.now history.new ≡ changed_for program.now history.old (command.CloseRun number)) }
    ensures numbered { OnOk result (IsNumbered program.now history.new) }
{
    shut(&mut history.since, number);
    let outcome = outcome_under(alloc, program, history, number)?;
    let parent = run_of(&history.since, number).parent;
    finish(&mut history.since, number, parent, outcome)
}

/// Opens a run and closes it at once.
pub(crate) fn run(
    alloc: Global,
    program: &Program,
    history: &mut NumberedHistory,
    call: &Call,
) -> Result<Reply, NoMemory>
    requires typed { IsTyped (routines_of program.now) }
    requires sound { IsSoundHistory (meaning_of program.now) (kept_for program.now history.old) }
    requires numbered { IsNumbered program.now history.old }
    requires accepted { Accepts program.now history.old (command.Run call.now) }
    ensures reply { IfOk result (λ r. r ≡ reply_for program.now history.old (command.Run call.now)) }
    ensures changed { OnOk result (kept_for program.now history.new ≡ changed_for program.now history.old (command.Run call.now)) }
    ensures numbered { OnOk result (IsNumbered program.now history.new) }
{
    let number = next_number(&history.since);
    history.open(alloc, program, call.version, one_call(alloc, call)?)?;
    close(alloc, program, history, number)
}
