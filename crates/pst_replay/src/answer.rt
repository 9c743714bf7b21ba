//! The answers to commands that are not refused.

ghost use Rattle.std.specs.Prelude.{◌≡◌, ◌^◌, IfOk, OnOk, IsSome, Some};
ghost use Rattle.pst_program.specs.View.{routines_of};
ghost use Rattle.pst_program.specs.Typed.{IsTyped};
ghost use Rattle.pst_program.specs.Sound.{CountsWithin};
ghost use Rattle.pst_script.specs.declared.command.Command.TheVariants as command;
ghost use Rattle.pst_history.specs.declared.history.Run.{Run};
ghost use Rattle.pst_base.specs.Counts.{counts_plus};
ghost use Rattle.pst_history.specs.History.{run_at, run_counts, counts_of, queried};
ghost use Rattle.pst_history.specs.Sound.{IsSoundHistory};
ghost use Rattle.pst_history.specs.Direct.{meaning_of};
ghost use Rattle.pst_replay.specs.Replay.{IsNumbered, kept_for, Accepts, reply_for, changed_for};

use crate::history::NumberedHistory;
use crate::path::{outcome_under, worked};
use crate::program::numbered_calls;
use crate::runs::{begin, call, close, run, step};
use pst_base::{Counts, NoMemory, RunNo};
use pst_eval::Outcome;
use pst_history::{NamedCalls, Run, RunState, give_up, next_number, one_call, parents};
use pst_program::{Ended, Program};
use pst_script::{Call, Command, Reply};
use std::alloc::Global;

/// The answer to a query that came to this.
fn queried(outcome: Outcome) -> Reply
    ensures { result ≡ queried outcome.printed outcome.ended }
{
    match outcome.ended {
        Ended::Trapped(trap) => Reply::Trapped {
            printed: outcome.printed,
            trap,
        },
        Ended::Done | Ended::Stopped => Reply::Answer {
            printed: outcome.printed,
        },
    }
}

/// Answers a query, which is given the next run number and does not take it.
fn query(
    alloc: Global,
    program: &Program,
    history: &NumberedHistory,
    call: &Call,
) -> Result<Reply, NoMemory>
    requires typed { IsTyped (routines_of program.now) }
    requires sound { IsSoundHistory (meaning_of program.now) (kept_for program.now history.now) }
    requires numbered { IsNumbered program.now history.now }
    requires accepted { Accepts program.now history.now (command.Query call.now) }
    ensures { IfOk result (λ r. r ≡ reply_for program.now history.now (command.Query call.now)) }
{
    let calls = one_call(alloc, call)?;
    let by_number = numbered_calls(alloc, program, &calls)?;
    let run = Run {
        parent: call.version,
        calls,
        budget: history.since.budget,
        granted: history.since.budget,
        state: RunState::Open,
    };
    let number = next_number(&history.since);
    let outcome = worked(alloc, program, history, number, &run, by_number.as_slice())?;
    Ok(queried(outcome))
}

/// What a run counted under its grant.
fn counts_under(
    alloc: Global,
    program: &Program,
    history: &NumberedHistory,
    number: RunNo,
) -> Result<Counts, NoMemory>
    requires typed { IsTyped (routines_of program.now) }
    requires sound { IsSoundHistory (meaning_of program.now) (kept_for program.now history.now) }
    requires numbered { IsNumbered program.now history.now }
    requires there { IsSome (run_at (kept_for program.now history.now) number.0) }
    ensures counts { IfOk result (λ c. (r : Run) → run_at (kept_for program.now history.now) number.0 ≡ Some r →
        c ≡ run_counts (meaning_of program.now) (kept_for program.now history.now) number.0 r) }
    ensures few { IfOk result (λ c. CountsWithin c 4294967295) }
{
    let outcome = outcome_under(alloc, program, history, number)?;
    Ok(outcome.counts)
}

/// The sum of two counts.
fn plus(a: Counts, b: Counts) -> Counts
    requires a { CountsWithin a (2 ^ 60) }
    requires b { CountsWithin b 4294967295 }
    ensures { result ≡ counts_plus a b }
{
    Counts {
        records: a.records + b.records,
        pointer_writes: a.pointer_writes + b.pointer_writes,
        value_writes: a.value_writes + b.value_writes,
    }
}

/// The root record, and what all runs counted, whether open, closed, trapped or dropped. It executes each run once, and
/// before it the runs on the path to its version.
fn stats(alloc: Global, program: &Program, history: &NumberedHistory) -> Result<Counts, NoMemory>
    requires typed { IsTyped (routines_of program.now) }
    requires sound { IsSoundHistory (meaning_of program.now) (kept_for program.now history.now) }
    requires numbered { IsNumbered program.now history.now }
    ensures { IfOk result (λ c. c ≡ counts_of (meaning_of program.now) (kept_for program.now history.now)) }
{
    let mut total = Counts {
        records: 1,
        pointer_writes: 0,
        value_writes: 0,
    };
    for at in 0..history.since.runs.items.len() {
        let counts = counts_under(alloc, program, history, RunNo(at as u32 + 1))?;
        total = plus(total, counts);
    }
    Ok(total)
}

/// Carries out a command that is not refused.
pub(crate) fn answer(
    alloc: Global,
    program: &Program,
    history: &mut NumberedHistory,
    command: &Command,
) -> Result<Reply, NoMemory>
    requires typed { IsTyped (routines_of program.now) }
    requires sound { IsSoundHistory (meaning_of program.now) (kept_for program.now history.old) }
    requires numbered { IsNumbered program.now history.old }
    requires accepted { Accepts program.now history.old command.now }
    ensures reply { IfOk result (λ r. r ≡ reply_for program.now history.old command.now) }
    ensures changed { OnOk result (kept_for program.now history.new ≡ changed_for program.now history.old command.now) }
    ensures numbered { OnOk result (IsNumbered program.now history.new) }
{
    match command {
        Command::Run(call) => run(alloc, program, history, call),
        Command::Query(call) => query(alloc, program, history, call),
        Command::OpenRun(call) => {
            begin(
                alloc,
                program,
                history,
                call.version,
                one_call(alloc, call)?,
            )
        }
        Command::OpenEmpty { version } => {
            begin(alloc, program, history, *version, NamedCalls::new(alloc))
        }
        Command::CallRun {
            run,
            procedure,
            arguments,
        } => call(alloc, program, history, *run, procedure, arguments),
        Command::StepRun { run, charges } => step(alloc, program, history, *run, *charges),
        Command::CloseRun { run } => close(alloc, program, history, *run),
        Command::DropRun { run } => {
            give_up(&mut history.since, *run);
            Ok(Reply::Dropped { run: *run })
        }
        Command::Budget { charges } => {
            history.since.budget = *charges;
            Ok(Reply::BudgetSet { charges: *charges })
        }
        Command::Versions => Ok(Reply::VersionList(parents(alloc, &history.since)?)),
        Command::Stats => Ok(Reply::StatsAre(stats(alloc, program, history)?)),
    }
}
