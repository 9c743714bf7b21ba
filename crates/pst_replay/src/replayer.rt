//! The replayer.

ghost use Rattle.std.specs.Prelude.{◌≡◌, ◌+◌, ◌≤◌, IfOk, OnErr, IsErr, None, count_by, true, false, List};
ghost use Rattle.pst_base.specs.declared.shape.TypeShape.{TypeShape};
ghost use Rattle.pst_program.specs.declared.program.Program.{Program};
ghost use Rattle.pst_program.specs.View.{routines_of};
ghost use Rattle.pst_program.specs.Typed.{IsTyped};
ghost use Rattle.pst_script.specs.declared.reply.Reply.TheVariants as answer;
ghost use Rattle.pst_script.specs.declared.reply.Refusal.{Refusal};
ghost use Rattle.pst_script.specs.Commands.{in_range};
ghost use Rattle.pst_history.specs.History.{begun, opening};
ghost use Rattle.pst_replay.specs.Replay.{AnswersFor, MayApply, kept, open_after};
ghost use Rattle.pst_history.specs.declared.history.TheConstants.{RUNS};

use crate::answer::answer;
use crate::history::NumberedHistory;
use crate::refusal::refused;
use pst_base::NoMemory;
use pst_program::Program;
use pst_script::{Command, Reply};
use std::alloc::Global;

/// Keeps the history of a script, and no heap: each answer executes the runs on the path from version 0 again.
#[derive(Drop)]
pub struct Replayer {
    alloc: Global,
    /// Memory was wanting: no more is answered.
    pub failed: bool,
    /// What has happened since the opening with version 0 alone, with the calls by number.
    pub history: NumberedHistory,
    /// How many runs are open, so that they need not be counted at each line.
    pub open_runs: usize,
}

/// How many runs are open after a command that is not refused.
fn open_after(open_runs: usize, command: &Command) -> usize
    requires { open_runs ≤ RUNS + 1 }
    ensures { result ≡ open_after open_runs command.now }
{
    match command {
        Command::OpenRun(_) => open_runs + 1,
        Command::OpenEmpty { .. } => open_runs + 1,
        Command::CloseRun { .. } => open_runs.saturating_sub(1),
        Command::DropRun { .. } => open_runs.saturating_sub(1),
        Command::Run(_) => open_runs,
        Command::Query(_) => open_runs,
        Command::CallRun { .. } => open_runs,
        Command::StepRun { .. } => open_runs,
        Command::Budget { .. } => open_runs,
        Command::Versions => open_runs,
        Command::Stats => open_runs,
    }
}

impl Replayer {
    /// A replayer with the history of the opening, in which version 0 is alone. It takes no memory.
    pub fn new(alloc: Global) -> Replayer
        ensures failed { result.failed ≡ false }
        ensures history { (shape : List TypeShape) → kept shape result.history ≡ begun (opening shape) }
        ensures may { (program : Program) → IsTyped (routines_of program) → MayApply program result }
    {
        Replayer {
            alloc,
            failed: false,
            history: NumberedHistory::nothing(alloc),
            open_runs: 0,
        }
    }

    /// Answers a command of the history kept, which becomes the history after the command. A refused command changes
    /// nothing. Want of memory is the one fault: the replayer is failed then, answers the same from then on, and stays as
    /// it is. The program is the same at each call, and the numbers of the commands before are such as a line can give.
    ///
    /// # Errors
    /// Where there was no memory.
    #[tactic(auto, unfolding(pst_history::specs::History::reply, pst_history::specs::History::after))]
    pub fn apply(&mut self, program: &Program, command: &Command) -> Result<Reply, NoMemory>
        requires typed { IsTyped (routines_of program.now) }
        requires may { self.old.failed ≡ false → MayApply program.now self.old }
        ensures ok { IfOk result (λ r. (self.old.failed ≡ false) × (self.new.failed ≡ false)) }
        ensures answers { IfOk result (λ r. AnswersFor program.now self.old.history command.now r self.new.history) }
        ensures refused { IfOk result (λ r. (why : Refusal) → r ≡ answer.Refused why → self.new ≡ self.old) }
        ensures may { IfOk result (λ r. in_range command.now ≡ true → MayApply program.now self.new) }
        ensures err { OnErr result (self.new.failed ≡ true) }
        ensures failed { self.old.failed ≡ true → OnErr result (self.new ≡ self.old) × IsErr result }
    {
        if self.failed {
            return Err(NoMemory);
        }
        if let Some(refusal) = refused(program, &self.history.since, self.open_runs, command) {
            return Ok(Reply::Refused(refusal));
        }
        self.failed = true;
        let reply = answer(self.alloc, program, &mut self.history, command)?;
        self.open_runs = open_after(self.open_runs, command);
        self.failed = false;
        Ok(reply)
    }
}
