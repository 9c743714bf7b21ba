//! What answers the commands of a script.

ghost use Rattle.std.specs.Prelude.{◌≡◌, true, IfOk, OnOk, OnErr};
ghost use Rattle.pst_program.specs.declared.program.Program.{Program};
ghost use Rattle.pst_program.specs.View.{routines_of};
ghost use Rattle.pst_program.specs.Typed.{IsTyped};
ghost use Rattle.pst_script.specs.Commands.{in_range};
ghost use Rattle.pst_history.specs.Meaning.{Meaning};
ghost use Rattle.pst_history.specs.History.{History};
ghost use Rattle.pst_history.specs.Direct.{meaning_of};
ghost use Rattle.pst_cli_scripts.specs.Script.{Rules};
ghost use Rattle.pst_cli_scripts.specs.Kept.{first_history};
ghost use Rattle.pst_cli_scripts.specs.Sessions.{StandForSome, OnEachHistory, BreaksBetween};

use pst_base::NoMemory;
use pst_program::Program;
use pst_script::{Command, Reply};
use std::alloc::Global;

/// What answers commands one after another, by a program and by what is held beside it.
pub trait Session: Drop {
    /// What is held beside it, and handed in at each call.
    type Held;

    /// How it answers commands, and the opening with which it begins.
    ghost rules: { Rules };

    /// The program whose commands it answers.
    ghost about: { Self → Program };

    /// What is held is as a session may begin with it.
    ghost fresh: { Self.Held → Type 0 };

    /// The program has this meaning, and the session and what is held stand for this history of it.
    ghost stands: { Self → Self.Held → Meaning → History → Type 0 };

    /// What is held is what is left in this history of a program with this meaning.
    ghost leaves: { Meaning → Self.Held → History → Type 0 };

    /// The same after want of memory in the command before or behind this history.
    ghost breaks: { Meaning → Self.Held → History → Type 0 };

    /// A session that stands for the history of its program before the first command, with the opening of its rules. After `NoMemory` what is held is as
    /// before.
    fn begin(alloc: Global, program: Program, held: &mut Self::Held) -> Result<Self, NoMemory>
        requires typed { IsTyped (routines_of program) }
        requires fresh { fresh held.old }
        ensures stands { IfOk result (λ session. stands session held.new (meaning_of program) (first_history rules (meaning_of program))) }
        ensures about { IfOk result (λ session. about session ≡ program) }
        ensures err { OnErr result (held.new ≡ held.old) };

    /// What is held where they stand for a history.
    fn known(&self, held: &Self::Held)
        ensures leaves { (m : Meaning) (h : History) → stands self.now held.now m h → leaves m held.now h }
        ensures breaks { (m : Meaning) (h : History) → stands self.now held.now m h → breaks m held.now h };

    /// The program.
    fn program(&self) -> &Program
        ensures { result.now ≡ about self.now };

    /// Answers a command whose numbers a line can give. For each history that they stand for, the answer is its reply by the rules, and
    /// afterwards they stand for the history after the command. Want of memory is the one fault, and the last answer:
    /// what is held is then as it is left in the history before the command, or in the one after it.
    fn apply(
        &mut self,
        alloc: Global,
        held: &mut Self::Held,
        command: &Command,
    ) -> Result<Reply, NoMemory>
        requires stands { StandForSome stands self.old held.old }
        requires range { in_range command.now ≡ true }
        ensures about { about self.new ≡ about self.old }
        ensures answer { IfOk result (λ r. OnEachHistory stands self.old held.old (λ m h. r ≡ rules.reply m h command.now)) }
        ensures stands { OnOk result (OnEachHistory stands self.old held.old (λ m h. stands self.new held.new m (rules.after m h command.now))) }
        ensures breaks { OnErr result (OnEachHistory stands self.old held.old (BreaksBetween breaks held.new (λ m h. rules.after m h command.now))) };
}
