//! A session with its store, and what it answered last.

ghost use Rattle.std.specs.Prelude.{◌≡◌, Some, OnOk, true};
ghost use Rattle.pst_script.specs.Commands.{in_range, reading};
ghost use Rattle.pst_history.specs.History.{reply, after};
ghost use Rattle.pst_cli_scripts.specs.Script.{by_tree, answer_of, line_reply, after_line};
ghost use Rattle.persist_live.specs.Standing.{OnEach, StandsFor, StandsForSome, printed_in, said_in};

use crate::arguments::call_of;
use crate::kept::{printed_in, put_text};
use pst_base::{NoMemory, Text, VersionNo};
use pst_cli_scripts::{Session, reply_to};
use pst_cli_serving::Running;
use pst_order::LabelOrder;
use pst_script::{Command, Reply};
use pst_store::Store;
use pst_store_arena::Arena;
use std::alloc::Global;

/// A program's session with its store. After a call that gave `NoMemory`, but for those of questions and of the image, it is to be let go.
#[derive(Drop)]
pub struct Live {
    /// What answers commands.
    pub session: Running<LabelOrder, Arena>,
    /// The versions.
    pub store: Store,
    /// The program's canonical text.
    pub text: Text,
    /// The reply to the last line or call, if it has one.
    pub reply: Option<Reply>,
    /// The bytes that were made last.
    pub said: Vec<u8>,
}

impl Live {
    /// Carries a line of a script out. The reply, if it has one, and its text are kept.
    ///
    /// # Errors
    /// Where there was no memory.
    pub fn line(&mut self, alloc: Global, line: &[u8]) -> Result<(), NoMemory>
        requires { StandsForSome self.old }
        ensures stands { OnOk result (StandsForSome self.new) }
        ensures after { OnOk result (OnEach self.old (λ m h. StandsFor self.new m (after_line by_tree line.now m h))) }
        ensures reply { OnOk result (OnEach self.old (λ m h. self.new.reply ≡ answer_of by_tree m h (reading line.now))) }
        ensures said { OnOk result (OnEach self.old (λ m h. said_in self.new ≡ line_reply by_tree line.now m h)) }
        ensures program { OnOk result (self.new.session.code ≡ self.old.session.code) }
        ensures text { OnOk result (self.new.text ≡ self.old.text) }
    {
        let reply = reply_to(alloc, &mut self.session, &mut self.store, line)?;
        put_text(&mut self.said, &reply)?;
        self.reply = reply;
        Ok(())
    }

    /// Carries a command out whose numbers a line can give. The reply is kept, and its text is not made.
    ///
    /// # Errors
    /// Where there was no memory.
    pub fn apply(&mut self, alloc: Global, command: &Command) -> Result<(), NoMemory>
        requires stands { StandsForSome self.old }
        requires range { in_range command.now ≡ true }
        ensures stands { OnOk result (StandsForSome self.new) }
        ensures after { OnOk result (OnEach self.old (λ m h. StandsFor self.new m (after m h command.now))) }
        ensures reply { OnOk result (OnEach self.old (λ m h. self.new.reply ≡ Some (reply m h command.now))) }
        ensures program { OnOk result (self.new.session.code ≡ self.old.session.code) }
        ensures text { OnOk result (self.new.text ≡ self.old.text) }
    {
        let reply = self.session.apply(alloc, &mut self.store, command)?;
        self.reply = Some(reply);
        Ok(())
    }

    /// Runs a procedure on a version with these arguments, as the line `run` with these words does. The reply is kept, and its text is not made.
    ///
    /// # Errors
    /// Where there was no memory.
    pub fn run(
        &mut self,
        alloc: Global,
        version: VersionNo,
        procedure: &[u8],
        arguments: &[i64],
    ) -> Result<(), NoMemory>
        requires { StandsForSome self.old }
        ensures stands { OnOk result (StandsForSome self.new) }
        ensures after { OnOk result (OnEach self.old (λ m h. StandsFor self.new m (after m h (Command.Run (record { version = version; procedure = procedure.now; arguments = arguments.now }))))) }
        ensures reply { OnOk result (OnEach self.old (λ m h. self.new.reply ≡ Some (reply m h (Command.Run (record { version = version; procedure = procedure.now; arguments = arguments.now }))))) }
        ensures program { OnOk result (self.new.session.code ≡ self.old.session.code) }
        ensures text { OnOk result (self.new.text ≡ self.old.text) }
    {
        let call = call_of(alloc, version, procedure, arguments)?;
        self.apply(alloc, &Command::Run(call))
    }

    /// Asks a query on a version with these arguments, as the line `query` with these words does. The reply is kept, and its text is not made.
    ///
    /// # Errors
    /// Where there was no memory.
    pub fn query(
        &mut self,
        alloc: Global,
        version: VersionNo,
        query: &[u8],
        arguments: &[i64],
    ) -> Result<(), NoMemory>
        requires { StandsForSome self.old }
        ensures stands { OnOk result (StandsForSome self.new) }
        ensures after { OnOk result (OnEach self.old (λ m h. StandsFor self.new m (after m h (Command.Query (record { version = version; procedure = query.now; arguments = arguments.now }))))) }
        ensures reply { OnOk result (OnEach self.old (λ m h. self.new.reply ≡ Some (reply m h (Command.Query (record { version = version; procedure = query.now; arguments = arguments.now }))))) }
        ensures program { OnOk result (self.new.session.code ≡ self.old.session.code) }
        ensures text { OnOk result (self.new.text ≡ self.old.text) }
    {
        let call = call_of(alloc, version, query, arguments)?;
        self.apply(alloc, &Command::Query(call))
    }

    /// The numbers that the last reply printed.
    pub fn printed(&self) -> &[i64]
        ensures { result.now ≡ printed_in self.now.reply }
    {
        printed_in(&self.reply)
    }
}
