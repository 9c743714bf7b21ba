//! The session.

ghost use Rattle.std.specs.Prelude.{◌≡◌, false, true, IfOk, IsErr, OnErr};
ghost use Rattle.pst_script.specs.Commands.{in_range};
ghost use Rattle.pst_script.specs.declared.reply.Reply.TheVariants as answer;
ghost use Rattle.pst_script.specs.declared.reply.Refusal.{Refusal};
ghost use Rattle.pst_linerun.specs.Carried.{Answers, MayApply, Wants};
ghost use Rattle.pst_history.specs.declared.history.TheConstants.{BUDGET};

use crate::answer::answer;
use crate::refusal::refused;
use pst_base::{NoMemory, RunNo};
use pst_engine_runs::Meant;
use pst_history::BUDGET;
use pst_line::calls::LineCalls;
use pst_script::{Command, Reply};
use std::alloc::Global;

/// A session over a store of a linear history: it keeps no history and no heap. Two sessions with equal fields answer alike.
#[derive(Drop)]
pub struct LineSession {
    /// Memory was wanting: no more is answered.
    pub failed: bool,
    /// The charges that each run and query to come may take, 1 to 1,000,000,000.
    pub budget: u32,
    /// The number that the next run gets, 1 to 1,048,577. The last is given to none.
    pub next_run: RunNo,
}

impl LineSession {
    /// A session for the opening of a script: the next run is 1, and 1,000,000 charges stand as budget. It takes no memory.
    pub fn new() -> LineSession
        ensures { result ≡ record { failed = false; budget = BUDGET; next_run = record { 0 = 1 } } }
    {
        LineSession {
            failed: false,
            budget: BUDGET,
            next_run: RunNo(1),
        }
    }

    /// Answers a command. For every history for which session and store stand, the answer is the reply of a linear history, and
    /// afterwards they stand for the history after the command, if the command's numbers are such as a line can give. A refused
    /// command changes nothing. Want of memory is the one fault: the session is failed then, answers the same from then on and
    /// changes nothing, and the store's versions are those of before, with their heaps. The code is the same at each call.
    ///
    /// # Errors
    /// Where there was no memory.
    pub fn apply<S: LineCalls, C: Meant>(
        &mut self,
        alloc: Global,
        code: &C,
        store: &mut S,
        command: &Command,
    ) -> Result<Reply, NoMemory>
        requires { self.old.failed ≡ false → MayApply (C.meant code.now).meaning self.old (S.state store.old) (S.stored store.old) }
        ensures ok { IfOk result (λ r. (self.old.failed ≡ false) × (self.new.failed ≡ false)) }
        ensures answers { IfOk result (Answers S.state S.stored (C.meant code.now).meaning self.old store.old command.now self.new store.new) }
        ensures refused { IfOk result (λ r. (why : Refusal) → r ≡ answer.Refused why → (self.new ≡ self.old) × (store.new ≡ store.old)) }
        ensures may { IfOk result (λ r. in_range command.now ≡ true → MayApply (C.meant code.now).meaning self.new (S.state store.new) (S.stored store.new)) }
        ensures err { OnErr result (self.new.failed ≡ true) }
        ensures rows { OnErr result ((S.state store.new).versions ≡ (S.state store.old).versions) }
        ensures holds { OnErr result (Wants (C.meant code.now).meaning self.old (S.state store.old) (S.stored store.old) (S.state store.new)) }
        ensures failed { self.old.failed ≡ true → IsErr result × (self.new ≡ self.old) × (store.new ≡ store.old) }
    {
        if self.failed {
            return Err(NoMemory);
        }
        if let Some(refusal) = refused(code, store, self.next_run, command) {
            return Ok(Reply::Refused(refusal));
        }
        self.failed = true;
        let reply = answer(alloc, code, store, self, command)?;
        self.failed = false;
        Ok(reply)
    }
}
