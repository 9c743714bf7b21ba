//! The session engine.

ghost use Rattle.std.specs.Prelude.{◌≡◌, ◌+◌, ◌<◌, ◌≤◌, [], false, true, IfOk, IsErr, OnErr};
ghost use Rattle.pst_script.specs.Commands.{in_range};
ghost use Rattle.pst_script.specs.declared.reply.Reply.TheVariants as answer;
ghost use Rattle.pst_script.specs.declared.reply.Refusal.{Refusal};
ghost use Rattle.pst_history.specs.Sound.{IsBudget};
ghost use Rattle.pst_engine.specs.Stands.{Answers, MayApply, Wants};
ghost use Rattle.pst_history.specs.declared.history.TheConstants.{BUDGET, RUNS};

use crate::answer::answer;
use pst_base::{NoMemory, RunNo};
use pst_engine_runs::{Activations, Meant, known, refused};
use pst_history::BUDGET;
use pst_script::{Command, Reply};
use pst_versions::VersionedHeap;
use std::alloc::Global;

/// A session over a heap of versions: it keeps the open runs, but no history and no heap. Two engines with equal fields answer
/// alike, so a session goes on with an engine made of the four fields of another one.
#[derive(Drop)]
pub struct Engine<H: VersionedHeap> {
    /// Memory was wanting: no more is answered.
    pub failed: bool,
    /// The charges that each run and query to come may take, 1 to 1,000,000,000.
    pub budget: u32,
    /// The number that the next run gets, 1 to 1,048,577. The last is given to none.
    pub next_run: RunNo,
    /// The runs that are open, at most 64.
    pub active: Activations<H>,
}

impl<H: VersionedHeap> Engine<H> {
    /// An engine with no open run, for the opening of `run`: the next run is 1, and 1,000,000 charges stand as budget. It takes
    /// no memory.
    pub fn new(alloc: Global) -> Engine<H>
        ensures failed { result.failed ≡ false }
        ensures budget { result.budget ≡ BUDGET }
        ensures next_run { result.next_run ≡ record { 0 = 1 } }
        ensures active { result.active.items.items ≡ [] }
    {
        Engine::over(alloc, RunNo(1), BUDGET)
    }

    /// An engine with no open run, for an opening with this next run number and budget. It takes no memory.
    pub fn over(alloc: Global, next_run: RunNo, budget: u32) -> Engine<H>
        requires next_run { (0 < next_run.0) × (next_run.0 ≤ RUNS + 1) }
        requires budget { IsBudget budget }
        ensures failed { result.failed ≡ false }
        ensures budget { result.budget ≡ budget }
        ensures next_run { result.next_run ≡ next_run }
        ensures active { result.active.items.items ≡ [] }
    {
        Engine {
            failed: false,
            budget,
            next_run,
            active: Activations::new(alloc),
        }
    }

    /// Answers a command. For every history for which engine and heap stand, the answer is its reply, and afterwards they stand
    /// for the history after the command, if the command's numbers are such as a line can give. A refused command changes
    /// nothing. Want of memory is the one fault: the engine is failed then, answers the same from then on and changes nothing,
    /// and the heap's versions are those of before, at their places. The code is the same at each call.
    ///
    /// # Errors
    /// Where there was no memory.
    pub fn apply<C: Meant>(
        &mut self,
        alloc: Global,
        code: &C,
        heap: &mut H,
        command: &Command,
    ) -> Result<Reply, NoMemory>
        requires { self.old.failed ≡ false → MayApply (C.meant code.now) self.old (H.state heap.old) }
        ensures ok { IfOk result (λ r. (self.old.failed ≡ false) × (self.new.failed ≡ false)) }
        ensures answers { IfOk result (λ r. Answers (C.meant code.now) self.old (H.state heap.old) command.now r self.new (H.state heap.new)) }
        ensures refused { IfOk result (λ r. (why : Refusal) → r ≡ answer.Refused why → (self.new ≡ self.old) × (heap.new ≡ heap.old)) }
        ensures may { IfOk result (λ r. in_range command.now ≡ true → MayApply (C.meant code.now) self.new (H.state heap.new)) }
        ensures err { OnErr result (self.new.failed ≡ true) }
        ensures wants { OnErr result (Wants (C.meant code.now) self.old (H.state heap.old) (H.state heap.new)) }
        ensures failed { self.old.failed ≡ true → IsErr result × (self.new ≡ self.old) × (heap.new ≡ heap.old) }
    {
        if self.failed {
            return Err(NoMemory);
        }
        heap.known_versions();
        known::<H, C>(code);
        let active = self.active.items.as_slice();
        if let Some(refusal) = refused(code, heap, active, self.next_run, command) {
            return Ok(Reply::Refused(refusal));
        }
        self.failed = true;
        let reply = answer(alloc, code, heap, self, command)?;
        self.failed = false;
        Ok(reply)
    }
}
