//! A history with its calls by number.

ghost use Rattle.std.specs.Prelude.{◌≡◌, [], IsSome, OnOk, Some, length};
ghost use Rattle.pst_program.specs.View.{routines_of};
ghost use Rattle.pst_program.specs.Typed.{IsTyped};
ghost use Rattle.pst_history.specs.History.{called_more, numbered};
ghost use Rattle.pst_history.specs.Since.{Changes, Opens};
ghost use Rattle.pst_replay.specs.Replay.{IsNumbered};
ghost use Rattle.pst_history.specs.declared.history.TheConstants.{BUDGET};

use crate::program::{numbered_call, numbered_calls};
use pst_base::{Items, NoMemory, RunNo, VersionNo};
use pst_history::{NamedCall, NamedCalls, Since, add, index_of, open};
use pst_program::{Calls, ProcCall, Program};
use std::alloc::Global;

/// For each run its calls by the numbers of their procedures.
pub type RunCalls = Items<Calls>;

/// What has happened since the opening, and for each run its calls by the numbers of their procedures. A history names its
/// procedures, since its meaning is told by names; by the numbers a run is executed again without looking a name up.
#[derive(Drop)]
pub struct NumberedHistory {
    pub since: Since,
    pub calls: RunCalls,
}

impl NumberedHistory {
    /// Nothing since the opening. It takes no memory.
    pub(crate) fn nothing(alloc: Global) -> NumberedHistory
        ensures budget { result.since.budget ≡ BUDGET }
        ensures runs { result.since.runs ≡ [] }
        ensures versions { result.since.versions ≡ [] }
        ensures calls { result.calls ≡ [] }
    {
        NumberedHistory {
            since: Since::nothing(alloc),
            calls: RunCalls::new(alloc),
        }
    }

    /// The calls of the run with a number.
    pub(crate) fn calls_of_run(&self, number: RunNo) -> &[ProcCall]
        requires there { IsSome (numbered 1 self.now.since.runs number.0) }
        requires same { length self.now.calls ≡ length self.now.since.runs }
        ensures { numbered 1 self.now.calls number.0 ≡ Some result.now }
    {
        self.calls.items[index_of(&self.since, number)].as_slice()
    }

    /// Opens a run on a version, under the budget that stands.
    pub(crate) fn open(
        &mut self,
        alloc: Global,
        program: &Program,
        version: VersionNo,
        calls: NamedCalls,
    ) -> Result<(), NoMemory>
        requires typed { IsTyped (routines_of program.now) }
        requires numbered { IsNumbered program.now self.old }
        ensures opens { OnOk result (Opens version calls self.old.since self.new.since) }
        ensures numbered { OnOk result (IsNumbered program.now self.new) }
    {
        let by_number = numbered_calls(alloc, program, &calls)?;
        self.calls.items.push(by_number)?;
        open(&mut self.since, version, calls)
    }

    /// Adds a call to a run.
    pub(crate) fn add(
        &mut self,
        program: &Program,
        number: RunNo,
        call: NamedCall,
    ) -> Result<(), NoMemory>
        requires typed { IsTyped (routines_of program.now) }
        requires numbered { IsNumbered program.now self.old }
        requires there { IsSome (numbered 1 self.old.since.runs number.0) }
        ensures adds { OnOk result (Changes (called_more call) number.0 self.old.since self.new.since) }
        ensures numbered { OnOk result (IsNumbered program.now self.new) }
    {
        let index = index_of(&self.since, number);
        let by_number = numbered_call(program, &call)?;
        self.calls.items[index].items.push(by_number)?;
        add(&mut self.since, number, call)
    }
}
