//! An engine beside a replayer, on one program.

ghost use Rattle.std.specs.Prelude.{◌≡◌, true, IfOk, OnOk};
ghost use Rattle.pst_program.specs.Typed.{IsTyped};
ghost use Rattle.pst_program.specs.View.{routines_of};
ghost use Rattle.pst_script.specs.Commands.{in_range};
ghost use Rattle.pst_history.specs.Direct.{meaning_of};
ghost use Rattle.pst_engine.specs.Stands.{IsStartedHeap};
ghost use Rattle.pst_engine_cases.specs.Twins.{CanAnswer};

use pst_base::Text;
use pst_engine::{Engine, a_new_engine_stands};
use pst_engine_runs::Compiled;
use pst_engine_testing::Trouble;
use pst_program::Program;
use pst_replay::Replayer;
use pst_script::{Command, LineFault, read_line, reply_text};
use pst_versions::VersionedHeap;
use std::alloc::Global;

/// An engine with its heap, and a replayer: two that answer the lines of a script.
#[derive(Drop)]
pub struct Twins<H: VersionedHeap> {
    /// The program of the engine, with its code.
    pub code: Compiled,
    /// The program of the replayer.
    pub program: Program,
    pub heap: H,
    pub engine: Engine<H>,
    pub replayer: Replayer,
}

impl<H: VersionedHeap> Twins<H> {
    /// Both at the opening, in which version 0 is alone.
    pub fn new(alloc: Global, code: Compiled, program: Program, heap: H) -> Twins<H>
        requires typed { IsTyped (routines_of program) }
        requires heap { IsStartedHeap (meaning_of code) (H.state heap) }
        ensures { CanAnswer result.code result.engine (H.state result.heap) result.program result.replayer }
    {
        let engine = Engine::new(alloc);
        a_new_engine_stands(&code, &heap, &engine);
        Twins {
            code,
            program,
            heap,
            engine,
            replayer: Replayer::new(alloc),
        }
    }

    /// The same two, but with an engine made of the four fields of this one.
    pub fn renewed(self) -> Twins<H>
        requires { CanAnswer self.code self.engine (H.state self.heap) self.program self.replayer }
        ensures { CanAnswer result.code result.engine (H.state result.heap) result.program result.replayer }
    {
        let Twins {
            code,
            program,
            heap,
            engine,
            replayer,
        } = self;
        let engine = Engine {
            failed: engine.failed,
            budget: engine.budget,
            next_run: engine.next_run,
            active: engine.active,
        };
        Twins {
            code,
            program,
            heap,
            engine,
            replayer,
        }
    }

    /// The text of the reply to a line, or None for a line that is no command.
    pub fn reply(&mut self, alloc: Global, line: &[u8]) -> Result<Option<Text>, Trouble>
        requires { CanAnswer self.old.code self.old.engine (H.state self.old.heap) self.old.program self.old.replayer }
        ensures { OnOk result (CanAnswer self.new.code self.new.engine (H.state self.new.heap) self.new.program self.new.replayer) }
    {
        match read_line(alloc, line) {
            Ok(Some(command)) => Ok(Some(self.carry_out(alloc, &command)?)),
            Ok(None) => Ok(None),
            Err(LineFault::Line | LineFault::Number) => Ok(None),
            Err(LineFault::Memory) => Err(Trouble::Memory),
        }
    }

    /// The text of both replies to a command, which have to be equal.
    fn carry_out(&mut self, alloc: Global, command: &Command) -> Result<Text, Trouble>
        requires ready { CanAnswer self.old.code self.old.engine (H.state self.old.heap) self.old.program self.old.replayer }
        requires range { in_range command.now ≡ true }
        ensures { OnOk result (CanAnswer self.new.code self.new.engine (H.state self.new.heap) self.new.program self.new.replayer) }
    {
        let reply = self
            .engine
            .apply(alloc, &self.code, &mut self.heap, command)?;
        let wanted = self.replayer.apply(&self.program, command)?;
        let text = reply_text(alloc, &reply)?;
        if text.as_slice() != reply_text(alloc, &wanted)?.as_slice() {
            return Err(Trouble::Differs);
        }
        Ok(text)
    }
}
