//! A program's engine with its heap.

ghost use Rattle.std.specs.Prelude.{◌≡◌, OnOk, true};
ghost use Rattle.pst_script.specs.Commands.{in_range};
ghost use Rattle.pst_history.specs.Direct.{meaning_of};
ghost use Rattle.pst_engine.specs.Stands.{IsStartedHeap};
ghost use Rattle.pst_store_cases.specs.Going.{IsGoing};

use pst_base::{NoMemory, Text, VersionNo};
use pst_engine::{Engine, a_new_engine_stands};
use pst_engine_runs::Compiled;
use pst_engine_testing::Trouble;
use pst_questions::dump;
use pst_script::{Command, LineFault, read_line, reply_text};
use pst_versions::VersionedHeap;
use std::alloc::Global;

/// A program's engine with its heap of versions. Both stand for a history.
#[derive(Drop)]
pub struct Session<H: VersionedHeap> {
    /// The program, with its code.
    pub code: Compiled,
    pub heap: H,
    pub engine: Engine<H>,
}

/// The lines of a script, without the byte that ends each.
pub(crate) fn lines_of(alloc: Global, script: &[u8]) -> Result<Vec<&[u8]>, NoMemory> {
    script.split(|byte| *byte == b'\n').collect(alloc)
}

impl<H: VersionedHeap> Session<H> {
    /// A session at the opening, in which version 0 is alone.
    pub fn new(alloc: Global, code: Compiled, heap: H) -> Session<H>
        requires { IsStartedHeap (meaning_of code) (H.state heap) }
        ensures { IsGoing result.code result.engine (H.state result.heap) }
    {
        let engine = Engine::new(alloc);
        a_new_engine_stands(&code, &heap, &engine);
        Session { code, heap, engine }
    }

    /// The text of the reply to a command.
    fn carry_out(&mut self, alloc: Global, command: &Command) -> Result<Text, NoMemory>
        requires going { IsGoing self.old.code self.old.engine (H.state self.old.heap) }
        requires range { in_range command.now ≡ true }
        ensures { OnOk result (IsGoing self.new.code self.new.engine (H.state self.new.heap)) }
    {
        let reply = self
            .engine
            .apply(alloc, &self.code, &mut self.heap, command)?;
        reply_text(alloc, &reply)
    }

    /// The text of the reply to a line, which is empty for a line that is no command.
    pub fn reply(&mut self, alloc: Global, line: &[u8]) -> Result<Text, NoMemory>
        requires { IsGoing self.old.code self.old.engine (H.state self.old.heap) }
        ensures { OnOk result (IsGoing self.new.code self.new.engine (H.state self.new.heap)) }
    {
        match read_line(alloc, line) {
            Ok(Some(command)) => self.carry_out(alloc, &command),
            Ok(None) | Err(LineFault::Line | LineFault::Number) => {
                Ok(Text::from_vec(Vec::new(alloc)))
            }
            Err(LineFault::Memory) => Err(NoMemory),
        }
    }

    /// The replies to the lines of a script, as one text.
    pub fn replies(&mut self, alloc: Global, script: &[u8]) -> Result<Text, NoMemory>
        requires { IsGoing self.old.code self.old.engine (H.state self.old.heap) }
        ensures { OnOk result (IsGoing self.new.code self.new.engine (H.state self.new.heap)) }
    {
        let mut replies = Vec::new(alloc);
        let lines = lines_of(alloc, script)?;
        for line in &lines {
            let reply = self.reply(alloc, line)?;
            replies.extend_from_slice(reply.as_slice())?;
        }
        Ok(Text::from_vec(replies))
    }

    /// The dump of a version.
    fn dump_of(&self, alloc: Global, version: VersionNo) -> Result<Text, Trouble>
        requires { IsGoing self.now.code self.now.engine (H.state self.now.heap) }
    {
        self.heap.known_versions();
        match self.heap.place_of(version) {
            None => Err(Trouble::Differs),
            Some(place) => Ok(dump(alloc, &self.heap, self.code.program(), place)?),
        }
    }

    /// The dumps of all versions, as one text.
    pub fn dumps(&self, alloc: Global) -> Result<Text, Trouble>
        requires { IsGoing self.now.code self.now.engine (H.state self.now.heap) }
    {
        let mut dumps = Vec::new(alloc);
        for version in 0..self.heap.count() {
            let dump = self.dump_of(alloc, VersionNo(version))?;
            dumps.extend_from_slice(dump.as_slice())?;
        }
        Ok(Text::from_vec(dumps))
    }
}

/// Whether two sessions have the same versions, by their dumps.
pub fn have_same_dumps<A: VersionedHeap, B: VersionedHeap>(
    alloc: Global,
    one: &Session<A>,
    other: &Session<B>,
) -> Result<bool, Trouble>
    requires one { IsGoing one.now.code one.now.engine (A.state one.now.heap) }
    requires other { IsGoing other.now.code other.now.engine (B.state other.now.heap) }
{
    let dumps = one.dumps(alloc)?;
    Ok(dumps.as_slice() == other.dumps(alloc)?.as_slice())
}
