//! An engine over valid code that no program was compiled to.

ghost use Rattle.std.specs.Prelude.{◌≡◌, true, IfOk, OnOk};
ghost use Rattle.pst_forest.specs.Forest.{state_of};
ghost use Rattle.pst_script.specs.Commands.{in_range};
ghost use Rattle.pst_engine_cases.specs.Bare.{CanRun};

use pst_base::{Kind, Kinds, NoMemory, Shape, SlotNo, Targets, Text, TypeShape};
use pst_code::{Code, Instr, Instrs, Parts, Procedure, ProcedureList, Reg};
use pst_engine::{Engine, a_new_engine_stands};
use pst_engine_runs::{BareCode, Meant};
use pst_engine_testing::{Trouble, a_new_forest_is_started};
use pst_forest::Forest;
use pst_script::{Command, LineFault, read_line, reply_text};
use std::alloc::Global;

/// A procedure whose registers hold numbers, the arguments first.
fn procedure(
    alloc: Global,
    name: &[u8],
    query: bool,
    arguments: u8,
    instructions: Vec<Instr>,
) -> Result<Procedure, NoMemory> {
    Ok(Procedure {
        name: Text::from_vec(name.to_vec(alloc)?),
        query,
        arguments,
        result: None,
        kinds: Kinds::from_vec(Vec::from_array(alloc, [Kind::Int, Kind::Int])?),
        instructions: Instrs::from_vec(instructions),
    })
}

/// Code over one root, a number: `raise k` adds to it twice under lines that go down, as no program's do, and `show` prints it.
fn raising(alloc: Global) -> Result<Option<Code>, NoMemory> {
    let (k, sum) = (Reg(0), Reg(1));
    let raise = [
        Instr::Charge(9),
        Instr::Root(sum, SlotNo(0)),
        Instr::Add(sum, sum, k),
        Instr::Setroot(SlotNo(0), sum),
        Instr::Charge(4),
        Instr::Add(sum, sum, k),
        Instr::Setroot(SlotNo(0), sum),
        Instr::Return(None),
    ];
    let show = [
        Instr::Charge(1),
        Instr::Root(sum, SlotNo(0)),
        Instr::Print(sum),
        Instr::Return(None),
    ];
    let root = TypeShape {
        values: 1,
        targets: Targets::from_vec(Vec::new(alloc)),
        limit: 1,
    };
    let procedures = [
        procedure(alloc, b"raise", false, 1, Vec::from_array(alloc, raise)?)?,
        procedure(alloc, b"show", true, 0, Vec::from_array(alloc, show)?)?,
    ];
    let parts = Parts {
        shape: Shape::from_vec(Vec::from_array(alloc, [root])?),
        procedures: ProcedureList::from_vec(Vec::from_array(alloc, procedures)?),
    };
    Code::new(alloc, parts)
}

/// An engine with its heap, over code by itself.
#[derive(Drop)]
struct Bare {
    code: BareCode,
    heap: Forest,
    engine: Engine<Forest>,
}

impl Bare {
    /// The engine at the opening, in which version 0 is alone.
    fn new(alloc: Global, code: Code) -> Result<Bare, NoMemory>
        ensures { IfOk result (λ t. CanRun t.code t.engine (state_of t.heap)) }
    {
        a_new_forest_is_started();
        code.known();
        let heap = Forest::start(alloc, code.shape())?;
        let code = BareCode::new(code);
        let engine = Engine::new(alloc);
        a_new_engine_stands(&code, &heap, &engine);
        Ok(Bare { code, heap, engine })
    }

    /// The text of the reply to a line. A line that is no command is none of the tests'.
    fn reply(&mut self, alloc: Global, line: &[u8]) -> Result<Text, Trouble>
        requires { CanRun self.old.code self.old.engine (state_of self.old.heap) }
        ensures { OnOk result (CanRun self.new.code self.new.engine (state_of self.new.heap)) }
    {
        match read_line(alloc, line) {
            Ok(Some(command)) => self.carry_out(alloc, &command),
            Ok(None) | Err(LineFault::Line | LineFault::Number) => Err(Trouble::Program),
            Err(LineFault::Memory) => Err(Trouble::Memory),
        }
    }

    /// The text of the reply to a command.
    fn carry_out(&mut self, alloc: Global, command: &Command) -> Result<Text, Trouble>
        requires ready { CanRun self.old.code self.old.engine (state_of self.old.heap) }
        requires range { in_range command.now ≡ true }
        ensures { OnOk result (CanRun self.new.code self.new.engine (state_of self.new.heap)) }
    {
        let reply = self
            .engine
            .apply(alloc, &self.code, &mut self.heap, command)?;
        Ok(reply_text(alloc, &reply)?)
    }
}

/// The replies to some lines, one behind the other.
fn replies(alloc: Global, lines: &[&[u8]]) -> Result<Vec<u8>, Trouble> {
    let code = raising(alloc)?.ok_or(Trouble::Program)?;
    let mut bare = Bare::new(alloc, code)?;
    let mut told = Vec::new(alloc);
    for line in lines {
        let reply = bare.reply(alloc, line)?;
        told.extend_from_slice(reply.as_slice())?;
    }
    Ok(told)
}

#[test]
fn code_that_no_program_has_is_run(rt: HostRuntime) -> Result<(), Trouble> {
    let lines: [&[u8]; 7] = [
        b"run 0 raise 5",
        b"run 1 raise 100",
        b"query 2 show",
        b"run 2 raise 9223372036854775000",
        b"open 1 raise 1",
        b"step 4 1",
        b"close 4",
    ];
    let told = replies(rt.alloc(), &lines)?;
    assert!(rt;
        told.as_slice()
            == b"version 1\nversion 2\n| 210\nok\ntrap overflow at 4\nrun 4\nrun 4 running\nversion 3\n".as_slice()
    );
    Ok(())
}
