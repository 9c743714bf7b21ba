//! Runs from one charge that is due to the next, or to the end.

ghost use Rattle.std.specs.Prelude.{◌≡◌, ◌+◌, ◌<◌, ◌^◌, None, Some, IfOk, IfSome, OnOk, OnErr, length};
ghost use Rattle.pst_code.specs.declared.instr.Instr.TheVariants as instr;
ghost use Rattle.pst_code.specs.Valid.{IsValidCode};
ghost use Rattle.pst_code.specs.Machine.{next_instr};
ghost use Rattle.pst_versions.specs.State.{Unchanged, IsFresh, IsNewType, HasRoom};
ghost use Rattle.pst_machine_steps.specs.View.{number_in, procedure_of, AtEachMeaning, Performs, StaysAt};
ghost use Rattle.pst_machine_steps.specs.Live.{IsLiveSomewhere, IsRoot};
ghost use Rattle.pst_machine_steps.specs.Calls.{held_in, HasRegister, HoldsNumber};
ghost use Rattle.pst_machine_frames.specs.Ready.{Printed, step_of, whole, came_to, IfOut, IfNext, came_with, IfDue, current_of, IsRunning, IsFunded, CameApart, FallsApart, GoesOnApart, IsDue, IsOff, IsOut, IsRest, LeavesApart, Ran, RanApart};
ghost use Rattle.pst_machine_steps.specs.Steps.{IsSeen};
ghost use Rattle.pst_machine_steps.specs.Fields.{KeepsOthers};

use pst_base::{Kind, NoMemory, Op, TrapKind, TypeNo};
use pst_code::{Code, Instr, Procedure, Reg};
use pst_machine_steps::{
    CallFrame, Element, Register, Standing, Step, Top, apply, bound, call, check, copy, jump,
    jump_at_most, jump_less, leave, load, load_element, make, negate, operand, read, renew, root,
    same, set, set_root, store, store_element, take_charge,
};
use pst_program::MOST_PRINTED;
use pst_versions::HeapAt;
use std::mem;

/// Runs until the charges are used and another is due, or to the end. The answer is where it came to rest. `NoMemory` where the
/// heap, a frame or the printed numbers could not grow; other places keep their heaps then too. It stands apart, so that the
/// registers of its loop do not depend on what calls it.
///
/// # Errors
/// Where there was no memory.
#[inline(never)]
pub fn run<H: HeapAt>(
    standing: &mut Standing<H::Place, H::Ref>,
    code: &Code,
    heap: &mut H,
) -> Result<Step, NoMemory>
    requires valid { IsValidCode code.now }
    requires running { IsRunning code.now (H.state heap.old) standing.old }
    requires funded { IsFunded code.now (H.state heap.old) standing.old }
    ensures ran { IfOk result (λ step. Ran code.now (H.state heap.old) standing.old step (H.state heap.new) standing.new) }
    ensures rests { IfOk result IsRest }
    ensures err { OnErr result (KeepsOthers standing.old.place (H.state heap.old) (H.state heap.new)) }
    ensures reads { OnErr result (¬ ((H.state heap.old).writable standing.old.place) → Unchanged (H.state heap.old) (H.state heap.new)) }
    ensures home { (standing.new.place ≡ standing.old.place) × (standing.new.run ≡ standing.old.run) }
{
    let none = CallFrame {
        procedure: standing.current.procedure,
        at: 0,
        registers: Vec::new(standing.alloc),
        line: 0,
    };
    let mut frame = mem::replace(&mut standing.current, none);
    let mut left = standing.left;
    let ended = run_frames(standing, &mut frame, &mut left, code, heap);
    let _none = mem::replace(&mut standing.current, frame);
    standing.left = left;
    ended
}

/// Runs one frame after another, of which the current one is held apart.
#[inline(always)]
fn run_frames<H: HeapAt>(
    standing: &mut Standing<H::Place, H::Ref>,
    frame: &mut CallFrame<H::Ref>,
    left: &mut u32,
    code: &Code,
    heap: &mut H,
) -> Result<Step, NoMemory>
    requires valid { IsValidCode code.now }
    requires running { IsRunning code.now (H.state heap.old) (whole standing.old frame.old left.old) }
    requires funded { IsFunded code.now (H.state heap.old) (whole standing.old frame.old left.old) }
    ensures ran { IfOk result (RanApart H.state code.now heap.old standing.old frame.old left.old heap.new standing.new frame.new left.new) }
    ensures rests { IfOk result IsRest }
    ensures err { OnErr result (KeepsOthers standing.old.place (H.state heap.old) (H.state heap.new)) }
    ensures reads { OnErr result (¬ ((H.state heap.old).writable standing.old.place) → Unchanged (H.state heap.old) (H.state heap.new)) }
    ensures home { (standing.new.place ≡ standing.old.place) × (standing.new.run ≡ standing.old.run) }
{
    // Other runs may have written since the last slice: a frame that stands since then is brought up to date before it goes on, so
    // that the way to where a record is now is gone once, and not again at each access. A call that has not begun holds none.
    let mut stale = standing.callers.len();
    if frame.at > 0 {
        stale += 1;
    }
    // A reference to the root record can be used to the end of the slice, so that it is looked for once.
    let mut top = Top::new(heap.root(standing.place));
    loop {
        let procedure = code.body(frame.procedure);
        match run_near(
            standing, frame, left, code, procedure, heap, &mut top, &mut stale,
        )? {
            Step::Switched => {}
            step => return Ok(step),
        }
    }
}

/// Runs as long as the current frame goes on. Where fewer frames wait than `stale`, it stands since before this slice, and the
/// references in its registers are brought up to date first.
#[inline(always)]
fn run_near<H: HeapAt>(
    standing: &mut Standing<H::Place, H::Ref>,
    frame: &mut CallFrame<H::Ref>,
    left: &mut u32,
    code: &Code,
    procedure: &Procedure,
    heap: &mut H,
    top: &mut Top<H::Ref>,
    stale: &mut usize,
) -> Result<Step, NoMemory>
    requires valid { IsValidCode code.now }
    requires running { IsRunning code.now (H.state heap.old) (whole standing.old frame.old left.old) }
    requires funded { IsFunded code.now (H.state heap.old) (whole standing.old frame.old left.old) }
    requires top { IsRoot (H.state heap.old) standing.old.place top.old.root }
    requires last { IfSome top.old.last (IsSeen (H.state heap.old) standing.old.place) }
    requires procedure { procedure_of code.now frame.old.procedure ≡ procedure.now }
    ensures ran { IfOk result (RanApart H.state code.now heap.old standing.old frame.old left.old heap.new standing.new frame.new left.new) }
    ensures falls { IfOk result (FallsApart H.state code.now heap.old standing.old frame.old left.old heap.new standing.new frame.new left.new) }
    ensures out { IfOk result IsOut }
    ensures err { OnErr result (KeepsOthers standing.old.place (H.state heap.old) (H.state heap.new)) }
    ensures reads { OnErr result (¬ ((H.state heap.old).writable standing.old.place) → Unchanged (H.state heap.old) (H.state heap.new)) }
    ensures top { top.new.root ≡ top.old.root }
    ensures last { OnOk result (IfSome top.new.last (IsSeen (H.state heap.new) standing.old.place)) }
    ensures home { (standing.new.place ≡ standing.old.place) × (standing.new.run ≡ standing.old.run) }
{
    let waiting = standing.callers.len();
    if waiting < *stale {
        renew(heap, standing.place, frame);
        *stale = waiting;
    }
    run_frame(standing, frame, left, code, procedure, heap, top)
}

/// Runs as long as the current frame goes on, and then the call or the return that is due, if one is.
#[inline(always)]
fn run_frame<H: HeapAt>(
    standing: &mut Standing<H::Place, H::Ref>,
    frame: &mut CallFrame<H::Ref>,
    left: &mut u32,
    code: &Code,
    procedure: &Procedure,
    heap: &mut H,
    top: &mut Top<H::Ref>,
) -> Result<Step, NoMemory>
    requires valid { IsValidCode code.now }
    requires running { IsRunning code.now (H.state heap.old) (whole standing.old frame.old left.old) }
    requires funded { IsFunded code.now (H.state heap.old) (whole standing.old frame.old left.old) }
    requires top { IsRoot (H.state heap.old) standing.old.place top.old.root }
    requires last { IfSome top.old.last (IsSeen (H.state heap.old) standing.old.place) }
    requires procedure { procedure_of code.now frame.old.procedure ≡ procedure.now }
    ensures ran { IfOk result (RanApart H.state code.now heap.old standing.old frame.old left.old heap.new standing.new frame.new left.new) }
    ensures falls { IfOk result (FallsApart H.state code.now heap.old standing.old frame.old left.old heap.new standing.new frame.new left.new) }
    ensures out { IfOk result IsOut }
    ensures err { OnErr result (KeepsOthers standing.old.place (H.state heap.old) (H.state heap.new)) }
    ensures reads { OnErr result (¬ ((H.state heap.old).writable standing.old.place) → Unchanged (H.state heap.old) (H.state heap.new)) }
    ensures top { top.new.root ≡ top.old.root }
    ensures last { OnOk result (IfSome top.new.last (IsSeen (H.state heap.new) standing.old.place)) }
    ensures home { (standing.new.place ≡ standing.old.place) × (standing.new.run ≡ standing.old.run) }
{
    match go_on(standing, frame, left, code, procedure, heap, top)? {
        Rested::At(step) => Ok(step),
        Rested::Due(instr) => switch(standing, frame, *left, code, instr, heap),
    }
}

/// Runs as long as a frame that is held apart goes on, and hands on the call or the return that is due, if one is.
#[inline(always)]
fn go_on<'a, H: HeapAt>(
    standing: &mut Standing<H::Place, H::Ref>,
    frame: &mut CallFrame<H::Ref>,
    left: &mut u32,
    code: &Code,
    procedure: &'a Procedure,
    heap: &mut H,
    top: &mut Top<H::Ref>,
) -> Result<Rested<'a>, NoMemory>
    requires valid { IsValidCode code.now }
    requires running { IsRunning code.now (H.state heap.old) (whole standing.old frame.old left.old) }
    requires funded { IsFunded code.now (H.state heap.old) (whole standing.old frame.old left.old) }
    requires top { IsRoot (H.state heap.old) standing.old.place top.old.root }
    requires last { IfSome top.old.last (IsSeen (H.state heap.old) standing.old.place) }
    requires procedure { procedure_of code.now frame.old.procedure ≡ procedure.now }
    ensures ran { IfOk result (λ rested. LeavesApart H.state code.now heap.old standing.old frame.old left.old heap.new standing.new frame.new left.new (came_with rested)) }
    ensures due { IfOk result (λ rested. IfDue rested (λ instr. next_instr (current_of code.now (H.state heap.new) (whole standing.new frame.new left.new)) ≡ Some instr)) }
    ensures at { IfOk result (λ rested. IfDue rested (λ instr. frame.new.at + 1 < 2 ^ 64)) }
    ensures err { OnErr result (KeepsOthers standing.old.place (H.state heap.old) (H.state heap.new)) }
    ensures reads { OnErr result (¬ ((H.state heap.old).writable standing.old.place) → Unchanged (H.state heap.old) (H.state heap.new)) }
    ensures top { top.new.root ≡ top.old.root }
    ensures last { OnOk result (IfSome top.new.last (IsSeen (H.state heap.new) standing.old.place)) }
    ensures home { (standing.new.place ≡ standing.old.place) × (standing.new.run ≡ standing.old.run) }
{
    let instrs = procedure.instructions.as_slice();
    let kinds = procedure.kinds.as_slice();
    // An index below the length of a list can be raised by one.
    let _count = instrs.len();
    let mut out = None;
    // What is left of the code from the next instruction on: to go on behind it is to move one pointer.
    let mut rest = &instrs[frame.at..];
    loop {
        let instr = &rest[0];
        match step(
            standing, frame, left, code, procedure, kinds, heap, top, instr, &mut out,
        )? {
            Flow::Next => rest = &rest[1..],
            Flow::Behind => rest = &instrs[frame.at..],
            Flow::Here => rest = &instrs[frame.at..],
            Flow::Out => {
                return Ok(match out {
                    Some(step) => Rested::At(step),
                    None => Rested::Due(instr),
                });
            }
        }
    }
}

/// One instruction, and on to the next one. Where the frame does not go on, `out` is set to what the instruction came to, or to None
/// where a call or a return is due.
#[inline(always)]
fn step<H: HeapAt>(
    standing: &mut Standing<H::Place, H::Ref>,
    frame: &mut CallFrame<H::Ref>,
    left: &mut u32,
    code: &Code,
    procedure: &Procedure,
    kinds: &[Kind],
    heap: &mut H,
    top: &mut Top<H::Ref>,
    instr: &Instr,
    out: &mut Option<Step>,
) -> Result<Flow, NoMemory>
    requires valid { IsValidCode code.now }
    requires running { IsRunning code.now (H.state heap.old) (whole standing.old frame.old left.old) }
    requires funded { IsFunded code.now (H.state heap.old) (whole standing.old frame.old left.old) }
    requires top { IsRoot (H.state heap.old) standing.old.place top.old.root }
    requires last { IfSome top.old.last (IsSeen (H.state heap.old) standing.old.place) }
    requires procedure { procedure_of code.now frame.old.procedure ≡ procedure.now }
    requires kinds { kinds.now ≡ procedure.now.kinds }
    requires at { frame.old.at + 1 < 2 ^ 64 }
    requires instr { next_instr (current_of code.now (H.state heap.old) (whole standing.old frame.old left.old)) ≡ Some instr.now }
    ensures on { IfOk result (GoesOnApart H.state code.now heap.old standing.old frame.old left.old out.new heap.new standing.new frame.new left.new) }
    ensures next { IfOk result (λ flow. IfNext flow (frame.new.at ≡ frame.old.at + 1)) }
    ensures err { OnErr result (KeepsOthers standing.old.place (H.state heap.old) (H.state heap.new)) }
    ensures reads { OnErr result (¬ ((H.state heap.old).writable standing.old.place) → Unchanged (H.state heap.old) (H.state heap.new)) }
    ensures top { top.new.root ≡ top.old.root }
    ensures last { OnOk result (IfSome top.new.last (IsSeen (H.state heap.new) standing.old.place)) }
    ensures home { (standing.new.place ≡ standing.old.place) × (standing.new.run ≡ standing.old.run) }
{
    match instruction(standing, frame, left, code, kinds, heap, top, instr, out)? {
        Flow::Next => {
            frame.at += 1;
            Ok(Flow::Next)
        }
        Flow::Behind => {
            frame.at += 1;
            Ok(Flow::Behind)
        }
        Flow::Here => Ok(Flow::Here),
        Flow::Out => Ok(Flow::Out),
    }
}

/// Where a frame does not go on: what the run came to, or the call or the return that is due.
#[derive(Clone, Copy)]
enum Rested<'a> {
    At(Step),
    Due(&'a Instr),
}

/// How a frame goes on.
#[derive(Clone, Copy)]
enum Flow {
    /// Behind the instruction.
    Next,
    /// Behind the instruction, on the way that jumps take. The compiler looks the next instruction up at the end of each one that
    /// goes the other way, and not at one place for all, as long as no more than sixteen go it.
    Behind,
    /// Where it stands.
    Here,
    /// Not at all: what the run came to is told beside, or that a call or a return is due.
    Out,
}

/// How a frame goes on, and where it does not, what the run came to.
#[inline(always)]
fn flow_of(step: Step, out: &mut Option<Step>) -> Flow
    ensures came { came_to result out.new ≡ Some step }
    ensures out { IfOut result (IsOff out.new) }
    ensures next { IfNext result (step ≡ Step.Next) }
{
    match step {
        Step::Next => Flow::Next,
        Step::Here => Flow::Here,
        Step::Switched | Step::Waits(_) | Step::Ends(_) | Step::Trap(_) => {
            *out = Some(step);
            Flow::Out
        }
    }
}

/// The same of an instruction that is seldom met or often jumps: where it goes on, it takes the way of jumps.
#[inline(always)]
fn flow_behind(step: Step, out: &mut Option<Step>) -> Flow
    ensures came { came_to result out.new ≡ Some step }
    ensures out { IfOut result (IsOff out.new) }
    ensures next { IfNext result (step ≡ Step.Next) }
{
    match flow_of(step, out) {
        Flow::Next => Flow::Behind,
        Flow::Behind => Flow::Behind,
        Flow::Here => Flow::Here,
        Flow::Out => Flow::Out,
    }
}

/// The same of a write, which goes on or traps.
#[inline(always)]
fn written(trap: Option<TrapKind>, out: &mut Option<Step>) -> Flow
    ensures came { came_to result out.new ≡ Some (step_of trap) }
    ensures out { IfOut result (IsOff out.new) }
    ensures next { IfNext result (trap ≡ None) }
{
    match trap {
        None => Flow::Behind,
        Some(kind) => {
            *out = Some(Step::Trap(kind));
            Flow::Out
        }
    }
}

/// Where a call or a return is due.
#[inline(always)]
fn left_due(out: &mut Option<Step>) -> Flow
    ensures came { came_to result out.new ≡ None }
    ensures out { IfOut result (IsOff out.new) }
    ensures due { result ≡ Flow.Out }
{
    *out = None;
    Flow::Out
}

/// One instruction. Where the frame does not go on, `out` is set to what it came to, or to None where it is a call or a return,
/// which is not carried out here.
#[inline(always)]
fn instruction<H: HeapAt>(
    standing: &mut Standing<H::Place, H::Ref>,
    frame: &mut CallFrame<H::Ref>,
    left: &mut u32,
    code: &Code,
    kinds: &[Kind],
    heap: &mut H,
    top: &mut Top<H::Ref>,
    instr: &Instr,
    out: &mut Option<Step>,
) -> Result<Flow, NoMemory>
    requires valid { IsValidCode code.now }
    requires running { IsRunning code.now (H.state heap.old) (whole standing.old frame.old left.old) }
    requires funded { IsFunded code.now (H.state heap.old) (whole standing.old frame.old left.old) }
    requires top { IsRoot (H.state heap.old) standing.old.place top.old.root }
    requires last { IfSome top.old.last (IsSeen (H.state heap.old) standing.old.place) }
    requires kinds { kinds.now ≡ (procedure_of code.now frame.old.procedure).kinds }
    requires at { frame.old.at + 1 < 2 ^ 64 }
    requires instr { next_instr (current_of code.now (H.state heap.old) (whole standing.old frame.old left.old)) ≡ Some instr.now }
    ensures acted { IfOk result (CameApart H.state code.now heap.old standing.old frame.old left.old instr.now out.new heap.new standing.new frame.new left.new) }
    ensures out { IfOk result (λ flow. IfOut flow (IsOff out.new)) }
    ensures still { IfOk result (λ flow. IfNext flow (frame.new.at ≡ frame.old.at)) }
    ensures err { OnErr result (KeepsOthers standing.old.place (H.state heap.old) (H.state heap.new)) }
    ensures reads { OnErr result (¬ ((H.state heap.old).writable standing.old.place) → Unchanged (H.state heap.old) (H.state heap.new)) }
    ensures top { top.new.root ≡ top.old.root }
    ensures last { OnOk result (IfSome top.new.last (IsSeen (H.state heap.new) standing.old.place)) }
    ensures home { (standing.new.place ≡ standing.old.place) × (standing.new.run ≡ standing.old.run) }
{
    let at = standing.place;
    match instr {
        Instr::Charge(line) => Ok(flow_of(take_charge(left, frame, *line), out)),
        Instr::Const(d, n) => Ok(flow_of(set(frame, *d, Register::Number(*n)), out)),
        Instr::Null(d) => Ok(flow_of(set(frame, *d, Register::Null), out)),
        Instr::Copy(d, s) => Ok(flow_of(copy(frame, *d, *s), out)),
        Instr::Add(d, a, b) => Ok(flow_of(apply(frame, Op::Add, *d, *a, *b), out)),
        Instr::Sub(d, a, b) => Ok(flow_of(apply(frame, Op::Sub, *d, *a, *b), out)),
        Instr::Mul(d, a, b) => Ok(flow_of(apply(frame, Op::Mul, *d, *a, *b), out)),
        Instr::Div(d, a, b) => Ok(flow_behind(apply(frame, Op::Div, *d, *a, *b), out)),
        Instr::Rem(d, a, b) => Ok(flow_of(apply(frame, Op::Rem, *d, *a, *b), out)),
        Instr::Neg(d, a) => Ok(flow_behind(negate(frame, *d, *a), out)),
        Instr::Root(d, slot) => Ok(flow_of(root(heap, at, top, frame, kinds, *d, *slot), out)),
        Instr::Setroot(slot, s) => Ok(written(set_root(heap, at, top, frame, *slot, *s)?, out)),
        Instr::Check(o) => Ok(flow_behind(check(frame, *o), out)),
        Instr::Load(d, o, slot) => Ok(flow_of(load(heap, at, frame, kinds, *d, *o, *slot), out)),
        Instr::Store(o, slot, s) => Ok(written(store(heap, at, top, frame, *o, *slot, *s)?, out)),
        Instr::Bound(i, elements) => Ok(flow_behind(bound(frame, *i, *elements), out)),
        Instr::Loadx(d, o, first, elements, i) => {
            let element = Element::new(*first, *elements, *i);
            Ok(flow_behind(load_element(heap, at, frame, kinds, *d, *o, element), out))
        }
        Instr::Storex(o, first, elements, i, s) => {
            let element = Element::new(*first, *elements, *i);
            Ok(written(store_element(heap, at, top, frame, *o, element, *s)?, out))
        }
        Instr::New(d, ty) => Ok(flow_behind(make(heap, standing, top, frame, *d, *ty)?, out)),
        Instr::Print(s) => Ok(flow_behind(print(&mut standing.printed, frame, *s)?, out)),
        Instr::Jump(to) => Ok(flow_of(jump(frame, true, *to), out)),
        Instr::Jumpeq(a, b, to) => Ok(flow_behind(jump_equal(heap, frame, *a, *b, *to), out)),
        Instr::Jumpne(a, b, to) => Ok(flow_behind(jump_unequal(heap, frame, *a, *b, *to), out)),
        Instr::Jumplt(a, b, to) => Ok(flow_of(jump_less(frame, *a, *b, *to), out)),
        Instr::Jumple(a, b, to) => Ok(flow_of(jump_at_most(frame, *a, *b, *to), out)),
        Instr::Jumpgt(a, b, to) => Ok(flow_of(jump_less(frame, *b, *a, *to), out)),
        Instr::Jumpge(a, b, to) => Ok(flow_of(jump_at_most(frame, *b, *a, *to), out)),
        Instr::Call(_p, _into, _arguments) => Ok(left_due(out)),
        Instr::Return(_s) => Ok(left_due(out)),
    }
}

/// Carries out the call or the return that is due, from a frame that is held apart.
#[inline(always)]
fn switch<H: HeapAt>(
    standing: &mut Standing<H::Place, H::Ref>,
    frame: &mut CallFrame<H::Ref>,
    _left: u32,
    code: &Code,
    instr: &Instr,
    heap: &H,
) -> Result<Step, NoMemory>
    requires valid { IsValidCode code.now }
    requires running { IsRunning code.now (H.state heap.now) (whole standing.old frame.old _left) }
    requires funded { IsFunded code.now (H.state heap.now) (whole standing.old frame.old _left) }
    requires at { frame.old.at + 1 < 2 ^ 64 }
    requires instr { next_instr (current_of code.now (H.state heap.now) (whole standing.old frame.old _left)) ≡ Some instr.now }
    requires due { IsDue code.now (H.state heap.now) (whole standing.old frame.old _left) }
    ensures ran { IfOk result (RanApart H.state code.now heap.now standing.old frame.old _left heap.now standing.new frame.new _left) }
    ensures falls { IfOk result (FallsApart H.state code.now heap.now standing.old frame.old _left heap.now standing.new frame.new _left) }
    ensures out { IfOk result IsOut }
    ensures home { (standing.new.place ≡ standing.old.place) × (standing.new.run ≡ standing.old.run) }
{
    heap.known();
    match instr {
        Instr::Call(p, into, arguments) => {
            call(standing, frame, code, *p, *into, arguments.as_slice())
        }
        Instr::Return(s) => leave(standing, frame, *s),
        _ => unreachable!(),
    }
}

/// Goes to an index where two registers hold the same.
#[inline(always)]
fn jump_equal<H: HeapAt>(heap: &H, frame: &mut CallFrame<H::Ref>, a: Reg, b: Reg, to: u32) -> Step
    requires there { HasRegister frame.old a × HasRegister frame.old b }
    requires a { IsLiveSomewhere (H.state heap.now) (held_in frame.old a) }
    requires b { IsLiveSomewhere (H.state heap.now) (held_in frame.old b) }
    ensures acts { Performs (H.state heap.now).name frame.old (instr.Jumpeq a b to) result frame.new }
    ensures still { StaysAt frame.old result frame.new }
    ensures registers { frame.new.registers ≡ frame.old.registers }
    ensures same { frame.new.procedure ≡ frame.old.procedure }
{
    let equal = same(heap, read(frame, a), read(frame, b));
    jump(frame, equal, to)
}

/// Goes to an index where two registers do not hold the same.
#[inline(always)]
fn jump_unequal<H: HeapAt>(heap: &H, frame: &mut CallFrame<H::Ref>, a: Reg, b: Reg, to: u32) -> Step
    requires there { HasRegister frame.old a × HasRegister frame.old b }
    requires a { IsLiveSomewhere (H.state heap.now) (held_in frame.old a) }
    requires b { IsLiveSomewhere (H.state heap.now) (held_in frame.old b) }
    ensures acts { Performs (H.state heap.now).name frame.old (instr.Jumpne a b to) result frame.new }
    ensures still { StaysAt frame.old result frame.new }
    ensures registers { frame.new.registers ≡ frame.old.registers }
    ensures same { frame.new.procedure ≡ frame.old.procedure }
{
    let equal = same(heap, read(frame, a), read(frame, b));
    jump(frame, !equal, to)
}

/// Prints a number, unless the run has printed 65,536.
#[inline(always)]
fn print<R: Copy>(printed: &mut Vec<i64>, frame: &CallFrame<R>, s: Reg) -> Result<Step, NoMemory>
    requires { HoldsNumber frame.now s }
    ensures { AtEachMeaning frame.now (λ f. IfOk result (λ step. Printed printed.old.items (number_in f s) step printed.new.items)) }
{
    if printed.len() >= MOST_PRINTED {
        return Ok(Step::Trap(TrapKind::Output));
    }
    let n = operand(frame, s);
    printed.push(n)?;
    Ok(Step::Next)
}
