//! Calls and returns.

ghost use Rattle.std.specs.Prelude.{◌≡◌, ◌+◌, ◌<◌, ◌≤◌, ◌^◌, ◌++◌, ◌∷◌, [], map, drop, length, vec_capacity, IfOk, OnOk};
ghost use Rattle.pst_machine_steps.specs.Calls.{HoldsNothing, held_in, register_default, SameTally, CalledIn, first_registers, with_register, given_back, Left};

use crate::frame::{held, set_at};
use crate::register::Register;
use crate::standing::{CallFrame, Standing, Step, Waiting};
use pst_base::{Kind, NoMemory, ProcNo, TrapKind};
use pst_code::{Code, Reg};
use std::alloc::Global;
use std::mem;

/// The most frames that wait at once.
const MOST_CALLERS: usize = 255;

/// Enters a procedure from the frame of a run that is held apart, unless 256 calls are active.
///
/// # Errors
/// Where there was no memory.
#[inline(always)]
pub fn call<P: Copy, R: Copy>(
    standing: &mut Standing<P, R>,
    frame: &mut CallFrame<R>,
    code: &Code,
    procedure: ProcNo,
    into: Option<Reg>,
    arguments: &[Reg],
) -> Result<Step, NoMemory>
    requires known { procedure.0 < length code.now.procedures }
    requires at { frame.old.at + 1 < 2 ^ 64 }
    ensures called { IfOk result (λ step. CalledIn code.now frame.old standing.old procedure into arguments.now step frame.new standing.new) }
    ensures same { SameTally standing.old standing.new }
{
    if standing.callers.len() >= MOST_CALLERS {
        return Ok(Step::Trap(TrapKind::Depth));
    }
    let kinds = code.body(procedure).kinds.as_slice();
    let next = entered(standing, frame, procedure, kinds, arguments)?;
    frame.at += 1;
    swap_in(frame, &mut standing.callers, next, into)?;
    Ok(Step::Switched)
}

/// The frame that a procedure begins with, which is called from another one.
#[inline(always)]
fn entered<P: Copy, R: Copy>(
    standing: &mut Standing<P, R>,
    caller: &CallFrame<R>,
    procedure: ProcNo,
    kinds: &[Kind],
    arguments: &[Reg],
) -> Result<CallFrame<R>, NoMemory>
    ensures registers { IfOk result (λ f. f.registers.items ≡ first_registers caller.now arguments.now kinds.now) }
    ensures frame { IfOk result (λ f. (f.procedure ≡ procedure) × (f.at ≡ 0) × (f.line ≡ 0)) }
    ensures same { SameTally standing.old standing.new }
    ensures callers { standing.new.callers ≡ standing.old.callers }
{
    let mut list = empty(standing.alloc, &mut standing.spare);
    list.reserve(arguments.len().max(kinds.len()))?;
    let registers = filled(gathered(list, caller, arguments), kinds);
    Ok(CallFrame {
        procedure,
        at: 0,
        registers,
        line: 0,
    })
}

/// An empty list of registers, one that was used before if there is one.
fn empty<R: Copy>(alloc: Global, spare: &mut Vec<Vec<Register<R>>>) -> Vec<Register<R>>
    ensures { result.items ≡ [] }
{
    match spare.pop() {
        None => Vec::new(alloc),
        Some(registers) => emptied(registers),
    }
}

/// The list with nothing in it.
fn emptied<R: Copy>(registers: Vec<Register<R>>) -> Vec<Register<R>>
    ensures { result.items ≡ [] }
{
    let mut registers = registers;
    registers.clear();
    registers
}

/// A list that has room for them, and behind it what registers of a frame hold, in order.
#[inline(always)]
fn gathered<R: Copy>(
    list: Vec<Register<R>>,
    frame: &CallFrame<R>,
    arguments: &[Reg],
) -> Vec<Register<R>>
    requires { length list.items + length arguments.now ≤ vec_capacity list }
    ensures items { result.items ≡ list.items ++ map (held_in frame.now) arguments.now }
    ensures capacity { vec_capacity result ≡ vec_capacity list }
{
    // A list of this function alone, so that its length need not be written for each element.
    let mut all = list;
    for r in arguments {
        all.push_reserved(held(frame, *r));
    }
    all
}

/// A list of registers that has room for all, and what those behind them hold at first.
#[inline(always)]
fn filled<R: Copy>(list: Vec<Register<R>>, kinds: &[Kind]) -> Vec<Register<R>>
    requires { length kinds.now ≤ vec_capacity list }
    ensures { result.items ≡ list.items ++ map register_default (drop (length list.items) kinds.now) }
{
    let mut all = list;
    let start = all.len();
    for i in start..kinds.len() {
        all.push_reserved(default(kinds[i]));
    }
    all
}

/// Appends what the registers behind these hold at first.
///
/// # Errors
/// Where there was no memory.
pub fn fill<R: Copy>(registers: &mut Vec<Register<R>>, kinds: &[Kind]) -> Result<(), NoMemory>
    ensures { OnOk result (registers.new.items ≡ registers.old.items ++ map register_default (drop (length registers.old.items) kinds.now)) }
{
    registers.reserve(kinds.len().saturating_sub(registers.len()))?;
    let none = Vec::new(*registers.allocator());
    let list = mem::replace(registers, none);
    *registers = filled(list, kinds);
    Ok(())
}

/// What a register holds at first.
fn default<R: Copy>(kind: Kind) -> Register<R>
    ensures { result ≡ register_default kind }
{
    match kind {
        Kind::Int => Register::Number(0),
        Kind::Pointer(_) => Register::Null,
    }
}

/// Puts the current frame to those that wait, and another in its place.
#[inline(always)]
fn swap_in<R: Copy>(
    current: &mut CallFrame<R>,
    callers: &mut Vec<Waiting<R>>,
    next: CallFrame<R>,
    into: Option<Reg>,
) -> Result<(), NoMemory>
    ensures current { OnOk result (current.new ≡ next) }
    ensures callers { OnOk result (callers.new.items ≡ callers.old.items ++ record { frame = current.old; into = into } ∷ []) }
{
    // Field by field, so that no padding is copied.
    let CallFrame {
        procedure,
        at,
        registers,
        line,
    } = next;
    let frame = CallFrame {
        procedure: current.procedure,
        at: current.at,
        registers: mem::replace(&mut current.registers, registers),
        line: current.line,
    };
    current.procedure = procedure;
    current.at = at;
    current.line = line;
    callers.push(Waiting { frame, into })?;
    Ok(())
}

/// Ends the frame of a run that is held apart. The one that waits for it goes on.
///
/// # Errors
/// Where there was no memory.
#[inline(always)]
pub fn leave<P: Copy, R: Copy>(
    standing: &mut Standing<P, R>,
    frame: &mut CallFrame<R>,
    s: Option<Reg>,
) -> Result<Step, NoMemory>
    ensures left { IfOk result (λ step. Left frame.old standing.old.callers.items s step frame.new standing.new.callers.items) }
    ensures same { SameTally standing.old standing.new }
{
    let v = result_of(frame, s);
    match standing.callers.pop() {
        None => Ok(Step::Ends(s)),
        Some(waiting) => {
            let Waiting { frame: back, into } = waiting;
            let left = mem::replace(frame, back);
            standing.spare.push(left.registers)?;
            keep(frame, into, v);
            Ok(Step::Switched)
        }
    }
}

/// Lets go of what all frames hold. The last list of registers is kept, empty, for the next call.
pub fn let_go<P: Copy, R: Copy>(standing: &mut Standing<P, R>)
    ensures empty { HoldsNothing standing.new }
    ensures same { SameTally standing.old standing.new }
{
    standing.current.registers.clear();
    standing.callers.clear();
}

/// What a frame gives back.
fn result_of<R: Copy>(frame: &CallFrame<R>, s: Option<Reg>) -> Option<Register<R>>
    ensures { result ≡ given_back frame.now s }
{
    match s {
        None => None,
        Some(s) => Some(held(frame, s)),
    }
}

/// Puts the result of a call into a register, if one is named.
fn keep<R: Copy>(frame: &mut CallFrame<R>, into: Option<Reg>, v: Option<Register<R>>)
    ensures registers { frame.new.registers.items ≡ with_register into v frame.old.registers.items }
    ensures same { (frame.new.procedure ≡ frame.old.procedure) × (frame.new.at ≡ frame.old.at) × (frame.new.line ≡ frame.old.line) }
{
    if let (Some(d), Some(v)) = (into, v) {
        set_at(&mut frame.registers, d, v);
    }
}
