//! The registers of a frame.

ghost use Rattle.std.specs.Prelude.{◌≡◌, ◌<◌, IfSome, length, slice_set, slice_index_or};
ghost use Rattle.pst_base.specs.declared.names.Name.{Name};
ghost use Rattle.pst_program.specs.Value.{number_of, index_of};
ghost use Rattle.pst_code.specs.declared.procedure.Parts.{Parts};
ghost use Rattle.pst_code.specs.Machine.{Goes, behind, held};
ghost use Rattle.pst_machine_steps.specs.View.{value_of, frame_of, number_in, ActsAs, AtEachMeaning};
ghost use Rattle.pst_machine_steps.specs.Live.{IsPlainRegister, KeptFrom};
ghost use Rattle.pst_machine_steps.specs.Calls.{held_in, HasRegister, HoldsNumber};

use crate::register::{Register, the_number};
use crate::standing::{CallFrame, Step};
use pst_code::Reg;

/// What a register holds.
#[inline(always)]
pub fn held<R: Copy>(frame: &CallFrame<R>, r: Reg) -> Register<R>
    ensures is { result ≡ slice_index_or frame.now.registers.items r.0 Register.Null }
    ensures value { (parts : Parts) (name : R → Name) → value_of name result ≡ held (frame_of parts name frame.now).registers r }
{
    held_at(frame.registers.as_slice(), r)
}

/// What a register in a list holds: null past its end.
#[inline(always)]
fn held_at<R: Copy>(registers: &[Register<R>], r: Reg) -> Register<R>
    ensures { result ≡ slice_index_or registers.now r.0 Register.Null }
{
    match registers.get(usize::from(r.0)) {
        Some(v) => *v,
        None => Register::Null,
    }
}

/// What a register that is there holds.
#[inline(always)]
pub fn read<R: Copy>(frame: &CallFrame<R>, r: Reg) -> Register<R>
    requires { HasRegister frame.now r }
    ensures is { result ≡ slice_index_or frame.now.registers.items r.0 Register.Null }
    ensures value { (parts : Parts) (name : R → Name) → value_of name result ≡ held (frame_of parts name frame.now).registers r }
{
    frame.registers[usize::from(r.0)]
}

/// The number that a register holds, which holds one.
#[inline(always)]
pub fn operand<R: Copy>(frame: &CallFrame<R>, r: Reg) -> i64
    requires { HoldsNumber frame.now r }
    ensures { AtEachMeaning frame.now (λ f. result ≡ number_in f r) }
{
    the_number(read(frame, r))
}

/// Which of so many elements a register holds the index of; None where its number is the index of none.
#[inline(always)]
pub fn index<R: Copy>(frame: &CallFrame<R>, r: Reg, elements: u8) -> Option<u8>
    requires { HoldsNumber frame.now r }
    ensures is { (name : R → Name) → result ≡ index_of elements (number_of (value_of name (held_in frame.now r))) }
    ensures below { IfSome result (λ k. k < elements) }
{
    index_among(elements, the_number(read(frame, r)))
}

/// Which of so many elements a number is the index of.
#[inline(always)]
fn index_among(elements: u8, n: i64) -> Option<u8>
    ensures is { result ≡ index_of elements n }
    ensures below { IfSome result (λ k. k < elements) }
{
    if n < 0 || i64::from(elements) <= n {
        return None;
    }
    Some(n as u8)
}

/// Sets a register.
#[inline(always)]
pub fn set<R: Copy>(frame: &mut CallFrame<R>, d: Reg, v: Register<R>) -> Step
    requires { HasRegister frame.old d }
    ensures acts { (name : R → Name) → ActsAs name frame.old (λ parts f. Goes (behind f (slice_set f.registers d.0 (value_of name v)))) result frame.new }
    ensures registers { frame.new.registers.items ≡ slice_set frame.old.registers.items d.0 v }
    ensures kept { IsPlainRegister v → KeptFrom frame.old.registers.items frame.new.registers.items }
    ensures same { frame.new.procedure ≡ frame.old.procedure }
    ensures at { frame.new.at ≡ frame.old.at }
    ensures line { frame.new.line ≡ frame.old.line }
    ensures goes_on { result ≡ Step.Next }
{
    put_at(&mut frame.registers, d, v);
    Step::Next
}

/// Sets a register in a list that has it.
#[inline(always)]
fn put_at<R: Copy>(registers: &mut Vec<Register<R>>, d: Reg, v: Register<R>)
    requires { d.0 < length registers.old.items }
    ensures { registers.new.items ≡ slice_set registers.old.items d.0 v }
{
    registers[usize::from(d.0)] = v;
}

/// Sets a register in a list, if it is there.
#[inline(always)]
pub fn set_at<R: Copy>(registers: &mut Vec<Register<R>>, d: Reg, v: Register<R>)
    ensures { registers.new.items ≡ slice_set registers.old.items d.0 v }
{
    let d = usize::from(d.0);
    if d < registers.len() {
        registers[d] = v;
    }
}
