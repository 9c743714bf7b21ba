//! The instructions that stay in their frame and leave the heap alone.

ghost use Rattle.std.specs.Prelude.{◌≡◌, ◌*ℤ◌, neg_ℤ, int_lt, int_le, FitsSigned, SomeIff};
ghost use Rattle.std.specs.Int.{w64};
ghost use Rattle.pst_base.specs.declared.names.Name.{Name};
ghost use Rattle.pst_program.specs.declared.meaning.Value.{Value};
ghost use Rattle.pst_program.specs.declared.meaning.Value.TheVariants as value;
ghost use Rattle.pst_program.specs.Value.{number_of, limited, operate};
ghost use Rattle.pst_code.specs.declared.instr.Instr.TheVariants as instr;
ghost use Rattle.pst_code.specs.Machine.{after_effect, apply, jump_where};
ghost use Rattle.pst_machine_steps.specs.View.{answer_of, given_of, number_in, set_to, ActsAs, AtEachMeaning, IsArithmetic, Performs, StaysAt};
ghost use Rattle.pst_machine_steps.specs.Live.{KeptFrom};
ghost use Rattle.pst_machine_steps.specs.Calls.{HasRegister, HoldsNumber};
ghost use Rattle.pst_machine_steps.specs.Steps.{Charged};

use crate::frame::{index, operand, read, set};
use crate::register::Register;
use crate::standing::{CallFrame, Step};
use pst_base::{Op, TrapKind};
use pst_code::Reg;

/// Sets a register to what another one holds.
#[inline(always)]
pub fn copy<R: Copy>(frame: &mut CallFrame<R>, d: Reg, s: Reg) -> Step
    requires { HasRegister frame.old d × HasRegister frame.old s }
    ensures acts { (name : R → Name) → Performs name frame.old (instr.Copy d s) result frame.new }
    ensures kept { KeptFrom frame.old.registers.items frame.new.registers.items }
    ensures same { frame.new.procedure ≡ frame.old.procedure }
    ensures still { StaysAt frame.old result frame.new }
{
    let v = read(frame, s);
    set(frame, d, v)
}

/// Sets a register to an exact result, or traps.
#[inline(always)]
fn put<R: Copy>(frame: &mut CallFrame<R>, d: Reg, answer: Result<i64, TrapKind>) -> Step
    requires { HasRegister frame.old d }
    ensures acts { (name : R → Name) → ActsAs name frame.old (λ parts. set_to d (answer_of answer)) result frame.new }
    ensures kept { KeptFrom frame.old.registers.items frame.new.registers.items }
    ensures same { frame.new.procedure ≡ frame.old.procedure }
    ensures still { StaysAt frame.old result frame.new }
{
    match answer {
        Ok(n) => set(frame, d, Register::Number(n)),
        Err(kind) => Step::Trap(kind),
    }
}

/// Sets a register to the number with the other sign, or traps.
#[inline(always)]
pub fn negate<R: Copy>(frame: &mut CallFrame<R>, d: Reg, a: Reg) -> Step
    requires there { HasRegister frame.old d }
    requires number { HoldsNumber frame.old a }
    ensures acts { (name : R → Name) → Performs name frame.old (instr.Neg d a) result frame.new }
    ensures kept { KeptFrom frame.old.registers.items frame.new.registers.items }
    ensures same { frame.new.procedure ≡ frame.old.procedure }
    ensures still { StaysAt frame.old result frame.new }
{
    let n = operand(frame, a);
    put(frame, d, negative(n))
}

/// Whether the number in one register is less than that in another.
#[inline(always)]
fn is_less<R: Copy>(frame: &CallFrame<R>, a: Reg, b: Reg) -> bool
    requires { HoldsNumber frame.now a × HoldsNumber frame.now b }
    ensures { AtEachMeaning frame.now (λ f. result ≡ int_lt (number_in f a) (number_in f b)) }
{
    operand(frame, a) < operand(frame, b)
}

/// Whether the number in one register is at most that in another.
#[inline(always)]
fn is_at_most<R: Copy>(frame: &CallFrame<R>, a: Reg, b: Reg) -> bool
    requires { HoldsNumber frame.now a × HoldsNumber frame.now b }
    ensures { AtEachMeaning frame.now (λ f. result ≡ int_le (number_in f a) (number_in f b)) }
{
    operand(frame, a) <= operand(frame, b)
}

/// Sets a register to what an operator gives of two others, or traps.
#[inline(always)]
pub fn apply<R: Copy>(frame: &mut CallFrame<R>, op: Op, d: Reg, a: Reg, b: Reg) -> Step
    requires op { IsArithmetic op }
    requires there { HasRegister frame.old d }
    requires numbers { HoldsNumber frame.old a × HoldsNumber frame.old b }
    ensures acts { (name : R → Name) → ActsAs name frame.old (λ parts f c w. after_effect (apply op d a b f.line f.registers w) f c) result frame.new }
    ensures kept { KeptFrom frame.old.registers.items frame.new.registers.items }
    ensures same { frame.new.procedure ≡ frame.old.procedure }
    ensures still { StaysAt frame.old result frame.new }
{
    let left = operand(frame, a);
    let right = operand(frame, b);
    put(frame, d, operate(op, left, right))
}

/// Traps where a register holds null.
#[inline(always)]
pub fn check<R: Copy>(frame: &CallFrame<R>, o: Reg) -> Step
    requires { HasRegister frame.now o }
    ensures acts { (name : R → Name) → Performs name frame.now (instr.Check o) result frame.now }
{
    match read(frame, o) {
        Register::Reference(_) => Step::Next,
        _ => Step::Trap(TrapKind::Null),
    }
}

/// Traps where a register holds the index of none of so many elements.
#[inline(always)]
pub fn bound<R: Copy>(frame: &CallFrame<R>, i: Reg, elements: u8) -> Step
    requires { HoldsNumber frame.now i }
    ensures acts { (name : R → Name) → Performs name frame.now (instr.Bound i elements) result frame.now }
{
    match index(frame, i, elements) {
        Some(_) => Step::Next,
        None => Step::Trap(TrapKind::Index),
    }
}

/// Goes to an index where the test holds.
#[inline(always)]
pub fn jump<R: Copy>(frame: &mut CallFrame<R>, holds: bool, to: u32) -> Step
    ensures acts { (name : R → Name) → ActsAs name frame.old (λ parts. jump_where holds to) result frame.new }
    ensures registers { frame.new.registers ≡ frame.old.registers }
    ensures same { frame.new.procedure ≡ frame.old.procedure }
    ensures still { StaysAt frame.old result frame.new }
{
    if holds {
        frame.at = to as usize;
        return Step::Here;
    }
    Step::Next
}

/// Goes to an index where the number in one register is less than that in another.
#[inline(always)]
pub fn jump_less<R: Copy>(frame: &mut CallFrame<R>, a: Reg, b: Reg, to: u32) -> Step
    requires { HoldsNumber frame.old a × HoldsNumber frame.old b }
    ensures acts { (name : R → Name) → Performs name frame.old (instr.Jumplt a b to) result frame.new }
    ensures registers { frame.new.registers ≡ frame.old.registers }
    ensures same { frame.new.procedure ≡ frame.old.procedure }
    ensures still { StaysAt frame.old result frame.new }
{
    let holds = is_less(frame, a, b);
    jump(frame, holds, to)
}

/// Goes to an index where the number in one register is at most that in another.
#[inline(always)]
pub fn jump_at_most<R: Copy>(frame: &mut CallFrame<R>, a: Reg, b: Reg, to: u32) -> Step
    requires { HoldsNumber frame.old a × HoldsNumber frame.old b }
    ensures acts { (name : R → Name) → Performs name frame.old (instr.Jumple a b to) result frame.new }
    ensures registers { frame.new.registers ≡ frame.old.registers }
    ensures same { frame.new.procedure ≡ frame.old.procedure }
    ensures still { StaysAt frame.old result frame.new }
{
    let holds = is_at_most(frame, a, b);
    jump(frame, holds, to)
}

/// Takes a charge and keeps its line, or waits for it.
#[inline(always)]
pub fn take_charge<R: Copy>(left: &mut u32, frame: &mut CallFrame<R>, line: u32) -> Step
    ensures charged { Charged left.old frame.old line result left.new frame.new }
    ensures still { StaysAt frame.old result frame.new }
{
    if *left == 0 {
        return Step::Waits(line);
    }
    *left -= 1;
    frame.line = line;
    Step::Next
}

/// An exact result, if it is a number of 64 bits.
#[inline(always)]
fn limited(n: Option<i64>) -> Result<i64, TrapKind>
    ensures { result ≡ given_of n }
{
    match n {
        Some(n) => Ok(n),
        None => Err(TrapKind::Overflow),
    }
}

/// The number with the other sign.
#[inline(always)]
fn negative(n: i64) -> Result<i64, TrapKind>
    ensures { answer_of result ≡ limited (neg_ℤ n) }
{
    limited(n.checked_neg())
}

/// What an operator gives of two numbers.
#[inline(always)]
fn operate(op: Op, n: i64, m: i64) -> Result<i64, TrapKind>
    requires { IsArithmetic op }
    ensures { (v w : Value) → number_of v ≡ n → number_of w ≡ m → answer_of result ≡ operate op v w }
{
    match op {
        Op::Add => limited(n.checked_add(m)),
        Op::Sub => limited(n.checked_sub(m)),
        Op::Mul => limited(product(n, m)),
        Op::Div => quotient(n, m),
        Op::Rem => remainder(n, m),
        // No operator that compares or decides is an instruction.
        Op::Equal
        | Op::NotEqual
        | Op::Less
        | Op::LessEqual
        | Op::Greater
        | Op::GreaterEqual
        | Op::And
        | Op::Or => unreachable!(),
    }
}

/// The product, if it is a number of 64 bits. It is taken in 128 bits once, and not again in 64.
#[inline(always)]
fn product(n: i64, m: i64) -> Option<i64>
    ensures { SomeIff result (FitsSigned w64 (n *ℤ m)) (n *ℤ m) }
{
    i64::try_from(i128::from(n) * i128::from(m)).ok()
}

/// The quotient, rounded towards zero.
#[inline(always)]
fn quotient(n: i64, divisor: i64) -> Result<i64, TrapKind>
    ensures { answer_of result ≡ operate Op.Div (value.Number n) (value.Number divisor) }
{
    if divisor == 0 {
        return Err(TrapKind::Divide);
    }
    limited(n.checked_div(divisor))
}

/// What the quotient, taken without a limit of range, leaves.
#[inline(always)]
fn remainder(n: i64, divisor: i64) -> Result<i64, TrapKind>
    ensures { answer_of result ≡ operate Op.Rem (value.Number n) (value.Number divisor) }
{
    if divisor == 0 {
        return Err(TrapKind::Divide);
    }
    Ok(n.wrapping_rem(divisor))
}
