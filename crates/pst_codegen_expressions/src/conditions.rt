//! The code of conditions. A condition is a jump to where it does not hold, or to where it holds, and no value is made.

ghost use Rattle.std.specs.Prelude.{◌≡◌, ◌+◌, true, length, IfOk, OnOk};
ghost use Rattle.pst_program.specs.View.{expr_of};
ghost use Rattle.pst_translation.specs.Code.{reg, arithmetic, opposite, jump_of, compare_code};
ghost use Rattle.pst_codegen_expressions.specs.Ready.{HasNoted, IsOperand, IsTest};
ghost use Rattle.pst_codegen_expressions.specs.Emitted.{Emits, comparison_code, condition_size, condition_code};
ghost use Rattle.pst_codegen_expressions.specs.Sizes.{expr_size};

use crate::expressions::{emit_expr, put};
use crate::layout::Layout;
use pst_base::{NoMemory, Op};
use pst_code::{Instr, Reg};
use pst_program::Typed;

/// The index after so many instructions. It has 32 bits, and one that does not fit is refused as want of memory.
///
/// # Errors
/// Where there was no memory.
pub fn after(at: u32, count: u32) -> Result<u32, NoMemory>
    ensures { IfOk result (λ to. to ≡ at + count) }
{
    at.checked_add(count).ok_or(NoMemory)
}

/// How many instructions an operand takes.
fn expr_len(e: &Typed) -> Result<u32, NoMemory>
    ensures { IfOk result (λ n. n ≡ expr_size (expr_of e.now)) }
{
    match e {
        Typed::Number(_) | Typed::Null(_) | Typed::Root(_) => Ok(1),
        Typed::Local(_) | Typed::Not(_) => Ok(0),
        Typed::Parens(inner) => expr_len(inner),
        Typed::Load { object, .. } => after(expr_len(object)?, 1),
        Typed::LoadIndexed { object, index, .. } => {
            after(after(expr_len(object)?, expr_len(index)?)?, 2)
        }
        Typed::Negate(operand) => after(expr_len(operand)?, 1),
        Typed::Binary { op, left, right } => {
            let operands = after(expr_len(left)?, expr_len(right)?)?;
            after(operands, arithmetic_len(*op))
        }
    }
}

/// How many instructions an operator that gives a number takes; one that gives a truth takes none.
fn arithmetic_len(op: Op) -> u32
    ensures { result ≡ length (arithmetic op (reg 0) (reg 0) (reg 0)) }
{
    match op {
        Op::Add | Op::Sub | Op::Mul | Op::Div | Op::Rem => 1,
        Op::Equal
        | Op::NotEqual
        | Op::Less
        | Op::LessEqual
        | Op::Greater
        | Op::GreaterEqual
        | Op::And
        | Op::Or => 0,
    }
}

/// How many instructions a comparison takes.
fn compare_len(op: Op) -> u32
    ensures { result ≡ length (compare_code op true (reg 0) (reg 0) 0) }
{
    match op {
        Op::Equal | Op::NotEqual | Op::Less | Op::LessEqual | Op::Greater | Op::GreaterEqual => 1,
        Op::Add | Op::Sub | Op::Mul | Op::Div | Op::Rem | Op::And | Op::Or => 0,
    }
}

/// How many instructions a condition takes.
///
/// # Errors
/// Where there was no memory.
#[tactic(auto, using(crate::proofs::Lengths::expr_length))]
pub fn test_len(layout: &Layout<'_>, e: &Typed) -> Result<u32, NoMemory>
    ensures { IfOk result (λ n. n ≡ condition_size layout.now (expr_of e.now)) }
{
    match e {
        Typed::Parens(inner) | Typed::Not(inner) => test_len(layout, inner),
        Typed::Binary { op, left, right } => match op {
            Op::And | Op::Or => after(test_len(layout, left)?, test_len(layout, right)?),
            Op::Add
            | Op::Sub
            | Op::Mul
            | Op::Div
            | Op::Rem
            | Op::Equal
            | Op::NotEqual
            | Op::Less
            | Op::LessEqual
            | Op::Greater
            | Op::GreaterEqual => {
                let operands = after(expr_len(left)?, expr_len(right)?)?;
                after(operands, compare_len(*op))
            }
        },
        Typed::Number(_)
        | Typed::Null(_)
        | Typed::Local(_)
        | Typed::Root(_)
        | Typed::Load { .. }
        | Typed::LoadIndexed { .. }
        | Typed::Negate(_) => Ok(0),
    }
}

/// The comparison that holds where the other does not.
fn opposite(op: Op) -> Op
    ensures { result ≡ opposite op }
{
    match op {
        Op::Equal => Op::NotEqual,
        Op::NotEqual => Op::Equal,
        Op::Less => Op::GreaterEqual,
        Op::LessEqual => Op::Greater,
        Op::Greater => Op::LessEqual,
        Op::GreaterEqual => Op::Less,
        Op::Add | Op::Sub | Op::Mul | Op::Div | Op::Rem | Op::And | Op::Or => op,
    }
}

/// Adds the jump of a comparison.
fn put_jump(code: &mut Vec<Instr>, op: Op, a: Reg, b: Reg, to: u32) -> Result<(), NoMemory>
    ensures { OnOk result (Emits code.old code.new (jump_of op a b to)) }
{
    match op {
        Op::Equal => put(code, Instr::Jumpeq(a, b, to)),
        Op::NotEqual => put(code, Instr::Jumpne(a, b, to)),
        Op::Less => put(code, Instr::Jumplt(a, b, to)),
        Op::LessEqual => put(code, Instr::Jumple(a, b, to)),
        Op::Greater => put(code, Instr::Jumpgt(a, b, to)),
        Op::GreaterEqual => put(code, Instr::Jumpge(a, b, to)),
        Op::Add | Op::Sub | Op::Mul | Op::Div | Op::Rem | Op::And | Op::Or => Ok(()),
    }
}

/// Adds the code of a comparison: it goes to an index where it comes out as wanted.
fn emit_compare(
    code: &mut Vec<Instr>,
    op: Op,
    want: bool,
    a: Reg,
    b: Reg,
    to: u32,
) -> Result<(), NoMemory>
    ensures { OnOk result (Emits code.old code.new (compare_code op want a b to)) }
{
    let op = if want { op } else { opposite(op) };
    put_jump(code, op, a, b, to)
}

/// Adds the code of a comparison with its operands: it goes to an index where it comes out as wanted.
fn emit_comparison(
    code: &mut Vec<Instr>,
    layout: &Layout<'_>,
    op: Op,
    left: &Typed,
    right: &Typed,
    want: bool,
    to: u32,
) -> Result<(), NoMemory>
    requires left { IsOperand layout.now.shape.now (HasNoted layout.now.table) (expr_of left.now) 0 }
    requires right { IsOperand layout.now.shape.now (HasNoted layout.now.table) (expr_of right.now) 1 }
    ensures { OnOk result (Emits code.old code.new (comparison_code layout.now op (expr_of left.now) (expr_of right.now) want to)) }
{
    let a = emit_expr(code, layout, left, 0)?;
    let b = emit_expr(code, layout, right, 1)?;
    emit_compare(code, op, want, a, b, to)
}

/// Adds the code of a condition, which stands at the index `at`: it goes to the index `to` where its truth is the wanted
/// one, and on otherwise.
///
/// # Errors
/// Where there was no memory.
pub fn emit_test(
    code: &mut Vec<Instr>,
    layout: &Layout<'_>,
    e: &Typed,
    want: bool,
    to: u32,
    at: u32,
) -> Result<(), NoMemory>
    requires { IsTest layout.now.shape.now (HasNoted layout.now.table) (expr_of e.now) }
    ensures { OnOk result (Emits code.old code.new (condition_code layout.now (expr_of e.now) want to at)) }
{
    match e {
        Typed::Parens(inner) => emit_test(code, layout, inner, want, to, at),
        Typed::Not(inner) => emit_test(code, layout, inner, !want, to, at),
        Typed::Binary { op, left, right } => match op {
            Op::And | Op::Or => {
                // The truth of the left operand that decides the whole: false of an `and`, true of an `or`.
                let decides = *op == Op::Or;
                let middle = after(at, test_len(layout, left)?)?;
                let decided = if want == decides {
                    to
                } else {
                    after(middle, test_len(layout, right)?)?
                };
                emit_test(code, layout, left, decides, decided, at)?;
                emit_test(code, layout, right, want, to, middle)
            }
            Op::Add
            | Op::Sub
            | Op::Mul
            | Op::Div
            | Op::Rem
            | Op::Equal
            | Op::NotEqual
            | Op::Less
            | Op::LessEqual
            | Op::Greater
            | Op::GreaterEqual => emit_comparison(code, layout, *op, left, right, want, to),
        },
        // A typed program has no other conditions.
        Typed::Number(_)
        | Typed::Null(_)
        | Typed::Local(_)
        | Typed::Root(_)
        | Typed::Load { .. }
        | Typed::LoadIndexed { .. }
        | Typed::Negate(_) => unreachable!(),
    }
}
