//! The code of choices and loops whose blocks are made.

ghost use Rattle.std.specs.Prelude.{OnOk};
ghost use Rattle.pst_program.specs.View.{expr_of};
ghost use Rattle.pst_codegen_expressions.specs.Ready.{HasNoted, IsTest};
ghost use Rattle.pst_codegen_expressions.specs.Emitted.{Emits};
ghost use Rattle.pst_codegen.specs.Made.{guarded_code, choice_code};

use pst_base::NoMemory;
use pst_code::Instr;
use pst_codegen_expressions::{Layout, emit_test, put};
use pst_program::Typed;

/// Adds a charge, a condition that stands at the index `test` and goes to the index `to` where it does not hold, and the code
/// behind it.
///
/// # Errors
/// Where there was no memory.
pub fn emit_guarded(
    code: &mut Vec<Instr>,
    layout: &Layout<'_>,
    condition: &Typed,
    mut body: Vec<Instr>,
    line: u32,
    test: u32,
    to: u32,
) -> Result<(), NoMemory>
    requires { IsTest layout.now.shape.now (HasNoted layout.now.table) (expr_of condition.now) }
    ensures { OnOk result (Emits code.old code.new (guarded_code layout.now (expr_of condition.now) body.items line test to)) }
{
    put(code, Instr::Charge(line))?;
    emit_test(code, layout, condition, false, to, test)?;
    code.append(&mut body)
}

/// Adds the code of a choice with two sides: its condition stands at the index `test`, its second side at `middle`, and what
/// follows it at `end`.
///
/// # Errors
/// Where there was no memory.
pub fn emit_choice(
    code: &mut Vec<Instr>,
    layout: &Layout<'_>,
    condition: &Typed,
    first: Vec<Instr>,
    mut other: Vec<Instr>,
    line: u32,
    test: u32,
    middle: u32,
    end: u32,
) -> Result<(), NoMemory>
    requires { IsTest layout.now.shape.now (HasNoted layout.now.table) (expr_of condition.now) }
    ensures { OnOk result (Emits code.old code.new (choice_code layout.now (expr_of condition.now) first.items other.items line test middle end)) }
{
    emit_guarded(code, layout, condition, first, line, test, middle)?;
    put(code, Instr::Jump(end))?;
    code.append(&mut other)
}
