//! The code of blocks, and of the statements that hold some. A nested block is made as a list of its own, since the jumps
//! around it say where it ends.

ghost use Rattle.std.specs.Prelude.{◌≡◌, ◌+◌, length, IfOk, OnOk};
ghost use Rattle.pst_program.specs.Syntax.{If, Either, While};
ghost use Rattle.pst_program.specs.View.{expr_of, action_of, actions_of};
ghost use Rattle.pst_codegen_expressions.specs.Ready.{HasNoted, IsTest, IsReady, AreReady};
ghost use Rattle.pst_codegen_expressions.specs.Emitted.{Emits};
ghost use Rattle.pst_codegen.specs.Made.{code_by, block_by};

use crate::choices::{emit_choice, emit_guarded};
use crate::statements::{
    emit_call, emit_print, emit_return, emit_set, emit_set_root, emit_store, emit_store_element,
};
use pst_base::NoMemory;
use pst_code::{Instr, Reg};
use pst_codegen_expressions::{Layout, after, put, test_len};
use pst_program::{Typed, TypedBlock, TypedForm, TypedStatement};
use std::alloc::Global;

/// The index after some code that stands at an index.
fn behind(at: u32, code: &[Instr]) -> Result<u32, NoMemory>
    ensures { IfOk result (λ to. to ≡ at + length code.now) }
{
    match u32::try_from(code.len()) {
        Ok(count) => after(at, count),
        Err(_) => Err(NoMemory),
    }
}

/// The code of a block that stands at an index.
///
/// # Errors
/// Where there was no memory.
#[cycle(blocks)]
pub fn emit_block(
    alloc: Global,
    layout: &Layout<'_>,
    block: &TypedBlock,
    at: u32,
) -> Result<Vec<Instr>, NoMemory>
    requires { AreReady layout.now.shape.now (HasNoted layout.now.table) (actions_of block.now) }
    ensures { IfOk result (λ code. code.items ≡ block_by layout.now (actions_of block.now) at) }
{
    let mut code = Vec::new(alloc);
    for statement in &block.items {
        let here = behind(at, &code)?;
        emit_statement(alloc, &mut code, layout, statement, here)?;
    }
    Ok(code)
}

/// Adds the code of a statement that stands at an index.
#[cycle(blocks)]
fn emit_statement(
    alloc: Global,
    code: &mut Vec<Instr>,
    layout: &Layout<'_>,
    statement: &TypedStatement,
    at: u32,
) -> Result<(), NoMemory>
    requires { IsReady layout.now.shape.now (HasNoted layout.now.table) (action_of statement.now.form) }
    ensures { OnOk result (Emits code.old code.new (code_by layout.now (action_of statement.now.form) statement.now.line at)) }
{
    let line = statement.line;
    match &statement.form {
        TypedForm::Set { local, value } => emit_set(code, layout, *local, value, line),
        TypedForm::SetRoot { field, value } => emit_set_root(code, layout, *field, value, line),
        TypedForm::Store {
            object,
            field,
            value,
        } => emit_store(code, layout, object, *field, value, line),
        TypedForm::StoreIndexed {
            object,
            field,
            elements,
            index,
            value,
        } => emit_store_element(code, layout, object, *field, *elements, index, value, line),
        TypedForm::New { local, ty } => {
            put(code, Instr::Charge(line))?;
            put(code, Instr::New(Reg(*local), *ty))
        }
        TypedForm::Call {
            result,
            procedure,
            arguments,
        } => emit_call(alloc, code, layout, *result, *procedure, arguments, line),
        TypedForm::Print(e) => emit_print(code, layout, e, line),
        TypedForm::If { condition, yes, no } => match no {
            None => emit_if(alloc, code, layout, condition, yes, line, at),
            Some(no) => emit_either(alloc, code, layout, condition, yes, no, line, at),
        },
        TypedForm::While { condition, body } => {
            emit_while(alloc, code, layout, condition, body, line, at)
        }
        TypedForm::Return(value) => emit_return(code, layout, value, line),
    }
}

/// Adds the code of a choice with one side.
#[cycle(blocks)]
fn emit_if(
    alloc: Global,
    code: &mut Vec<Instr>,
    layout: &Layout<'_>,
    condition: &Typed,
    yes: &TypedBlock,
    line: u32,
    at: u32,
) -> Result<(), NoMemory>
    requires condition { IsTest layout.now.shape.now (HasNoted layout.now.table) (expr_of condition.now) }
    requires yes { AreReady layout.now.shape.now (HasNoted layout.now.table) (actions_of yes.now) }
    ensures { OnOk result (Emits code.old code.new (code_by layout.now (If (expr_of condition.now) (actions_of yes.now)) line at)) }
{
    let test = after(at, 1)?;
    let start = after(test, test_len(layout, condition)?)?;
    let first = emit_block(alloc, layout, yes, start)?;
    let end = behind(start, &first)?;
    emit_guarded(code, layout, condition, first, line, test, end)
}

/// Adds the code of a choice with two sides.
#[cycle(blocks)]
fn emit_either(
    alloc: Global,
    code: &mut Vec<Instr>,
    layout: &Layout<'_>,
    condition: &Typed,
    yes: &TypedBlock,
    no: &TypedBlock,
    line: u32,
    at: u32,
) -> Result<(), NoMemory>
    requires condition { IsTest layout.now.shape.now (HasNoted layout.now.table) (expr_of condition.now) }
    requires yes { AreReady layout.now.shape.now (HasNoted layout.now.table) (actions_of yes.now) }
    requires no { AreReady layout.now.shape.now (HasNoted layout.now.table) (actions_of no.now) }
    ensures { OnOk result (Emits code.old code.new (code_by layout.now (Either (expr_of condition.now) (actions_of yes.now) (actions_of no.now)) line at)) }
{
    let test = after(at, 1)?;
    let start = after(test, test_len(layout, condition)?)?;
    let first = emit_block(alloc, layout, yes, start)?;
    let middle = after(behind(start, &first)?, 1)?;
    let other = emit_block(alloc, layout, no, middle)?;
    let end = behind(middle, &other)?;
    emit_choice(
        code, layout, condition, first, other, line, test, middle, end,
    )
}

/// Adds the code of a loop, which goes back to its charge.
#[cycle(blocks)]
fn emit_while(
    alloc: Global,
    code: &mut Vec<Instr>,
    layout: &Layout<'_>,
    condition: &Typed,
    body: &TypedBlock,
    line: u32,
    at: u32,
) -> Result<(), NoMemory>
    requires condition { IsTest layout.now.shape.now (HasNoted layout.now.table) (expr_of condition.now) }
    requires body { AreReady layout.now.shape.now (HasNoted layout.now.table) (actions_of body.now) }
    ensures { OnOk result (Emits code.old code.new (code_by layout.now (While (expr_of condition.now) (actions_of body.now)) line at)) }
{
    let test = after(at, 1)?;
    let start = after(test, test_len(layout, condition)?)?;
    let turn = emit_block(alloc, layout, body, start)?;
    let end = after(behind(start, &turn)?, 1)?;
    emit_guarded(code, layout, condition, turn, line, test, end)?;
    put(code, Instr::Jump(at))
}
