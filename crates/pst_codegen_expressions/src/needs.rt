//! The first pass: which temporary registers the code of a procedure needs.
#![tactic(auto, using(crate::proofs::Noting::noted_append, crate::proofs::Noting::noted_more))]

ghost use Rattle.std.specs.Prelude.{◌≡◌, map, IfOk, OnOk};
ghost use Rattle.std.specs.Option.{option_map};
ghost use Rattle.pst_program.specs.Typed.{root_kind};
ghost use Rattle.pst_program.specs.View.{expr_of, action_of, actions_of, procedure_of};
ghost use Rattle.pst_translation.specs.Code.{kind_or};
ghost use Rattle.pst_translation.specs.Needs.{noted, expr_needs, test_needs, arguments_needs, return_needs, action_needs, block_needs, end_needs, table_of};
ghost use Rattle.pst_codegen_expressions.specs.Ready.{HasAll, IsOperand, IsTest, AreArguments, IsResult, IsReady, AreReady, IsReadyProcedure};

use crate::table::Table;
use pst_base::{Kind, NoMemory, Op, SlotNo, TypeShape};
use pst_program::{Typed, TypedBlock, TypedForm, TypedProc, TypedStatement};
use std::alloc::Global;

/// What a slot of the root record holds. A typed program names only slots that are there.
pub fn root_kind(shape: &[TypeShape], slot: SlotNo) -> Kind
    ensures { result ≡ kind_or (root_kind shape.now slot.0) }
{
    match shape.first().and_then(|root| root.kind(slot)) {
        None => Kind::Int,
        Some(kind) => kind,
    }
}

/// Notes what the code of an operand needs.
fn note_expr(
    alloc: Global,
    table: &mut Table,
    shape: &[TypeShape],
    e: &Typed,
    level: u16,
) -> Result<(), NoMemory>
    requires { IsOperand shape.now HasAll (expr_of e.now) level }
    ensures { OnOk result (table.new ≡ noted table.old (expr_needs shape.now (expr_of e.now) level)) }
{
    match e {
        Typed::Number(_) => table.note(alloc, level, Kind::Int),
        Typed::Null(ty) => table.note(alloc, level, Kind::Pointer(*ty)),
        Typed::Local(_) => Ok(()),
        Typed::Root(slot) => table.note(alloc, level, root_kind(shape, *slot)),
        Typed::Parens(inner) => note_expr(alloc, table, shape, inner, level),
        Typed::Load {
            object,
            field: _,
            kind,
        } => {
            note_expr(alloc, table, shape, object, level)?;
            table.note(alloc, level, *kind)
        }
        Typed::LoadIndexed {
            object,
            index,
            kind,
            ..
        } => {
            note_expr(alloc, table, shape, object, level)?;
            note_expr(alloc, table, shape, index, level + 1)?;
            table.note(alloc, level, *kind)
        }
        Typed::Negate(operand) => {
            note_expr(alloc, table, shape, operand, level)?;
            table.note(alloc, level, Kind::Int)
        }
        // A truth is no operand of a typed program.
        Typed::Not(_) => unreachable!(),
        Typed::Binary { op: _, left, right } => {
            note_expr(alloc, table, shape, left, level)?;
            note_expr(alloc, table, shape, right, level + 1)?;
            table.note(alloc, level, Kind::Int)
        }
    }
}

/// Notes what the code of a condition needs.
fn note_test(
    alloc: Global,
    table: &mut Table,
    shape: &[TypeShape],
    e: &Typed,
) -> Result<(), NoMemory>
    requires { IsTest shape.now HasAll (expr_of e.now) }
    ensures { OnOk result (table.new ≡ noted table.old (test_needs shape.now (expr_of e.now))) }
{
    match e {
        Typed::Parens(inner) => note_test(alloc, table, shape, inner),
        Typed::Not(inner) => note_test(alloc, table, shape, inner),
        Typed::Binary { op, left, right } => match op {
            Op::And | Op::Or => {
                note_test(alloc, table, shape, left)?;
                note_test(alloc, table, shape, right)
            }
            Op::Add
            | Op::Sub
            | Op::Mul
            | Op::Div
            | Op::Rem
            | Op::Equal
            | Op::NotEqual
            | Op::Less
            | Op::LessEqual
            | Op::Greater
            | Op::GreaterEqual => {
                note_expr(alloc, table, shape, left, 0)?;
                note_expr(alloc, table, shape, right, 1)
            }
        },
        // A typed program has no other conditions.
        Typed::Number(_)
        | Typed::Null(_)
        | Typed::Local(_)
        | Typed::Root(_)
        | Typed::Load { .. }
        | Typed::LoadIndexed { .. }
        | Typed::Negate(_) => unreachable!(),
    }
}

/// Notes what the code of arguments needs.
fn note_arguments(
    alloc: Global,
    table: &mut Table,
    shape: &[TypeShape],
    list: &[Typed],
) -> Result<(), NoMemory>
    requires { AreArguments shape.now HasAll (map expr_of list.now) 0 }
    ensures { OnOk result (table.new ≡ noted table.old (arguments_needs shape.now (map expr_of list.now) 0)) }
{
    let mut level = 0;
    for e in list {
        note_expr(alloc, table, shape, e, level)?;
        level += 1;
    }
    Ok(())
}

/// Notes what the code of a returned value needs.
fn note_return(
    alloc: Global,
    table: &mut Table,
    shape: &[TypeShape],
    value: &Option<Typed>,
) -> Result<(), NoMemory>
    requires { IsResult shape.now HasAll (option_map expr_of value.now) }
    ensures { OnOk result (table.new ≡ noted table.old (return_needs shape.now (option_map expr_of value.now))) }
{
    match value {
        None => Ok(()),
        Some(e) => note_expr(alloc, table, shape, e, 0),
    }
}

/// Notes what the code of a block needs.
#[cycle(noting)]
fn note_block(
    alloc: Global,
    table: &mut Table,
    shape: &[TypeShape],
    block: &TypedBlock,
) -> Result<(), NoMemory>
    requires { AreReady shape.now HasAll (actions_of block.now) }
    ensures { OnOk result (table.new ≡ noted table.old (block_needs shape.now (actions_of block.now))) }
{
    for statement in &block.items {
        note_statement(alloc, table, shape, statement)?;
    }
    Ok(())
}

/// Notes what the code of a statement needs.
#[cycle(noting)]
fn note_statement(
    alloc: Global,
    table: &mut Table,
    shape: &[TypeShape],
    statement: &TypedStatement,
) -> Result<(), NoMemory>
    requires { IsReady shape.now HasAll (action_of statement.now.form) }
    ensures { OnOk result (table.new ≡ noted table.old (action_needs shape.now (action_of statement.now.form))) }
{
    match &statement.form {
        TypedForm::Set { local: _, value } => note_expr(alloc, table, shape, value, 0),
        TypedForm::SetRoot { field: _, value } => note_expr(alloc, table, shape, value, 0),
        TypedForm::Store { object, value, .. } => {
            note_expr(alloc, table, shape, object, 0)?;
            note_expr(alloc, table, shape, value, 1)
        }
        TypedForm::StoreIndexed {
            object,
            index,
            value,
            ..
        } => {
            note_expr(alloc, table, shape, object, 0)?;
            note_expr(alloc, table, shape, index, 1)?;
            note_expr(alloc, table, shape, value, 2)
        }
        TypedForm::New { local: _, ty: _ } => Ok(()),
        TypedForm::Call { arguments, .. } => {
            note_arguments(alloc, table, shape, arguments.as_slice())
        }
        TypedForm::Print(e) => note_expr(alloc, table, shape, e, 0),
        TypedForm::If { condition, yes, no } => {
            note_test(alloc, table, shape, condition)?;
            note_block(alloc, table, shape, yes)?;
            match no {
                None => Ok(()),
                Some(block) => note_block(alloc, table, shape, block),
            }
        }
        TypedForm::While { condition, body } => {
            note_test(alloc, table, shape, condition)?;
            note_block(alloc, table, shape, body)
        }
        TypedForm::Return(value) => note_return(alloc, table, shape, value),
    }
}

/// Notes what the end of a procedure needs.
fn note_end(alloc: Global, table: &mut Table, kind: Option<Kind>) -> Result<(), NoMemory>
    ensures { OnOk result (table.new ≡ noted table.old (end_needs kind)) }
{
    match kind {
        None => Ok(()),
        Some(kind) => table.note(alloc, 0, kind),
    }
}

/// The temporary registers of a procedure.
///
/// # Errors
/// Where there was no memory.
pub fn table_of(alloc: Global, shape: &[TypeShape], p: &TypedProc) -> Result<Table, NoMemory>
    requires { IsReadyProcedure shape.now (procedure_of p.now) }
    ensures { IfOk result (λ table. table ≡ table_of shape.now (procedure_of p.now)) }
{
    let mut table = Table::new(alloc);
    note_block(alloc, &mut table, shape, &p.body)?;
    note_end(alloc, &mut table, p.result)?;
    Ok(table)
}
