//! Blocks, choices, loops and calls.
//!
//! They stand on the stack as deep as a program nests: 256 calls, with 16 blocks each. So they keep little there: what a run has come
//! to stands in the [`Work`] that all of them share, and a statement that holds no other is carried out by a call.

ghost use Rattle.std.specs.Prelude.{◌≡◌, ◌≢◌, ◌≤◌, ℕ, [], IfOk, OnOk, Option};
ghost use Rattle.pst_program.specs.declared.block.TypedBlock.{size-TypedBlock};
ghost use Rattle.pst_program.specs.declared.block.TypedStatement.{size-TypedStatement};
ghost use Rattle.pst_program.specs.Meaning.{after_call};
ghost use Rattle.pst_eval.specs.Work.{IsAtWork};
ghost use Rattle.pst_eval.specs.Ends.{deepest, block_end, statement_end, called_end, loop_end, call_end, body_end};
ghost use Rattle.pst_eval.specs.Flows.{Leaves, noted_end};

use crate::call::{after, procedure_at};
use crate::locals::{arguments, default_result, first_env};
use crate::tally::End;
use crate::work::{Flow, Work, carry_out, choose};
use pst_base::{NoMemory, TrapKind};
use pst_heap::PlainHeap;
use pst_program::{Program, Typed, TypedBlock, TypedForm, TypedList, TypedStatement, Value};
use std::alloc::Global;

/// Runs a block, where `deep` more calls may become active.
#[cycle(run)]
fn run_block(
    alloc: Global,
    program: &Program,
    deep: u32,
    block: &TypedBlock,
    env: &mut Vec<Value>,
    heap: &mut PlainHeap,
    work: &mut Work,
) -> Result<Flow, NoMemory>
    requires within { size-TypedBlock block.now ≤ deepest program.now.procedures.items.items }
    requires ready { IsAtWork program.now.shape heap.old work.old.tally }
    ensures meaning { Leaves result env.new.items heap.new work.new (block_end program.now deep block.now env.old.items heap.old work.old) }
    ensures over { IfOk result (λ flow. flow ≡ Flow.Over → work.new.end ≢ End.Normal) }
    ensures ready { OnOk result (IsAtWork program.now.shape heap.new work.new.tally) }
    ensures fewer { OnOk result (work.new.tally.charges ≤ work.old.tally.charges) }
{
    for statement in &block.items {
        match run_statement(alloc, program, deep, statement, env, heap, work)? {
            Flow::On => {}
            Flow::Over => return Ok(Flow::Over),
        }
    }
    Ok(Flow::On)
}

/// Carries out a statement, where `deep` more calls may become active.
#[cycle(run)]
#[inline(always)]
fn run_statement(
    alloc: Global,
    program: &Program,
    deep: u32,
    statement: &TypedStatement,
    env: &mut Vec<Value>,
    heap: &mut PlainHeap,
    work: &mut Work,
) -> Result<Flow, NoMemory>
    requires within { size-TypedStatement statement.now ≤ deepest program.now.procedures.items.items }
    requires ready { IsAtWork program.now.shape heap.old work.old.tally }
    ensures meaning { Leaves result env.new.items heap.new work.new (statement_end program.now deep statement.now env.old.items heap.old work.old) }
    ensures over { IfOk result (λ flow. flow ≡ Flow.Over → work.new.end ≢ End.Normal) }
    ensures ready { OnOk result (IsAtWork program.now.shape heap.new work.new.tally) }
    ensures fewer { OnOk result (work.new.tally.charges ≤ work.old.tally.charges) }
{
    let line = statement.line;
    match &statement.form {
        TypedForm::Set { .. }
        | TypedForm::SetRoot { .. }
        | TypedForm::Store { .. }
        | TypedForm::StoreIndexed { .. }
        | TypedForm::New { .. }
        | TypedForm::Print(_)
        | TypedForm::Return(_) => carry_out(&statement.form, line, env, heap, work),
        TypedForm::If { condition, yes, no } => match choose(condition, line, env, heap, work) {
            None => Ok(Flow::Over),
            Some(true) => run_block(alloc, program, deep, yes, env, heap, work),
            Some(false) => match no {
                None => Ok(Flow::On),
                Some(block) => run_block(alloc, program, deep, block, env, heap, work),
            },
        },
        TypedForm::While { condition: e, body } => {
            run_while(alloc, program, deep, line, e, body, env, heap, work)
        }
        TypedForm::Call {
            result,
            procedure,
            arguments: list,
        } => run_called(
            alloc,
            program,
            deep,
            procedure.0,
            list,
            line,
            *result,
            env,
            heap,
            work,
        ),
    }
}

/// Takes the charge of a call, evaluates its arguments, runs it, and sets the local that its result goes into.
#[cycle(run)]
#[inline(never)]
fn run_called(
    alloc: Global,
    program: &Program,
    deep: u32,
    procedure: u16,
    list: &TypedList,
    line: u32,
    into: Option<u16>,
    env: &mut Vec<Value>,
    heap: &mut PlainHeap,
    work: &mut Work,
) -> Result<Flow, NoMemory>
    requires ready { IsAtWork program.now.shape heap.old work.old.tally }
    ensures meaning { Leaves result env.new.items heap.new work.new (called_end program.now deep procedure list.now line into env.old.items heap.old work.old) }
    ensures over { IfOk result (λ flow. flow ≡ Flow.Over → work.new.end ≢ End.Normal) }
    ensures ready { OnOk result (IsAtWork program.now.shape heap.new work.new.tally) }
    ensures fewer { OnOk result (work.new.tally.charges ≤ work.old.tally.charges) }
{
    if !work.tally.charge() {
        return Ok(work.note(End::Spent(line)));
    }
    match arguments(alloc, list.as_slice(), env, heap)? {
        Err(trap) => Ok(work.note(End::Trap(trap, line))),
        Ok(values) => {
            run_call(alloc, program, deep, procedure, values, line, heap, work)?;
            let end = after(work.end, into, env);
            Ok(work.note(end))
        }
    }
}

/// Runs a loop: its body as often as its condition holds, each time for a charge.
#[cycle(run)]
#[inline(always)]
fn run_while(
    alloc: Global,
    program: &Program,
    deep: u32,
    line: u32,
    e: &Typed,
    body: &TypedBlock,
    env: &mut Vec<Value>,
    heap: &mut PlainHeap,
    work: &mut Work,
) -> Result<Flow, NoMemory>
    requires within { size-TypedBlock body.now ≤ deepest program.now.procedures.items.items }
    requires ready { IsAtWork program.now.shape heap.old work.old.tally }
    ensures meaning { Leaves result env.new.items heap.new work.new (loop_end program.now deep e.now body.now line env.old.items heap.old work.old) }
    ensures over { IfOk result (λ flow. flow ≡ Flow.Over → work.new.end ≢ End.Normal) }
    ensures ready { OnOk result (IsAtWork program.now.shape heap.new work.new.tally) }
    ensures fewer { OnOk result (work.new.tally.charges ≤ work.old.tally.charges) }
{
    'turns: loop {
        match choose(e, line, env, heap, work) {
            None => return Ok(Flow::Over),
            Some(true) => {}
            Some(false) => return Ok(Flow::On),
        }
        match run_block(alloc, program, deep, body, env, heap, work)? {
            Flow::On => {}
            Flow::Over => return Ok(Flow::Over),
        }
    }
}

/// Runs a procedure, where `deep` more calls may become active, from a statement at this line, and notes how it ends.
#[cycle(run)]
fn run_call(
    alloc: Global,
    program: &Program,
    deep: u32,
    procedure: u16,
    values: Vec<Value>,
    line: u32,
    heap: &mut PlainHeap,
    work: &mut Work,
) -> Result<(), NoMemory>
    requires ready { IsAtWork program.now.shape heap.old work.old.tally }
    ensures meaning { OnOk result (noted_end heap.new work.new ≡ call_end program.now deep procedure values.items line heap.old work.old) }
    ensures ready { OnOk result (IsAtWork program.now.shape heap.new work.new.tally) }
    ensures fewer { OnOk result (work.new.tally.charges ≤ work.old.tally.charges) }
{
    if deep == 0 {
        work.end = End::Trap(TrapKind::Depth, line);
        return Ok(());
    }
    run_body(alloc, program, deep - 1, procedure, values, heap, work)
}

/// Runs the body of a procedure, where `deep` more calls may become active, and notes how it ends.
///
/// # Errors
/// Where there was no memory.
#[cycle(run)]
pub fn run_body(
    alloc: Global,
    program: &Program,
    deep: u32,
    procedure: u16,
    values: Vec<Value>,
    heap: &mut PlainHeap,
    work: &mut Work,
) -> Result<(), NoMemory>
    requires ready { IsAtWork program.now.shape heap.old work.old.tally }
    ensures meaning { OnOk result (noted_end heap.new work.new ≡ body_end program.now deep procedure values.items heap.old work.old) }
    ensures ready { OnOk result (IsAtWork program.now.shape heap.new work.new.tally) }
    ensures fewer { OnOk result (work.new.tally.charges ≤ work.old.tally.charges) }
{
    match procedure_at(program, procedure) {
        None => {
            work.end = End::Return(None);
            Ok(())
        }
        Some(p) => {
            let mut env = first_env(values, p.kinds.as_slice())?;
            match run_block(alloc, program, deep, &p.body, &mut env, heap, work)? {
                Flow::On => {
                    work.end = End::Return(default_result(p.result));
                    Ok(())
                }
                Flow::Over => Ok(()),
            }
        }
    }
}
