//! The calls of a run, one after another.

ghost use Rattle.std.specs.Prelude.{◌≡◌, [], map, IfOk, OnOk};
ghost use Rattle.pst_program.specs.Meaning.{World, Ending};
ghost use Rattle.pst_program.specs.Outcome.{next_call};
ghost use Rattle.pst_eval.specs.Work.{ending_of, ending_with, IsAtWork};
ghost use Rattle.pst_eval.specs.Ends.{last_or, all_calls_end, one_call_end};

use crate::run::run_body;
use crate::tally::End;
use crate::work::Work;
use pst_base::NoMemory;
use pst_heap::PlainHeap;
use pst_program::{ProcCall, Program, Value};
use std::alloc::Global;

/// How many more calls may become active beside the first.
const DEEP: u32 = 255;

/// Carries out calls in order, each with what the one before left, until one traps or a charge is due that is not there.
///
/// # Errors
/// Where there was no memory.
pub fn run_calls(
    alloc: Global,
    program: &Program,
    calls: &[ProcCall],
    heap: &mut PlainHeap,
    work: &mut Work,
) -> Result<End, NoMemory>
    requires at_work { IsAtWork program.now.shape heap.old work.old.tally }
    ensures meaning { IfOk result (λ end. ending_with end [] heap.new work.new.tally ≡ all_calls_end program.now calls.now heap.old work.old) }
    ensures at_work { OnOk result (IsAtWork program.now.shape heap.new work.new.tally) }
{
    for call in calls {
        if let Some(end) = last(run_one(alloc, program, call, heap, work)?) {
            return Ok(end);
        }
    }
    Ok(End::Return(None))
}

/// The end of all, where the end of a call is that: a trap, or a charge that is not there.
fn last(end: End) -> Option<End>
    ensures { (w : World) (go : World → Ending) → next_call (ending_of end [] w) go ≡ last_or result go w }
{
    match end {
        End::Normal => None,
        End::Return(_) => None,
        End::Trap(kind, line) => Some(End::Trap(kind, line)),
        End::Spent(line) => Some(End::Spent(line)),
    }
}

/// Carries out one call, whose procedure is the first of 256 calls that may be active.
fn run_one(
    alloc: Global,
    program: &Program,
    call: &ProcCall,
    heap: &mut PlainHeap,
    work: &mut Work,
) -> Result<End, NoMemory>
    requires at_work { IsAtWork program.now.shape heap.old work.old.tally }
    ensures meaning { IfOk result (λ end. ending_with end [] heap.new work.new.tally ≡ one_call_end program.now call.now heap.old work.old) }
    ensures at_work { OnOk result (IsAtWork program.now.shape heap.new work.new.tally) }
{
    let values = numbers(alloc, call.arguments.as_slice())?;
    run_body(alloc, program, DEEP, call.procedure.0, values, heap, work)?;
    Ok(work.end)
}

/// The arguments as values.
fn numbers(alloc: Global, arguments: &[i64]) -> Result<Vec<Value>, NoMemory>
    ensures { IfOk result (λ values. values.items ≡ map Value.Number arguments.now) }
{
    let mut values = Vec::with_capacity(alloc, arguments.len())?;
    for n in arguments {
        values.push(Value::Number(*n))?;
    }
    Ok(values)
}
