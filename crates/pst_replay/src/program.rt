//! What a replayer asks of a program.

ghost use Rattle.std.specs.Prelude.{◌≡◌, ◌≤◌, IfOk, OnOk, length, map};
ghost use Rattle.pst_base.specs.Heap.{OrdinaryHeap, initial_heap};
ghost use Rattle.pst_program.specs.View.{routines_of};
ghost use Rattle.pst_program.specs.Typed.{IsTyped};
ghost use Rattle.pst_history.specs.Meaning.{CanBeDone};
ghost use Rattle.pst_history.specs.History.{work_of};
ghost use Rattle.pst_history.specs.Direct.{direct_call, meaning_of, procedure_number};
ghost use Rattle.pst_program.specs.Outcome.{calls_of, task_call};
ghost use Rattle.pst_replay.specs.Replay.{IsEnd, direct_calls};

use pst_base::{NoMemory, ProcNo, RunNo};
use pst_eval::{Outcome, RunSpec, evaluate};
use pst_heap::PlainHeap;
use pst_history::{NamedCall, NamedCalls, Run};
use pst_program::{Calls, ProcCall, Program};
use std::alloc::Global;

/// The number of the procedure or query with a name: past the last, where none has it.
fn number_of(program: &Program, name: &[u8]) -> ProcNo
    requires { length program.now.procedures.items.items ≤ 256 }
    ensures { result.0 ≡ procedure_number (routines_of program.now) name.now }
{
    match program.procedure(name) {
        Some(number) => number,
        None => ProcNo(program.procedures.items.len() as u16),
    }
}

/// A call by the number of its procedure.
pub(crate) fn numbered_call(program: &Program, call: &NamedCall) -> Result<ProcCall, NoMemory>
    requires { length program.now.procedures.items.items ≤ 256 }
    ensures { IfOk result (λ c. task_call c ≡ direct_call (routines_of program.now) call.now) }
{
    Ok(ProcCall {
        procedure: number_of(program, call.procedure.as_slice()),
        arguments: call.arguments.copy()?,
    })
}

/// Calls by the numbers of their procedures.
pub(crate) fn numbered_calls(
    alloc: Global,
    program: &Program,
    calls: &NamedCalls,
) -> Result<Calls, NoMemory>
    requires { length program.now.procedures.items.items ≤ 256 }
    ensures { IfOk result (λ cs. calls_of cs ≡ map (direct_call (routines_of program.now)) calls.now) }
{
    let mut items = Vec::with_capacity(alloc, calls.items.len())?;
    for call in &calls.items {
        items.push(numbered_call(program, call)?)?;
    }
    Ok(Calls::from_vec(items))
}

/// The heap of version 0.
#[tactic(auto, unfolding(pst_history::specs::Direct::direct))]
pub(crate) fn first_heap(alloc: Global, program: &Program) -> Result<PlainHeap, NoMemory>
    requires typed { IsTyped (routines_of program.now) }
    ensures shape { IfOk result (λ heap. heap.shape ≡ (meaning_of program.now).shape) }
    ensures heap { IfOk result (λ heap. heap.heap ≡ initial_heap (meaning_of program.now).shape) }
{
    PlainHeap::initial(alloc, &program.shape)
}

/// Executes a run with these calls by number on a heap, which becomes the heap that they leave.
#[tactic(auto, unfolding(pst_history::specs::Direct::direct))]
pub(crate) fn execute(
    alloc: Global,
    program: &Program,
    heap: &mut PlainHeap,
    number: RunNo,
    run: &Run,
    calls: &[ProcCall],
    granted: u32,
) -> Result<Outcome, NoMemory>
    requires typed { IsTyped (routines_of program.now) }
    requires shape { heap.old.shape ≡ (meaning_of program.now).shape }
    requires calls { calls_of calls.now ≡ direct_calls program.now run.now }
    requires ready { CanBeDone (meaning_of program.now) (work_of number.0 run.now) heap.old.heap }
    ensures ended { IfOk result (IsEnd ((meaning_of program.now).outcome (work_of number.0 run.now) granted heap.old.heap)) }
    ensures heap { OnOk result (heap.new.heap ≡ ((meaning_of program.now).outcome (work_of number.0 run.now) granted heap.old.heap).heap) }
    ensures shape { OnOk result (heap.new.shape ≡ heap.old.shape) }
{
    let spec = RunSpec {
        run: number,
        calls,
        budget: run.budget,
        granted,
    };
    let outcome = evaluate(alloc, program, heap, &spec)?;
    Ok(outcome)
}
