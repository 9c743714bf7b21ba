//! One call at a place, carried to its end.

ghost use Rattle.std.specs.Prelude.{◌≡◌, IfOk, OnOk};
ghost use Rattle.pst_versions.specs.State.{Unchanged, WritesStay};
ghost use Rattle.pst_machine_steps.specs.Fields.{KeepsOthers};
ghost use Rattle.pst_history.specs.History.{call_of};
ghost use Rattle.pst_linerun.specs.Carried.{CameTo, MayCarryOut, one_call};

use pst_base::{NoMemory, Numbers, RunNo};
use pst_engine_runs::{Meant, add, advance, bare, known};
use pst_program::Ended;
use pst_script::Call;
use pst_versions::HeapAt;
use std::alloc::Global;

/// The same numbers.
fn copy_of(alloc: Global, numbers: &[i64]) -> Result<Numbers, NoMemory>
    ensures { IfOk result (λ copy. copy ≡ numbers.now) }
{
    Ok(Numbers::from_vec(numbers.to_vec(alloc)?))
}

/// Carries out a call at a place with the whole budget, and gives what it printed and how it ended. Other places keep their heaps,
/// and one that can't be written keeps its own, also after `NoMemory`.
pub(crate) fn carry_out<H: HeapAt, C: Meant>(
    alloc: Global,
    code: &C,
    heap: &mut H,
    at: H::Place,
    run: RunNo,
    budget: u32,
    call: &Call,
) -> Result<(Numbers, Ended), NoMemory>
    requires { MayCarryOut (C.meant code.now).meaning (H.state heap.old) at run budget (call_of call.now) }
    ensures ok { IfOk result (λ x. CameTo (C.meant code.now).meaning (H.state heap.old) at (one_call run budget (call_of call.now)) x.0 x.1 (H.state heap.new)) }
    ensures kept { KeepsOthers at (H.state heap.old) (H.state heap.new) }
    ensures writes { OnOk result (WritesStay (H.state heap.old) (H.state heap.new)) }
    ensures reads { ¬ ((H.state heap.old).writable at) → Unchanged (H.state heap.old) (H.state heap.new) }
{
    known::<H, C>(code);
    let mut activation = bare(code, alloc, at, run, budget)?;
    add(code, &mut activation, &call.procedure, &call.arguments)?;
    let end = advance(code, &mut activation, heap, u32::MAX)?;
    Ok((copy_of(alloc, activation.printed())?, end))
}
