//! What a run has come to, and the steps that hold no others.
//!
//! Blocks hold blocks and calls run calls, so the functions that carry these out stand on the stack many times over. What they ask
//! for here stands in no frame of theirs: an end is noted in the [`Work`], and they are told only whether to go on.

ghost use Rattle.std.specs.Prelude.{◌≡◌, ◌≢◌, ◌<◌, ◌≤◌, IfOk, IfSome, OnOk};
ghost use Rattle.pst_program.specs.View.{action_of};
ghost use Rattle.pst_eval.specs.Work.{IsAtWork};
ghost use Rattle.pst_eval.specs.Ends.{Chooses, IsStepEnd, IsSimple};
ghost use Rattle.pst_eval.specs.Flows.{end_of, flow_end};

use crate::steps::step;
use crate::tally::{End, Tally};
use crate::values::{truth, value};
use pst_base::NoMemory;
use pst_heap::PlainHeap;
use pst_program::{Typed, TypedForm, Value};

/// What a run has come to: what it keeps beside its heap, and the end that was noted last.
#[derive(Drop)]
pub struct Work {
    pub tally: Tally,
    pub end: End,
}

/// Whether the next statement is carried out. Where it is not, the end is noted.
#[derive(Clone, Copy, PartialEq, Eq)]
pub enum Flow {
    On,
    Over,
}

impl Work {
    /// Notes how statements ended, where the next one is not carried out.
    pub fn note(&mut self, end: End) -> Flow
        ensures end { end_of result self.new.end ≡ end }
        ensures over { result ≡ Flow.Over → end ≢ End.Normal }
        ensures tally { self.new.tally ≡ self.old.tally }
    {
        match end {
            End::Normal => Flow::On,
            end => {
                self.end = end;
                Flow::Over
            }
        }
    }
}

/// Carries out a statement that holds no other and calls nothing.
///
/// # Errors
/// Where there was no memory.
#[inline(never)]
pub fn carry_out(
    form: &TypedForm,
    line: u32,
    env: &mut Vec<Value>,
    heap: &mut PlainHeap,
    work: &mut Work,
) -> Result<Flow, NoMemory>
    requires simple { IsSimple (action_of form.now) }
    requires ready { IsAtWork heap.old.shape heap.old work.old.tally }
    ensures meaning { IfOk result (λ flow. IsStepEnd form.now line env.old.items heap.old work.old.tally (flow_end flow env.new.items heap.new work.new)) }
    ensures over { IfOk result (λ flow. flow ≡ Flow.Over → work.new.end ≢ End.Normal) }
    ensures ready { OnOk result (IsAtWork heap.old.shape heap.new work.new.tally) }
    ensures fewer { OnOk result (work.new.tally.charges ≤ work.old.tally.charges) }
{
    let end = step(form, line, env, heap, &mut work.tally)?;
    Ok(work.note(end))
}

/// Takes a charge and tells whether a condition holds; None, where there is no charge or a trap, which is noted.
#[inline(never)]
pub fn choose(
    e: &Typed,
    line: u32,
    env: &[Value],
    heap: &PlainHeap,
    work: &mut Work,
) -> Option<bool>
    requires ready { IsAtWork heap.now.shape heap.now work.old.tally }
    ensures meaning { Chooses e.now line env.now heap.now work.old result work.new }
    ensures over { result ≡ None → work.new.end ≢ End.Normal }
    ensures ready { IsAtWork heap.now.shape heap.now work.new.tally }
    ensures fewer { IfSome result (λ _. work.new.tally.charges < work.old.tally.charges) }
    ensures no_more { work.new.tally.charges ≤ work.old.tally.charges }
{
    if !work.tally.charge() {
        work.end = End::Spent(line);
        return None;
    }
    match value(e, env, heap) {
        Err(trap) => {
            work.end = End::Trap(trap, line);
            None
        }
        Ok(v) => Some(truth(v)),
    }
}
