//! A whole run.

ghost use Rattle.std.specs.Prelude.{◌≡◌, [], IfOk, OnOk};
ghost use Rattle.pst_program.specs.Meaning.{World};
ghost use Rattle.pst_program.specs.Outcome.{outcome, outcome_of, left};
ghost use Rattle.pst_program.specs.View.{routines_of};
ghost use Rattle.pst_program.specs.Sound.{NamesAreFree};
ghost use Rattle.pst_eval.specs.Work.{ending_of};
ghost use Rattle.pst_eval.specs.Runs.{task_of, IsOutcome};

use crate::calls::run_calls;
use crate::tally::{End, Tally};
use crate::work::Work;
use pst_base::{Counts, NoMemory, Numbers, RunNo, Trap, TrapKind};
use pst_heap::PlainHeap;
use pst_program::{Ended, ProcCall, Program};
use std::alloc::Global;

/// What is run: a run's number, its calls in order, the budget in charges that they share, and how many of these are granted.
#[derive(Clone, Copy)]
pub struct RunSpec<'a> {
    pub run: RunNo,
    pub calls: &'a [ProcCall],
    pub budget: u32,
    /// At most the budget.
    pub granted: u32,
}

/// What a run came to: how far, what it printed, and what it alone counted.
#[derive(Drop)]
pub struct Outcome {
    pub ended: Ended,
    pub printed: Numbers,
    pub counts: Counts,
}

/// Carries out the calls of a run in order on a heap, which becomes the heap that the run leaves. They share the charges,
/// the numbering of records and the printed numbers; a trap ends all. After want of memory the heap may hold part of the run.
///
/// # Errors
/// Where there was no memory.
pub fn evaluate(
    alloc: Global,
    program: &Program,
    heap: &mut PlainHeap,
    spec: &RunSpec,
) -> Result<Outcome, NoMemory>
    // The heap is one of the program's, and no record of it was made by a run with this number.
    requires shape { heap.old.shape ≡ program.now.shape }
    requires fresh { NamesAreFree heap.old.heap spec.now.run 0 }
    ensures outcome { IfOk result (λ o. IsOutcome o heap.new.heap (outcome (routines_of program.now) (task_of spec.now) spec.now.granted heap.old.heap)) }
    ensures shape { OnOk result (heap.new.shape ≡ heap.old.shape) }
{
    let tally = Tally {
        charges: spec.granted.min(spec.budget),
        printed: Vec::new(alloc),
        run: spec.run,
        made: 0,
        counts: Counts {
            records: 0,
            pointer_writes: 0,
            value_writes: 0,
        },
    };
    let mut work = Work {
        tally,
        end: End::Normal,
    };
    let end = run_calls(alloc, program, spec.calls, heap, &mut work)?;
    Ok(Outcome {
        ended: ended(end, spec.budget <= spec.granted),
        printed: Numbers::from_vec(work.tally.printed),
        counts: work.tally.counts,
    })
}

/// How a run ended whose calls ended so, where the whole budget was granted or a part of it.
fn ended(end: End, whole: bool) -> Ended
    ensures { (w : World) → left result w ≡ outcome_of whole (ending_of end [] w) }
{
    match end {
        End::Normal => Ended::Done,
        End::Return(_) => Ended::Done,
        End::Trap(kind, line) => Ended::Trapped(Trap { kind, line }),
        End::Spent(line) if whole => Ended::Trapped(Trap {
            kind: TrapKind::Budget,
            line,
        }),
        End::Spent(_) => Ended::Stopped,
    }
}
