//! Runs of code whose meaning is known.

ghost use Rattle.std.specs.Prelude.{◌≡◌, true, IfOk, OnOk, OnErr};
ghost use Rattle.pst_versions.specs.State.{Unchanged, WritesStay};
ghost use Rattle.pst_history.specs.Meaning.{IsLawful, kinds_refusal};
ghost use Rattle.pst_machine.specs.declared.activation.Activation.{Activation};
ghost use Rattle.pst_machine.specs.Advance.{HasFewCounts};
ghost use Rattle.pst_machine_steps.specs.Fields.{KeepsOthers};
ghost use Rattle.pst_engine_runs.specs.Runs.{AdvancedBy, MayAddSome, StandingWaits, StandsBare, SurvivesOthers, WaitsForSome, WaitsWithCall, ended_of, named, runs_of};

use crate::Meant;
use crate::calls::{call_of, refusal_of_kinds};
use pst_base::{NoMemory, Numbers, RunNo, Text};
use pst_machine::{Activation, Progress};
use pst_program::Ended;
use pst_script::Refusal;
use pst_versions::HeapAt;
use std::alloc::Global;

/// What is so of the runs of any code: its meaning is lawful, a run that stands waits for its next slice, and one that stands
/// still does whatever other runs do meanwhile.
pub fn known<H: HeapAt, C: Meant>(code: &C)
    ensures lawful { IsLawful (C.meant code.now).meaning }
    ensures waits { (h : H) → StandingWaits (runs_of (λ (a : Activation H H.Ref H.Place). a.stage) (C.meant code.now).parts) (H.state h) }
    ensures stays { (h k : H) → SurvivesOthers (runs_of (λ (a : Activation H H.Ref H.Place). a.stage) (C.meant code.now).parts) (H.state h) (H.state k) }
{
    let _ = code.code();
}

/// Why a procedure that may write can't be called by this name with these arguments, or None exactly where it can.
pub fn refusal_of_procedure<C: Meant>(
    code: &C,
    procedure: &Text,
    arguments: &Numbers,
) -> Option<Refusal>
    ensures { result ≡ kinds_refusal ((C.meant code.now).meaning.proc procedure.now) arguments.now }
{
    refusal_of_kinds(
        code.code(),
        false,
        procedure.as_slice(),
        arguments.as_slice(),
    )
}

/// Why a query can't be called by this name with these arguments, or None exactly where it can.
pub fn refusal_of_query<C: Meant>(
    code: &C,
    procedure: &Text,
    arguments: &Numbers,
) -> Option<Refusal>
    ensures { result ≡ kinds_refusal ((C.meant code.now).meaning.query procedure.now) arguments.now }
{
    refusal_of_kinds(
        code.code(),
        true,
        procedure.as_slice(),
        arguments.as_slice(),
    )
}

/// A run at a place, without a call and before its first charge. It takes at most `budget` charges.
///
/// # Errors
/// Where there was no memory.
pub fn bare<H: HeapAt, C: Meant>(
    code: &C,
    alloc: Global,
    at: H::Place,
    run: RunNo,
    budget: u32,
) -> Result<Activation<H>, NoMemory>
    ensures place { IfOk result (λ a. a.stage.standing.place ≡ at) }
    ensures stands { IfOk result (λ a. (h : H) → StandsBare (C.meant code.now) (H.state h) at run budget a) }
{
    let _ = code.code();
    Activation::bare(alloc, at, run, budget)
}

/// Adds a call to a run: of a query, or of any procedure at a place that can be written. A refusal changes nothing.
///
/// # Errors
/// Where there was no memory.
pub fn add<H: HeapAt, C: Meant>(
    code: &C,
    activation: &mut Activation<H>,
    procedure: &Text,
    arguments: &Numbers,
) -> Result<(), NoMemory>
    requires { (h : H) × MayAddSome (C.meant code.now) (H.state h) activation.old (named procedure.now arguments.now) }
    ensures place { OnOk result (activation.new.stage.standing.place ≡ activation.old.stage.standing.place) }
    ensures waits { OnOk result ((h : H) → WaitsWithCall (C.meant code.now) (H.state h) activation.old (named procedure.now arguments.now) activation.new) }
    ensures err { OnErr result (activation.new ≡ activation.old) }
{
    let code = code.code();
    code.known();
    let call = call_of(code, procedure, arguments)?;
    activation.add(code, call)
}

/// Grants a run that many more charges, never more than its budget in all, and carries out its calls as far as they reach. Other
/// places keep their heaps, and one that can't be written keeps its own, also after `NoMemory`; the run has failed then.
///
/// # Errors
/// Where there was no memory.
pub fn advance<H: HeapAt, C: Meant>(
    code: &C,
    activation: &mut Activation<H>,
    heap: &mut H,
    charges: u32,
) -> Result<Ended, NoMemory>
    requires ready { WaitsForSome (C.meant code.now) (H.state heap.old) activation.old }
    requires room { HasFewCounts (H.state heap.old) }
    ensures ok { IfOk result (AdvancedBy (C.meant code.now) (H.state heap.old) activation.old charges (H.state heap.new) activation.new) }
    ensures kept { KeepsOthers activation.old.stage.standing.place (H.state heap.old) (H.state heap.new) }
    ensures writes { OnOk result (WritesStay (H.state heap.old) (H.state heap.new)) }
    ensures reads { ¬ ((H.state heap.old).writable activation.old.stage.standing.place) → Unchanged (H.state heap.old) (H.state heap.new) }
    ensures failed { OnErr result (activation.new.stage.failed ≡ true) }
{
    let code = code.code();
    let progress = activation.advance(code, heap, charges)?;
    Ok(ended_of(progress))
}

/// How a slice ended.
fn ended_of(progress: Progress) -> Ended
    ensures { result ≡ ended_of progress }
{
    match progress {
        Progress::Running => Ended::Stopped,
        Progress::Done => Ended::Done,
        Progress::Trapped(trap) => Ended::Trapped(trap),
    }
}
