//! The calls of a run, one after another.

ghost use Rattle.std.specs.Prelude.{◌≡◌, ◌<◌, ◌++◌, [], map, drop, length, IfOk, IfSome, OnOk, OnErr, slice_get};
ghost use Rattle.pst_code.specs.Valid.{IsValidCode};
ghost use Rattle.pst_versions.specs.State.{Unchanged};
ghost use Rattle.pst_machine_steps.specs.declared.register.Register.TheVariants as register;
ghost use Rattle.pst_machine_steps.specs.Calls.{register_default, HoldsNothing};
ghost use Rattle.pst_machine_frames.specs.Ready.{IsRest};
ghost use Rattle.pst_machine_steps.specs.Fields.{KeepsOthers};
ghost use Rattle.pst_machine.specs.Advance.{BeginsNext, CarriedOut, GoesInto, IsBegun, MayCarryOn, SameTerms};

use crate::pending::ProcCall;
use crate::stage::Stage;
use pst_base::{Kind, NoMemory};
use pst_code::Code;
use pst_machine_frames::run;
use pst_machine_steps::{Register, Standing, Step, fill, let_go};
use pst_versions::HeapAt;

/// Carries out the call that is under way and those that wait, until the charges are used and another is due, or to the end.
/// What a call held is let go where it ends.
///
/// # Errors
/// Where there was no memory.
pub fn carry_out<H: HeapAt>(
    stage: &mut Stage<H::Place, H::Ref>,
    code: &Code,
    heap: &mut H,
) -> Result<Step, NoMemory>
    requires valid { IsValidCode code.now }
    requires may { MayCarryOn code.now (H.state heap.old) stage.old }
    ensures out { IfOk result (λ step. CarriedOut code.now (H.state heap.old) stage.old step (H.state heap.new) stage.new) }
    ensures rests { IfOk result IsRest }
    ensures err { OnErr result (KeepsOthers stage.old.standing.place (H.state heap.old) (H.state heap.new)) }
    ensures reads { OnErr result (¬ ((H.state heap.old).writable stage.old.standing.place) → Unchanged (H.state heap.old) (H.state heap.new)) }
    ensures terms { SameTerms stage.old stage.new }
    ensures home { (stage.new.standing.place ≡ stage.old.standing.place) × (stage.new.standing.run ≡ stage.old.standing.run) }
{
    loop {
        let there = under_way(stage, code, heap)?;
        if !there {
            return Ok(Step::Ends(None));
        }
        match run(&mut stage.standing, code, heap)? {
            Step::Ends(_) => {
                let_go(&mut stage.standing);
                stage.under_way = false;
            }
            step => return Ok(step),
        }
    }
}

/// Begins the next call where none is under way. The answer is whether one is then.
fn under_way<H: HeapAt>(
    stage: &mut Stage<H::Place, H::Ref>,
    code: &Code,
    heap: &H,
) -> Result<bool, NoMemory>
    requires valid { IsValidCode code.now }
    requires may { MayCarryOn code.now (H.state heap.now) stage.old }
    ensures goes { IfOk result (λ there. GoesInto code.now (H.state heap.now) stage.old there stage.new) }
    ensures terms { SameTerms stage.old stage.new }
    ensures home { (stage.new.standing.place ≡ stage.old.standing.place) × (stage.new.standing.run ≡ stage.old.standing.run) }
{
    heap.known();
    if stage.under_way {
        return Ok(true);
    }
    begin_next(stage, code)
}

/// Begins the next call that waits. The answer is whether there is one.
fn begin_next<P: Copy, R: Copy>(stage: &mut Stage<P, R>, code: &Code) -> Result<bool, NoMemory>
    requires there { IfSome (slice_get stage.old.waiting 0) (λ c. c.procedure.0 < length code.now.procedures) }
    requires empty { HoldsNothing stage.old.standing }
    ensures begins { IfOk result (λ there. BeginsNext code.now stage.old there stage.new) }
    ensures terms { SameTerms stage.old stage.new }
    ensures home { (stage.new.standing.place ≡ stage.old.standing.place) × (stage.new.standing.run ≡ stage.old.standing.run) }
{
    match stage.waiting.pop() {
        None => Ok(false),
        Some(call) => {
            begin(&mut stage.standing, code, &call)?;
            stage.under_way = true;
            Ok(true)
        }
    }
}

/// Enters the first frame of a call, where no frame holds anything.
fn begin<P: Copy, R: Copy>(
    standing: &mut Standing<P, R>,
    code: &Code,
    call: &ProcCall,
) -> Result<(), NoMemory>
    requires there { call.now.procedure.0 < length code.now.procedures }
    requires empty { HoldsNothing standing.old }
    ensures begun { OnOk result (IsBegun code.now call.now standing.old standing.new) }
    ensures home { (standing.new.place ≡ standing.old.place) × (standing.new.run ≡ standing.old.run) }
{
    let kinds = code.body(call.procedure).kinds.as_slice();
    hold_first(
        &mut standing.current.registers,
        call.arguments.as_slice(),
        kinds,
    )?;
    standing.current.procedure = call.procedure;
    standing.current.at = 0;
    standing.current.line = 0;
    Ok(())
}

/// Makes registers, with what they hold as a procedure begins: the arguments, and 0 or null.
fn hold_first<R: Copy>(
    registers: &mut Vec<Register<R>>,
    arguments: &[i64],
    kinds: &[Kind],
) -> Result<(), NoMemory>
    requires { registers.old.items ≡ [] }
    ensures { OnOk result (registers.new.items ≡ map register.Number arguments.now ++ map register_default (drop (length arguments.now) kinds.now)) }
{
    registers.reserve(kinds.len())?;
    for n in arguments {
        registers.push(Register::Number(*n))?;
    }
    fill(registers, kinds)
}
