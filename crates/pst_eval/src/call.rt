//! The parts of a call that run no statement.

ghost use Rattle.std.specs.Prelude.{◌≡◌, MatchOption, None, Some};
ghost use Rattle.pst_program.specs.Meaning.{World, after_call};
ghost use Rattle.pst_eval.specs.Work.{ending_of};
ghost use Rattle.pst_eval.specs.Ends.{procedure_in};

use crate::steps::set_at;
use crate::tally::End;
use pst_program::{Program, TypedProc, Value};

/// The procedure with a number.
pub fn procedure_at(program: &Program, procedure: u16) -> Option<&TypedProc>
    ensures { MatchOption result (procedure_in program.now procedure ≡ None) (λ p. procedure_in program.now procedure ≡ Some p.now) }
{
    program.procedures.items.get(procedure as usize)
}

/// What a statement with a call comes to, once the call has ended.
pub fn after(end: End, local: Option<u16>, env: &mut Vec<Value>) -> End
    ensures { (w : World) → ending_of result env.new.items w ≡ after_call local env.old.items (ending_of end env.old.items w) }
{
    match end {
        End::Normal => End::Normal,
        End::Return(v) => {
            if let (Some(x), Some(v)) = (local, v) {
                set_at(env, x as usize, v);
            }
            End::Normal
        }
        end => end,
    }
}
