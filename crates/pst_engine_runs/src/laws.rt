//! The meaning of code, as laws.

ghost use Rattle.pst_engine_runs.specs.Coded.{CompiledCodeMeansTheProgram};
ghost use Rattle.pst_engine_runs.specs.Bare.{CodeHasOneMeaning, TheMachineMeansTheProgram, ValidCodeHasAMeaning};

use pst_translation::{compiled_code_is_valid, the_machine_comes_to_the_outcome};

/// The code of a well-typed program means by its machine what the program means by its tree, and that meaning is lawful.
pub fn compiled_code_means_the_program()
    ensures { CompiledCodeMeansTheProgram }
{
    the_machine_comes_to_the_outcome();
}

/// All valid code has a meaning by its machine alone, also code that no program was compiled to, and that meaning is lawful.
pub fn valid_code_has_a_meaning()
    ensures { ValidCodeHasAMeaning }
{}

/// Code has one meaning: two that it has give the same outcome of all work that can be done. So the code of a well-typed program
/// means by its machine alone what the program means by its tree.
pub fn code_has_one_meaning()
    ensures one { CodeHasOneMeaning }
    ensures program { TheMachineMeansTheProgram }
{
    compiled_code_is_valid();
    valid_code_has_a_meaning();
    compiled_code_means_the_program();
}
