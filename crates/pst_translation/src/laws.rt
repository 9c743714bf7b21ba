//! The code of a well-typed program does what the program does, as laws.

ghost use Rattle.pst_translation.specs.Laws.{CodeComesToTheOutcome, CodeDoesWhatTheProgramDoes, CodeHasTheOutcome};

use pst_code::a_run_has_one_end;

/// The machine on the code of a well-typed program comes to the end that the program comes to, with its heap, printed
/// numbers, counts and charges left, for each procedure with its arguments, and whatever was done before. This is the
/// usual statement of a correct compiler, whole: the code has this end, and by the law of one end no other.
pub fn code_does_what_the_program_does()
    ensures { CodeDoesWhatTheProgramDoes }
{}

/// So the machine carries out the calls of a task to the end that is the task's outcome, and to no other.
pub fn the_machine_comes_to_the_outcome()
    ensures comes { CodeComesToTheOutcome }
    ensures only { CodeHasTheOutcome }
{
    a_run_has_one_end();
}
