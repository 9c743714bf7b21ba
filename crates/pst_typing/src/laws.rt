//! Laws of typing, as functions that do nothing.

ghost use Rattle.pst_typing.specs.Laws.{AcceptedIsTyped};
ghost use Rattle.pst_typing.specs.Plain.{PlainStaysPlain};
ghost use Rattle.pst_typing.specs.Worked.{FirstFaults, ListIsTyped, ArraysAreTyped, FirstFaultsOfArrays};

/// A program that typing accepts is well typed.
pub fn accepted_programs_are_typed()
    ensures { AcceptedIsTyped }
{}

/// A text without a number of elements and without an index, as each one of language 1 is, is typed to a program that has
/// no array and reads and writes no element of one.
pub fn texts_without_arrays_stay_so()
    ensures { PlainStaysPlain }
{}

/// Programs with one fault each, and their faults.
pub fn first_faults_of_small_programs()
    ensures { FirstFaults }
{}

/// A small program and what it is typed to: slots, locals, and the type of a null.
pub fn a_list_is_typed()
    ensures { ListIsTyped }
{}

/// A small program with arrays and what it is typed to.
pub fn arrays_are_typed()
    ensures { ArraysAreTyped }
{}

/// Programs with one fault each that has to do with an array, and their faults.
pub fn first_faults_of_arrays()
    ensures { FirstFaultsOfArrays }
{}
