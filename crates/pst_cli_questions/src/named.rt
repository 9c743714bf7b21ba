//! What holds of the names of every accepted program. These functions do nothing: each is a fact for those who build on the
//! definitions.

ghost use Rattle.pst_cli_questions.specs.Laws.{AcceptedAreNamedApart, DeclaredAreNames, DumpsOfAcceptedTellHeaps, TypesAreDeclared};
ghost use Rattle.pst_cli_questions.specs.Worked.{WorkedNames};

use pst_questions::dumps_tell_heaps;

/// The names of a small program, and a tree whose record type is called as the root record's.
pub fn names_by_hand()
    ensures { WorkedNames }
{}

/// The declarations of a text have names: letters, digits and `_`, and no keyword.
pub fn declared_are_names()
    ensures { DeclaredAreNames }
{}

/// The record types of a typed program are the root record's and those that are declared, in order, under names that differ.
pub fn types_are_declared()
    ensures { TypesAreDeclared }
{}

/// Each record type of an accepted program has a name of its own, in which no colon stands.
pub fn accepted_types_are_named_apart()
    ensures { AcceptedAreNamedApart }
{}

/// The dumps of two well-formed heaps of an accepted program are equal exactly where one heap is the other one with its
/// records renamed.
pub fn dumps_of_accepted_tell_heaps()
    ensures { DumpsOfAcceptedTellHeaps }
{
    dumps_tell_heaps();
}
