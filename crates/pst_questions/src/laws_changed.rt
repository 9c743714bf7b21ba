//! What holds of all changes. These functions have no code: each is a fact for those who build on the definitions.

ghost use Rattle.pst_questions.specs.Changed.{FirstChangeIsOne, VersionsThereDecide};

/// A way has at most one first change.
pub fn first_change_is_one()
    ensures { FirstChangeIsOne }
{}

/// The first change is the same where the versions that are there have the same parents and readings.
pub fn versions_there_decide()
    ensures { VersionsThereDecide }
{}
