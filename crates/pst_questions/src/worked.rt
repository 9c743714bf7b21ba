//! What the definitions say of small examples.

ghost use Rattle.pst_questions.specs.WorkedChanged.{PathForms, WorkedFields, WorkedReadings, WorkedChanges};

/// Names of 1 to 32 bytes, which are no keywords, are joined by single dots.
pub fn path_forms_by_hand()
    ensures { PathForms }
{}

/// The first name of a path is that of a root, a number leads to no further field, and no name of a path is that of an array.
pub fn fields_by_hand()
    ensures { WorkedFields }
{}

/// A null at the end of a path is read, and one before the end is not.
pub fn readings_by_hand()
    ensures { WorkedReadings }
{}

/// A version that leaves the reading alone is passed by, and version 0 is no change.
pub fn changes_by_hand()
    ensures { WorkedChanges }
{}
