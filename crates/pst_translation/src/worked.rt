//! The code of small procedures.

ghost use Rattle.pst_translation.specs.Worked.{Listed};

/// The code of five small procedures is the one that is worked out by hand.
pub fn code_worked_by_hand()
    ensures { Listed }
{}
