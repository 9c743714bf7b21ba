//! The laws. Each is the contract of a function that does nothing.

ghost use Rattle.pst_history_laws.specs.LawsLines.{CanonicalLaw, HistoryLaw, MeaningLaw, OutcomeLaw, TypingLaw};

/// What is typed, what a run comes to, and the history of a script do not depend on the lines of a program, but for that of a trap
/// or of a fault; and its canonical text is read as the same program.
pub fn lines()
    ensures typing { TypingLaw }
    ensures outcome { OutcomeLaw }
    ensures meaning { MeaningLaw }
    ensures history { HistoryLaw }
    ensures canonical { CanonicalLaw }
{}
