//! The laws. Each is the contract of a function that does nothing.

ghost use Rattle.pst_history_laws.specs.Openings.{BeginsLaw, GoesOnLaw, ProgramGoesOnLaw, RepliesBehindLaw, RepliesLaw, SoundBehindLaw, StaysBehindLaw, StaysLaw, TakenUpAlikeLaw};

/// A script has the same replies behind a history without an open run and behind the opening that is taken up from it; behind a
/// script, with its open runs dropped and its program read again, and behind the opening that is taken up from it.
pub fn goes_on()
    ensures begins { BeginsLaw }
    ensures replies { RepliesLaw }
    ensures stays { StaysLaw }
    ensures sound_behind { SoundBehindLaw }
    ensures stays_behind { StaysBehindLaw }
    ensures replies_behind { RepliesBehindLaw }
    ensures taken_up { TakenUpAlikeLaw }
    ensures script { GoesOnLaw }
    ensures program { ProgramGoesOnLaw }
{}
