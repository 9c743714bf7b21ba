//! The laws. Each is the contract of a function that does nothing.

ghost use Rattle.pst_cli_serve.specs.Laws.{NeverRefusedServingLaw, SameAsResumedLaw, SameVerdictLaw, ServedBehindLaw, ServedLaw};

/// Where no line asks a question, what is written is what `resume` writes where it answers all lines; and both judge an image alike.
pub fn served_as_resumed()
    ensures same { SameAsResumedLaw }
    ensures verdict { SameVerdictLaw }
{}

/// Behind an image that was packed, and behind one that keeps a history, the replies to commands are those that they have behind the script
/// of which it is the image, or on that history; and such an image is never refused.
pub fn served_behind()
    ensures packed { ServedLaw }
    ensures behind { ServedBehindLaw }
    ensures never_refused { NeverRefusedServingLaw }
{}
