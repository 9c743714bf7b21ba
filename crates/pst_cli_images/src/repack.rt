//! The laws. Each is the contract of a function that does nothing.

ghost use Rattle.pst_cli_images.specs.Repack.{GoesOnLaw, NeverRefusedLaw, PackedIsAcceptedLaw, ResumedLaw};
ghost use Rattle.pst_cli_images.specs.Days.{NeverRefusedAgainLaw, NeverRefusedBehindLaw, PackedKeepsLaw, RepackedKeepsLaw, ResumedBehindLaw};

/// An image that was written is accepted, and never refused; and a script behind it has the replies that it has behind the script that
/// was packed, with its open runs dropped and its program read again: all of them, or a first part where a write failed or memory was
/// wanting.
pub fn resumed()
    ensures accepted { PackedIsAcceptedLaw }
    ensures replies { ResumedLaw }
    ensures never_refused { NeverRefusedLaw }
    ensures goes_on { GoesOnLaw }
{}

/// An image keeps the history of the script that was packed; packed again behind another script, it keeps the history of both, with the open
/// runs dropped between them; and so on, day after day. A script behind an image that keeps a history has the replies on that history, and
/// such an image is never refused.
pub fn day_after_day()
    ensures packed { PackedKeepsLaw }
    ensures repacked { RepackedKeepsLaw }
    ensures never_refused { NeverRefusedAgainLaw }
    ensures replies { ResumedBehindLaw }
    ensures never_refused_behind { NeverRefusedBehindLaw }
{}
