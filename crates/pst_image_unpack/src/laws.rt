//! The laws. Each is the contract of a function that does nothing.

ghost use Rattle.pst_image_unpack.specs.Laws.{NeverBothLaw, OneFailsLaw, PackedAgainLaw, PackedIsTakenLaw};

/// Of bytes all rules hold, or one rule fails first, and not both: what is accepted is not refused, and no two rules fail first.
pub fn accepted_or_refused()
    ensures never_both { NeverBothLaw }
    ensures one_fails { OneFailsLaw }
{}

/// A store that was taken from an image is packed as the same bytes again; and what is packed of any store, with its own text, is
/// accepted, whatever stands behind it.
pub fn packed_and_taken()
    ensures again { PackedAgainLaw }
    ensures taken { PackedIsTakenLaw }
{}
