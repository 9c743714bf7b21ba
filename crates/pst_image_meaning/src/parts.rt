//! The laws. Each is the contract of a function that does nothing.

ghost use Rattle.pst_image_meaning.specs.LawsParts.{RulesLaw, VersionsLaw, NarrowLaw};

/// What a store shows keeps the rules of an image, and the versions keep theirs exactly where the store does.
pub fn rules()
    ensures rules { RulesLaw }
    ensures versions { VersionsLaw }
    ensures narrow { NarrowLaw }
{}
