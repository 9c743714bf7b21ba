//! The laws. Each is the contract of a function that does nothing.

ghost use Rattle.pst_image_meaning.specs.Rules.{ChainsLaw, BuiltLaw, TakenIsStoreLaw};

/// A store that is made by the rules of an image keeps what a store keeps: its nodes by their chains, its forks by its versions.
pub fn taken()
    ensures store { TakenIsStoreLaw }
    ensures built { BuiltLaw }
    ensures chains { ChainsLaw }
{}
