//! The laws. Each is the contract of a function that does nothing.

ghost use Rattle.pst_image_meaning.specs.Store.{MadeIsStoreLaw, MadeIsRebuiltLaw};

/// A store that is made of the parts of an image that keep the rules is a store, and the one that the image tells of.
pub fn made()
    ensures store { MadeIsStoreLaw }
    ensures rebuilt { MadeIsRebuiltLaw }
{}
