//! The law. It is the contract of a function that does nothing.

ghost use Rattle.pst_image_engine.specs.Opens.{OpensLaw};

/// A store whose records and versions are of runs below the next one, and whose forks are its versions, is a heap that an engine opens on.
pub fn opened()
    ensures opens { OpensLaw }
{}
