//! The law. It is the contract of a function that does nothing.

ghost use Rattle.pst_cli_images.specs.Pack.{ScriptCountsLaw};

/// What a script from the start counts is few.
pub fn scripts()
    ensures counts { ScriptCountsLaw }
{}
