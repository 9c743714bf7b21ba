//! The laws. Each is the contract of a function that does nothing.

ghost use Rattle.pst_image_meaning.specs.Laws.{NumbersBackLaw, ShownDenotesLaw};

/// Numbers are contents and back, and what a store shows denotes its nodes.
pub fn denoted()
    ensures numbers { NumbersBackLaw }
    ensures shown { ShownDenotesLaw }
{}
