//! Laws of chains. These functions have no code.

ghost use Rattle.pst_image_rules.specs.Chains.{ChainsAreInOrder};

/// The nodes of one record live apart, the last one of a chain ends after the others, and each chain has a first node and a last one.
pub fn chains_are_in_order()
    ensures { ChainsAreInOrder }
{}
