//! Depths that are worked by hand. These functions have no code: each is a fact for those who build on the definitions.

ghost use Rattle.pst_grammar.specs.Worked.{WorkedDepths, WorkedLimits};

/// How high the expressions of a statement are, and how many of its blocks stand in one another.
pub fn depths_by_hand()
    ensures { WorkedDepths }
{}

/// The limits of depth: a number in 63 parentheses and 15 loops in one another are shallow, and one more is not.
pub fn limits_of_depth_by_hand()
    ensures { WorkedLimits }
{}
