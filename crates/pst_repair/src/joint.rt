//! What a store sees of the arena: the joint between the nodes, as they are, and the nodes that a store's laws speak of. What is seen
//! of a node is its name, type, next node and row, without the links of the queue and the spare room. The functions have no code.

ghost use Rattle.pst_repair.specs.Seen.{SeenChartLaw, SplitsAreSteps};
ghost use Rattle.pst_repair.specs.Written.{NumbersAreSet};
ghost use Rattle.pst_repair.specs.Paired.{LinksAreSeen, UnlinksAreSeen};

/// The chart of what a store sees is the chart of the nodes.
pub fn seen_charts()
    ensures { SeenChartLaw }
{}

/// A split of the arena is one of the splits that a store's repair is made of.
pub fn splits_are_steps()
    ensures { SplitsAreSteps }
{}

/// Where the arena sets a slot to a number, a store sees that number written, and two stamped values more at most.
pub fn numbers_are_set()
    ensures { NumbersAreSet }
{}

/// Where the arena puts a pair in or takes it away, a store sees a pointer put in or taken away.
pub fn pairs_are_seen()
    ensures links { LinksAreSeen }
    ensures unlinks { UnlinksAreSeen }
{}
