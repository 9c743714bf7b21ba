//! The laws of fat nodes: charts, the mirror rule, lives, in-degrees, the steps of a split. The functions have no code.
//!
//! Model: a chart says what each slot of each node holds at each position, and where segments begin.
//!
//! Contract: laws alone. What keeps the mirror rule and every denotation: cuts on both sides, splits with their renaming; what
//! in-degrees are by inverse slots; how a split lowers the potential. (After Driscoll, Sarnak, Sleator and Tarjan.)
//!
//! For example where a field of node 1 holds node 2 from position 5 up to position 9, an inverse slot of node 2 names that field
//! of node 1 over the same stretch, and nowhere else.
#![tactic(auto)]

ghost use Rattle.pst_mirror.specs.Mirror.{CutLaw, CutRoundLaw, SplitLaw, SplitWholeLaw, UnlinkLaw, LinkLaw, AddLaw};
ghost use Rattle.pst_mirror.specs.Fork.{RankLaw, InsertLaw, ReindexLaw, RowsInsertLaw};
ghost use Rattle.pst_mirror.specs.Lives.{UniqueLaw, WalkLaw, LastLaw, SplitLifeLaw, StaysLiveLaw};
ghost use Rattle.pst_mirror.specs.Degree.{DegreeLaw, LimitLaw, FullLaw, FullApartLaw};
ghost use Rattle.pst_mirror.specs.Potential.{CapacityIsFew, PotentialFalls};
ghost use Rattle.pst_mirror.specs.Heap.{SplitShowsLaw};
ghost use Rattle.pst_mirror.specs.Segments.{SegmentsFromPositions, PositionsFromSegments};
ghost use Rattle.pst_mirror.specs.Charts.{RowSetLaw, TwoSetsLaw, RowCutLaw, RowReplaceLaw, RowSplitLaw, ChartsAreSteady, ChartsAreTiled};
ghost use Rattle.pst_mirror.specs.Partners.{PartnerLaw, NoPartnerLaw, AllDoneLaw};
ghost use Rattle.pst_mirror.specs.SplitBody.{CutPartnerLaw, NoCutLaw, AllCutLaw, FinishLaw, FinishedIsSteady, StartLaw, SplitBodyLaw};

/// The changes of a store keep the mirror rule.
pub fn mirror_kept()
    ensures cut { CutLaw }
    ensures cut_round { CutRoundLaw }
    ensures split { SplitLaw }
    ensures split_whole { SplitWholeLaw }
    ensures unlink { UnlinkLaw }
    ensures link { LinkLaw }
    ensures add { AddLaw }
{}

/// The rule by positions and the rule by segments are one.
pub fn one_rule()
    ensures segments { SegmentsFromPositions }
    ensures positions { PositionsFromSegments }
{}

/// What changes of rows mean.
pub fn charts()
    ensures set { RowSetLaw }
    ensures two { TwoSetsLaw }
    ensures cut { RowCutLaw }
    ensures split { RowSplitLaw }
    ensures steady { ChartsAreSteady }
    ensures tiled { ChartsAreTiled }
    ensures replace { RowReplaceLaw }
{}

/// The steps of a split.
pub fn split_steps()
    ensures cut { CutPartnerLaw }
    ensures no_cut { NoCutLaw }
    ensures all_cut { AllCutLaw }
    ensures finish { FinishLaw }
    ensures steady { FinishedIsSteady }
    ensures start { StartLaw }
    ensures partner { PartnerLaw }
    ensures no_partner { NoPartnerLaw }
    ensures all_done { AllDoneLaw }
    ensures body { SplitBodyLaw }
{}

/// A place comes in.
pub fn insertions()
    ensures rank { RankLaw }
    ensures insert { InsertLaw }
    ensures mirrored { ReindexLaw }
    ensures rows { RowsInsertLaw }
{}

/// The nodes of a record.
pub fn lives()
    ensures unique { UniqueLaw }
    ensures walk { WalkLaw }
    ensures last { LastLaw }
    ensures split { SplitLifeLaw }
    ensures live { StaysLiveLaw }
{}

/// As many fields lead to a node as it has entries, so the in-degree is the limit exactly where each inverse slot is taken.
pub fn degree()
    ensures same { DegreeLaw }
    ensures limit { LimitLaw }
    ensures full { FullLaw }
    ensures apart { FullApartLaw }
{}

/// A split shows at each position what was shown.
pub fn shown()
    ensures { SplitShowsLaw }
{}

/// A node of a valid shape has a capacity of 2 stamped values at least, and of 160 at most.
pub fn capacity_is_few()
    ensures { CapacityIsFew }
{}

/// Where a node over its capacity becomes two and the others grow by at most half a capacity, the potential falls.
pub fn potential_falls()
    ensures { PotentialFalls }
{}
