//! What the definitions say of a small script.

ghost use Rattle.pst_linerun.specs.Worked.{LinearHistory};

/// Runs on the newest version, one on an older version and one on none, one that traps, one that is to be gone on with, the counts, in
/// which what the trapped run did stays counted, and queries, which take no run number.
pub fn a_linear_history_by_hand()
    ensures { LinearHistory }
{}
