//! What the definitions say of small scripts.

ghost use Rattle.pst_history.specs.Worked.{OpenRuns, SeveralCalls};

/// Runs that are open side by side, stepped, closed and dropped: each is answered by its own grant, at most 64 are open,
/// and what a dropped run did is counted.
pub fn open_runs_by_hand()
    ensures { OpenRuns }
{}

/// Runs of several calls: one budget, one list of printed numbers, one numbering of records, and a trap that ends all.
pub fn several_calls_by_hand()
    ensures { SeveralCalls }
{}
