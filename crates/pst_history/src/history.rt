//! What the history of a script keeps: its runs and its versions since the opening, but no heap.

ghost use Rattle.std.specs.Prelude.{◌≡◌, []};

use pst_base::{Items, Numbers, RunNo, Text, VersionNo};
use std::alloc::Global;

/// The budget that stands at first, in charges.
pub const BUDGET: u32 = 1_000_000;

/// The most run numbers that are ever taken.
pub const RUNS: usize = 1_048_576;

/// The most runs that are open at once.
pub const OPEN_RUNS: usize = 64;

/// The most calls of a run.
pub const CALLS: usize = 1_024;

/// Whether a run goes on.
#[derive(Clone, Copy, PartialEq, Eq)]
pub enum RunState {
    /// It was granted some charges, and may be granted more.
    Open,
    /// It was carried to its end.
    Closed,
    /// It was given up.
    Dropped,
}

/// A call of a run: a procedure by its name, with its arguments.
#[derive(Drop)]
pub struct NamedCall {
    pub procedure: Text,
    pub arguments: Numbers,
}

/// The calls of a run, in order.
pub type NamedCalls = Items<NamedCall>;

/// A run: the version on whose heap it works, its calls, the budget that stood when it was opened, and the charges granted
/// so far, at most the budget.
#[derive(Drop)]
pub struct Run {
    pub parent: VersionNo,
    pub calls: NamedCalls,
    pub budget: u32,
    pub granted: u32,
    pub state: RunState,
}

/// A version after 0: the run that made it, and the version on whose heap that run worked.
#[derive(Clone, Copy, PartialEq, Eq)]
pub struct Descent {
    pub run: RunNo,
    pub parent: VersionNo,
}

/// Runs by number, from the first since the opening.
pub type Runs = Items<Run>;

/// Versions by number, from the first since the opening.
pub type Descents = Items<Descent>;

/// What a script has made of an opening: the budget that stands, and the runs and versions since.
#[derive(Drop)]
pub struct Since {
    pub budget: u32,
    pub runs: Runs,
    pub versions: Descents,
}

impl Since {
    /// Nothing since the opening of `run`. It takes no memory.
    pub fn nothing(alloc: Global) -> Since
        ensures budget { result.budget ≡ BUDGET }
        ensures runs { result.runs ≡ [] }
        ensures versions { result.versions ≡ [] }
    {
        Since {
            budget: BUDGET,
            runs: Runs::new(alloc),
            versions: Descents::new(alloc),
        }
    }
}
