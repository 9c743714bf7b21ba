//! What a script line asks for.

ghost use Rattle.std.specs.Prelude.{◌≡◌};
ghost use Rattle.pst_script.specs.declared.command.LineFault.TheVariants.{Memory};

use pst_base::{Numbers, RunNo, Text, VersionNo};
use std::alloc::AllocError;

/// What a run or a query is to execute: a procedure by its name, on the heap of a version, with these arguments.
#[derive(Drop)]
pub struct Call {
    pub version: VersionNo,
    pub procedure: Text,
    pub arguments: Numbers,
}

/// What a script line asks for.
#[derive(Drop)]
pub enum Command {
    /// To carry out a run and to publish its version.
    Run(Call),
    /// To carry out a query.
    Query(Call),
    /// To open a run with one call, without a charge.
    OpenRun(Call),
    /// To open a run without a call on the heap of a version.
    OpenEmpty {
        version: VersionNo,
    },
    /// To add a call to an open run: a procedure by its name, with these arguments.
    CallRun {
        run: RunNo,
        procedure: Text,
        arguments: Numbers,
    },
    /// To grant an open run more charges, from 1 to 1,000,000,000.
    StepRun {
        run: RunNo,
        charges: u32,
    },
    /// To carry an open run to its end and to publish its version.
    CloseRun {
        run: RunNo,
    },
    /// To give an open run up.
    DropRun {
        run: RunNo,
    },
    /// To set the budget of the runs and queries that follow, from 1 to 1,000,000,000.
    Budget {
        charges: u32,
    },
    /// To list the versions.
    Versions,
    /// To tell the counts.
    Stats,
}

/// Why a script line is no command.
#[derive(Clone, Copy, PartialEq, Eq)]
pub enum LineFault {
    /// The words have none of the forms of a command.
    Line,
    /// The words have a form, but a numeral is outside its range.
    Number,
    /// There was no memory for the command.
    Memory,
}

impl From<AllocError> for LineFault {
    ghost from_gives = { λ _ fault. fault ≡ Memory };

    fn from(_error: AllocError) -> LineFault {
        LineFault::Memory
    }
}
