//! Why reading or writing stopped.

use pst_base::NoMemory;
use pst_io::{Failed, LinesFault};
use std::alloc::AllocFailed;

/// Why reading the input or writing the output stopped.
#[derive(Clone, Copy, PartialEq, Eq)]
pub enum Stop {
    /// A read failed.
    Read,
    /// A write failed.
    Write,
    /// The input is too long.
    TooLong,
    /// There was no memory.
    Memory,
}

impl From<LinesFault> for Stop {
    ghost use Rattle.std.specs.Prelude.{◌≡◌};
    ghost use Rattle.pst_cli_scripts.specs.Reading.{stop_of};

    ghost from_gives = { λ fault stop. stop ≡ stop_of fault };

    fn from(fault: LinesFault) -> Stop {
        match fault {
            LinesFault::Failed => Stop::Read,
            LinesFault::TooLong => Stop::TooLong,
            LinesFault::Memory => Stop::Memory,
        }
    }
}

impl From<Failed> for Stop {
    ghost use Rattle.std.specs.Prelude.{◌≡◌};
    ghost use Rattle.pst_cli_scripts.specs.declared.stop.Stop.TheVariants.{Write};

    ghost from_gives = { λ _ stop. stop ≡ Write };

    fn from(_: Failed) -> Stop {
        Stop::Write
    }
}

impl From<NoMemory> for Stop {
    ghost use Rattle.std.specs.Prelude.{◌≡◌};
    ghost use Rattle.pst_cli_scripts.specs.declared.stop.Stop.TheVariants.{Memory};

    ghost from_gives = { λ _ stop. stop ≡ Memory };

    fn from(_: NoMemory) -> Stop {
        Stop::Memory
    }
}

impl<T: Drop> From<AllocFailed<T>> for Stop {
    ghost use Rattle.std.specs.Prelude.{◌≡◌};
    ghost use Rattle.pst_cli_scripts.specs.declared.stop.Stop.TheVariants.{Memory};

    ghost from_gives = { λ _ stop. stop ≡ Memory };

    fn from(_: AllocFailed<T>) -> Stop {
        Stop::Memory
    }
}
