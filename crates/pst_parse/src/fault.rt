//! Why a text has no tree.

use std::alloc::{AllocError, AllocFailed};
use thiserror::Error;

/// The first fault of a program's tokens, with its line from 1, or want of memory.
#[derive(Clone, Copy, Debug, PartialEq, Eq, Error)]
pub enum ParseFault {
    /// No program begins with the tokens up to this one, or the tokens end too early.
    #[error("unexpected at {line}")]
    Unexpected { line: u32 },
    /// Programs begin with the tokens up to this one, and each of them is too deep.
    #[error("too-deep at {line}")]
    TooDeep { line: u32 },
    /// Want of memory.
    #[error("out of memory")]
    Memory,
}

impl From<AllocError> for ParseFault {
    ghost use Rattle.std.specs.Prelude.{◌≡◌};
    ghost use Rattle.pst_parse.specs.declared.fault.ParseFault.TheVariants.{Memory};

    ghost from_gives = { λ _ e. e ≡ Memory };

    fn from(_e: AllocError) -> Self {
        ParseFault::Memory
    }
}

impl<T: Drop> From<AllocFailed<T>> for ParseFault {
    ghost use Rattle.std.specs.Prelude.{◌≡◌};
    ghost use Rattle.pst_parse.specs.declared.fault.ParseFault.TheVariants.{Memory};

    ghost from_gives = { λ _ e. e ≡ Memory };

    fn from(_e: AllocFailed<T>) -> Self {
        ParseFault::Memory
    }
}
