//! The faults of typing.

ghost use Rattle.pst_typing.specs.declared.fault.TypeFault.TheVariants as fault;
ghost use Rattle.std.specs.Prelude.{◌≡◌};

use std::alloc::{AllocError, AllocFailed};
use thiserror::Error;

/// Why a program is refused by typing, with the line, from 1, of the declaration, field, parameter, local or statement
/// that is at fault.
#[derive(Clone, Copy, Debug, PartialEq, Eq, Error)]
pub enum TypeFault {
    /// A name stands for nothing that it could stand for here.
    #[error("unknown at {line}")]
    Unknown { line: u32 },
    /// A name that is declared already.
    #[error("duplicate at {line}")]
    Duplicate { line: u32 },
    /// A type that does not fit, arguments that are too many or too few, an array without an index, or an index of a field
    /// that is no array.
    #[error("mismatch at {line}")]
    Mismatch { line: u32 },
    /// An in-degree limit or a number of elements that is not from 1 to 16.
    #[error("limit at {line}")]
    Limit { line: u32 },
    /// One more record type, root, procedure, field, parameter or local than there may be, or more than 64 elements.
    #[error("too many at {line}")]
    TooMany { line: u32 },
    /// A query that writes, or calls what may write.
    #[error("query writes at {line}")]
    QueryWrites { line: u32 },
    /// No memory.
    #[error("out of memory")]
    Memory,
}

impl<T: Drop> From<AllocFailed<T>> for TypeFault {
    ghost from_gives = { λ _ e. e ≡ fault.Memory };

    fn from(_failed: AllocFailed<T>) -> TypeFault {
        TypeFault::Memory
    }
}

impl From<AllocError> for TypeFault {
    ghost from_gives = { λ _ e. e ≡ fault.Memory };

    fn from(_failed: AllocError) -> TypeFault {
        TypeFault::Memory
    }
}
