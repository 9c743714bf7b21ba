// Why a reader of lines stops.
ghost use Rattle.std.specs.Prelude.{◌≡◌};
ghost use Rattle.pst_io.specs.declared.fault.LinesFault.TheVariants.{Failed as ReadFailed, Memory};

use crate::traits::Failed;
use std::alloc::AllocError;

/// Why a reader of lines stops.
#[derive(Clone, Copy, PartialEq, Eq)]
pub enum LinesFault {
    /// The source failed.
    Failed,
    /// The input has more bytes than the reader may read, and no further whole line is among those that it may.
    TooLong,
    /// There was no memory for the bytes of a line. Nothing that was read is lost.
    Memory,
}

impl From<Failed> for LinesFault {
    ghost from_gives = { λ _ fault. fault ≡ ReadFailed };

    fn from(_: Failed) -> LinesFault {
        LinesFault::Failed
    }
}

impl From<AllocError> for LinesFault {
    ghost from_gives = { λ _ fault. fault ≡ Memory };

    fn from(_: AllocError) -> LinesFault {
        LinesFault::Memory
    }
}
