//! Why a file could not be read or written.

use std::io;
use thiserror::Error;

/// Why a file could not be read or written.
#[derive(Debug, Drop, Error)]
pub enum DiskError {
    /// A call of the disk failed.
    #[error("{0}")]
    Failed(io::Error),
    /// The disk may leave other bytes of a torn write than old and new ones.
    #[error("the disk does not keep the bytes beside a torn write")]
    DoesNotMix,
    /// The file would have more than 2^40 bytes.
    #[error("the file is too large")]
    TooLarge,
    /// There was no memory.
    #[error("no memory")]
    Memory,
}

impl From<io::Error> for DiskError {
    ghost use Rattle.std.specs.Prelude.{◌≡◌};
    ghost use Rattle.pst_kept_text.specs.declared.error.DiskError.TheVariants.{Failed};

    ghost from_gives = { λ error why. why ≡ Failed error };

    fn from(error: io::Error) -> DiskError {
        DiskError::Failed(error)
    }
}
