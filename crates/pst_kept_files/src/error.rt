//! Why two files could not be made, opened or written.

use pst_kept_text::DiskError;
use std::io;
use thiserror::Error;

/// Why two files could not be made, opened or written.
#[derive(Debug, Drop, Error)]
pub enum FilesError {
    /// A call of the disk failed, or there was no memory.
    #[error("{0}")]
    Disk(DiskError),
    /// There are bytes in the files already.
    #[error("there is something in the file already")]
    NotEmpty,
    /// There are no bytes in the files, or one each.
    #[error("the file is empty")]
    Empty,
    /// Neither file counts, or both do with one generation: making them was cut short, or they are damaged or none of ours.
    #[error("there is no whole store in the file")]
    NoneCounts,
    /// The digest of the image is another.
    #[error("the image is damaged")]
    DamagedImage,
    /// The check of a group is another.
    #[error("a command is damaged")]
    DamagedGroup,
    /// Behind the whole groups stands what no crash leaves.
    #[error("the end of the commands is damaged")]
    DamagedEnd,
}

impl From<DiskError> for FilesError {
    ghost use Rattle.std.specs.Prelude.{◌≡◌};
    ghost use Rattle.pst_kept_files.specs.declared.error.FilesError.TheVariants.{Disk};

    ghost from_gives = { λ error why. why ≡ Disk error };

    fn from(error: DiskError) -> FilesError {
        FilesError::Disk(error)
    }
}

impl From<io::Error> for FilesError {
    ghost use Rattle.std.specs.Prelude.{◌≡◌};
    ghost use Rattle.pst_kept_text.specs.declared.error.DiskError.TheVariants.{Failed};
    ghost use Rattle.pst_kept_files.specs.declared.error.FilesError.TheVariants.{Disk};

    ghost from_gives = { λ error why. why ≡ Disk (Failed error) };

    fn from(error: io::Error) -> FilesError {
        FilesError::Disk(DiskError::Failed(error))
    }
}
