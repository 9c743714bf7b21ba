//! Why a line could not be performed.

use pst_kept_files::FilesError;
use std::alloc::AllocError;
use thiserror::Error;

/// Why a line could not be performed.
#[derive(Debug, Drop, Error)]
pub enum CaseError {
    /// It is none of the lines.
    #[error("no such line")]
    NoSuchLine,
    /// Its bytes are not written as they have to be.
    #[error("not bytes")]
    NotBytes,
    /// The files are not open, or a sync failed.
    #[error("not open")]
    NotOpen,
    /// A command has a zero byte or the byte 30, or an image is too large.
    #[error("not allowed")]
    NotAllowed,
    /// There was no memory.
    #[error("no memory")]
    Memory,
    /// The call failed.
    #[error("{0}")]
    Files(FilesError),
}

impl From<FilesError> for CaseError {
    fn from(error: FilesError) -> CaseError {
        CaseError::Files(error)
    }
}

impl From<AllocError> for CaseError {
    fn from(_: AllocError) -> CaseError {
        CaseError::Memory
    }
}
