//! Why a text has no tokens.

use thiserror::Error;

/// The first fault of a text, with its line from 1.
#[derive(Clone, Copy, Debug, PartialEq, Eq, Error)]
pub enum LexFault {
    /// A byte that may not stand there.
    #[error("byte at {line}")]
    Byte { line: u32 },
    /// A word that begins with a digit and is no number.
    #[error("number at {line}")]
    Number { line: u32 },
    /// A name of more than 32 bytes.
    #[error("name-length at {line}")]
    NameLength { line: u32 },
}
