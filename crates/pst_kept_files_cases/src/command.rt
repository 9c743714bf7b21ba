//! The lines that are performed.

use crate::error::CaseError;
use crate::fault::Fault;
use crate::told::bytes_of;
use pst_kept_files::Role;
use std::alloc::Global;

/// What a line asks for.
#[derive(Drop)]
pub enum Command {
    /// `files BYTES BYTES`: two files with these bytes, none of whose calls fails. The store is not open.
    Files { one: Vec<u8>, two: Vec<u8> },
    /// `fail one|two N on|alone`: N further calls of this file pass, and then each fails, or one alone.
    Fail { role: Role, fault: Fault },
    /// `create BYTES`, with an image.
    Create { image: Vec<u8> },
    /// `open`
    Open,
    /// `append BYTES`, with commands.
    Append { commands: Vec<u8> },
    /// `checkpoint BYTES`, with an image.
    Checkpoint { image: Vec<u8> },
}

impl Command {
    /// The command of a line.
    pub fn parse(alloc: Global, line: &str) -> Result<Command, CaseError> {
        let (word, rest) = match line.split_once(' ') {
            Some((word, rest)) => (word, rest),
            None => (line, ""),
        };
        match word {
            "files" => {
                let (one, two) = rest.split_once(' ').ok_or(CaseError::NotBytes)?;
                Ok(Command::Files {
                    one: bytes_of(alloc, one)?,
                    two: bytes_of(alloc, two)?,
                })
            }
            "fail" => parse_fail(rest),
            "create" => Ok(Command::Create {
                image: bytes_of(alloc, rest)?,
            }),
            "open" => Ok(Command::Open),
            "append" => Ok(Command::Append {
                commands: bytes_of(alloc, rest)?,
            }),
            "checkpoint" => Ok(Command::Checkpoint {
                image: bytes_of(alloc, rest)?,
            }),
            _ => Err(CaseError::NoSuchLine),
        }
    }
}

/// Which calls fail: `one|two N on|alone`.
fn parse_fail(text: &str) -> Result<Command, CaseError> {
    let (file, rest) = text.split_once(' ').ok_or(CaseError::NoSuchLine)?;
    let (number, manner) = rest.split_once(' ').ok_or(CaseError::NoSuchLine)?;
    let Ok(calls_left) = number.parse::<u64>() else {
        return Err(CaseError::NoSuchLine);
    };
    let role = match file {
        "one" => Role::First,
        "two" => Role::Second,
        _ => return Err(CaseError::NoSuchLine),
    };
    let stays = match manner {
        "on" => true,
        "alone" => false,
        _ => return Err(CaseError::NoSuchLine),
    };
    Ok(Command::Fail {
        role,
        fault: Fault { calls_left, stays },
    })
}
