//! Bytes and calls as text.
//!
//! Bytes are pieces with a point between them: two hex digits for each byte, or `z` and a number for so many zeros. `-` is none.

use crate::disk::{Call, Noted};
use crate::error::CaseError;
use crate::session::Found;
use std::alloc::Global;
use std::io::{self, Write};

/// The most zeros of a piece.
const MOST_ZEROS: usize = 1 << 30;

/// The bytes of a text.
pub fn bytes_of(alloc: Global, text: &str) -> Result<Vec<u8>, CaseError> {
    let mut bytes = Vec::new(alloc);
    if text == "-" {
        return Ok(bytes);
    }
    for piece in text.split('.') {
        match piece.strip_prefix('z') {
            Some(number) => add_zeros(&mut bytes, number)?,
            None => match hex::decode(alloc, piece) {
                Ok(piece) => bytes.extend_from_slice(&piece)?,
                Err(_) => return Err(CaseError::NotBytes),
            },
        }
    }
    Ok(bytes)
}

/// Adds so many zeros.
fn add_zeros(bytes: &mut Vec<u8>, number: &str) -> Result<(), CaseError> {
    let Ok(count) = number.parse::<usize>() else {
        return Err(CaseError::NotBytes);
    };
    if count > MOST_ZEROS || bytes.len() > MOST_ZEROS {
        return Err(CaseError::NotBytes);
    }
    let len = bytes.len() + count;
    bytes.resize(len, 0)?;
    Ok(())
}

/// How many bytes stand before the zeros at the end.
fn len_before_zeros(bytes: &[u8]) -> usize {
    let mut len = 0;
    for (i, byte) in bytes.iter().enumerate() {
        if *byte != 0 {
            len = i + 1;
        }
    }
    len
}

/// Writes bytes as text.
fn write_bytes<W: Write + Drop>(out: &mut W, bytes: &[u8]) -> io::Result<()> {
    if bytes.is_empty() {
        return write!(out, "-");
    }
    let len = len_before_zeros(bytes).min(bytes.len());
    for byte in &bytes[..len] {
        write!(out, "{byte:02x}")?;
    }
    if len == bytes.len() {
        return Ok(());
    }
    if len > 0 {
        write!(out, ".")?;
    }
    write!(out, "z{}", bytes.len() - len)
}

/// Writes what a line answered: `ok`, and what `open` found.
pub fn write_found<W: Write + Drop>(out: &mut W, found: &Found) -> io::Result<()> {
    match found {
        Found::Nothing => writeln!(out, "ok"),
        Found::Store(opened) => {
            write!(out, "ok ")?;
            write_bytes(out, opened.image())?;
            write!(out, " ")?;
            write_bytes(out, &opened.commands)?;
            writeln!(out, "")
        }
    }
}

/// Writes a call of a file.
fn write_call<W: Write + Drop>(out: &mut W, file: &str, noted: &Noted) -> io::Result<()> {
    write!(out, " {file} ")?;
    match &noted.call {
        Call::Write { at, bytes } => {
            write!(out, "write {at} ")?;
            write_bytes(out, bytes)?;
        }
        Call::SetLen { len } => write!(out, "cut {len}")?,
        Call::Sync => write!(out, "sync")?,
    }
    writeln!(out, "{}", if noted.done { "" } else { " failed" })
}

/// Writes the calls of a file.
pub fn write_calls<W: Write + Drop>(out: &mut W, file: &str, calls: &[Noted]) -> io::Result<()> {
    for noted in calls {
        write_call(out, file, noted)?;
    }
    Ok(())
}
