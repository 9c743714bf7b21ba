//! The texts of cases: escapes, repeated lines and programs by their names.

use std::alloc::{AllocError, Global};

/// A text that is put together, and the place in it up to which the first read gives.
#[derive(Drop)]
pub struct Text {
    pub bytes: Vec<u8>,
    pub first_read: Option<usize>,
}

/// What the bytes of a line before this one leave open.
#[derive(Clone, Copy, PartialEq, Eq)]
enum Escape {
    /// Nothing.
    No,
    /// A backslash was the last byte.
    Begun,
    /// A byte is given by two digits of base 16, of which none was read.
    Byte,
    /// The first of these digits was read.
    Digit(u8),
}

/// The value of a digit of base 16.
fn digit(byte: u8) -> u8 {
    match byte {
        b'0'..=b'9' => byte - b'0',
        b'A'..=b'F' => byte - b'A' + 10,
        _ => 0,
    }
}

/// The number that a word writes.
pub fn number(word: &[u8]) -> Option<usize> {
    str::from_utf8(word).ok()?.parse().ok()
}

/// Puts the byte that stands behind a backslash, and says what is left open then.
fn put_escaped(
    alloc: Global,
    byte: u8,
    count: usize,
    out: &mut Vec<u8>,
) -> Result<Escape, AllocError> {
    match byte {
        b'x' => return Ok(Escape::Byte),
        b'n' => out.push(b'\n')?,
        b'r' => out.push(b'\r')?,
        b't' => out.push(b'\t')?,
        b'#' => out.extend_from_slice(count.to_string(alloc)?.as_bytes())?,
        b'e' => {}
        _ => out.push(byte)?,
    }
    Ok(Escape::No)
}

/// Puts a byte of a line, and says what is left open then.
fn put_byte(
    alloc: Global,
    escape: Escape,
    byte: u8,
    count: usize,
    out: &mut Vec<u8>,
) -> Result<Escape, AllocError> {
    match escape {
        Escape::No if byte == b'\\' => return Ok(Escape::Begun),
        Escape::No => out.push(byte)?,
        Escape::Begun => return put_escaped(alloc, byte, count, out),
        Escape::Byte => return Ok(Escape::Digit(digit(byte))),
        Escape::Digit(high) => out.push(high.wrapping_mul(16).wrapping_add(digit(byte)))?,
    }
    Ok(Escape::No)
}

/// Puts the bytes of a line, where a count stands for itself, and a line feed unless the line ends with a backslash.
pub fn put_line(
    alloc: Global,
    line: &[u8],
    count: usize,
    feed: &[u8],
    out: &mut Vec<u8>,
) -> Result<(), AllocError> {
    let mut escape = Escape::No;
    for byte in line {
        escape = put_byte(alloc, escape, *byte, count, out)?;
    }
    if escape == Escape::No {
        out.extend_from_slice(feed)?;
    }
    Ok(())
}

/// The word before the first blank, and what stands behind that.
pub fn split_word(line: &[u8]) -> (&[u8], &[u8]) {
    match line.iter().position(|byte| *byte == b' ') {
        Some(place) => (&line[..place], &line[place + 1..]),
        None => (line, b""),
    }
}

/// Puts a line for each number from one to another.
fn put_each(alloc: Global, line: &[u8], out: &mut Vec<u8>) -> Result<(), AllocError> {
    let (from, behind) = split_word(line);
    let (to, pattern) = split_word(behind);
    let from = number(from).unwrap_or(0);
    let to = number(to).unwrap_or(0);
    for count in from..to {
        put_line(alloc, pattern, count, b"\n", out)?;
    }
    put_line(alloc, pattern, to, b"\n", out)
}

/// A file without its last line feed.
pub fn body_of(file: &[u8]) -> &[u8] {
    file.strip_suffix(b"\n").unwrap_or(file)
}

/// Puts the program with this name.
fn put_program(programs: &[u8], name: &[u8], out: &mut Vec<u8>) -> Result<(), AllocError> {
    let mut here = false;
    for line in body_of(programs).split(|byte| *byte == b'\n') {
        if let Some(found) = line.strip_prefix(b"== ") {
            here = found == name;
        } else if here {
            out.extend_from_slice(line)?;
            out.push(b'\n')?;
        }
    }
    Ok(())
}

impl Text {
    /// No text.
    pub fn new(alloc: Global) -> Text {
        Text {
            bytes: Vec::new(alloc),
            first_read: None,
        }
    }

    /// Puts what a line of a file of cases stands for.
    pub fn take_line(
        &mut self,
        alloc: Global,
        programs: &[u8],
        line: &[u8],
    ) -> Result<(), AllocError> {
        if let Some(name) = line.strip_prefix(b"\\use ") {
            put_program(programs, name, &mut self.bytes)
        } else if let Some(rest) = line.strip_prefix(b"\\each ") {
            put_each(alloc, rest, &mut self.bytes)
        } else if let Some(length) = line.strip_prefix(b"\\pad ") {
            self.bytes.resize(number(length).unwrap_or(0), b'\n')
        } else if line == b"\\first".as_slice() {
            self.first_read = Some(self.bytes.len());
            Ok(())
        } else {
            put_line(alloc, line, 0, b"\n", &mut self.bytes)
        }
    }
}
