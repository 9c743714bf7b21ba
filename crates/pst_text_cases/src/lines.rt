//! The lines of sources that give pieces of many sizes.

ghost use Rattle.std.specs.Prelude.{◌≤◌, Some};
ghost use Rattle.pst_io.specs.Lines.{IsOpen};

use crate::devices::drain;
use pst_io::{Lines, LinesFault, MOST_SERVED, MemSource};
use std::alloc::Global;
use std::test::Fail;

/// What a reader of lines gave: the lines, with a bar behind each that a line feed ended and a dot behind one that the input
/// ended, their lengths, and the fault.
#[derive(Drop)]
struct Report {
    text: Vec<u8>,
    lengths: Vec<usize>,
    fault: Option<LinesFault>,
}

impl Report {
    /// A report of no line.
    fn new(alloc: Global) -> Report {
        Report {
            text: Vec::new(alloc),
            lengths: Vec::new(alloc),
            fault: None,
        }
    }

    /// Adds a line.
    fn add(&mut self, line: &[u8], fed: bool) -> Result<(), Fail> {
        self.text.extend_from_slice(line)?;
        self.text.push(if fed { b'|' } else { b'.' })?;
        self.lengths.push(line.len())?;
        Ok(())
    }
}

/// The lines that a reader gives to the end, or to a fault.
fn heard(alloc: Global, lines: &mut Lines, source: &mut MemSource) -> Result<Report, Fail>
    requires { IsOpen lines.old (Some source.old.left) }
{
    let mut report = Report::new(alloc);
    for _ in 0..u64::MAX {
        match lines.next(source) {
            Ok(true) => report.add(lines.line(), lines.fed())?,
            Ok(false) => break,
            Err(fault) => {
                report.fault = Some(fault);
                break;
            }
        }
    }
    Ok(report)
}

/// The lines of an input that comes in pieces of at most so many bytes.
fn report_of(alloc: Global, input: &[u8], most: usize) -> Result<Report, Fail>
    requires { 1 ≤ most }
{
    let mut source = MemSource::new(input.to_vec(alloc)?, most, Vec::new(alloc));
    let mut lines = Lines::new(alloc);
    heard(alloc, &mut lines, &mut source)
}

/// Inputs with their lines.
const CUT: [(&str, &str); 8] = [
    ("", ""),
    ("a", "a."),
    ("a\n", "a|"),
    ("\n", "|"),
    ("\n\n", "||"),
    ("\n\na", "||a."),
    ("ab\n\ncd", "ab||cd."),
    ("one\ntwo\r\n three \n", "one|two\r| three |"),
];

/// Whether an input has these lines, by pieces of these sizes.
fn is_cut(alloc: Global, input: &str, want: &str) -> Result<bool, Fail> {
    let mut as_wanted = true;
    for most in [1usize, 2, 3, 5, 100_000] {
        let report = report_of(alloc, input.as_bytes(), most.max(1))?;
        as_wanted = as_wanted
            && report.fault.is_none()
            && report.text.as_slice() == want.as_bytes();
    }
    Ok(as_wanted)
}

#[test]
fn lines_are_cut_whatever_the_pieces(rt: HostRuntime) -> Result<(), Fail> {
    for (input, want) in CUT {
        assert!(rt; is_cut(rt.alloc(), input, want)?, "{input:?}");
    }
    Ok(())
}

/// Whether the lines end at a failed read, and the bytes behind it are still left.
fn ends_at_a_failed_read(alloc: Global) -> Result<bool, Fail> {
    let mut source = MemSource::new(b"ab\ncd\nef".to_vec(alloc)?, 1, [5].to_vec(alloc)?);
    let mut lines = Lines::new(alloc);
    let report = heard(alloc, &mut lines, &mut source)?;
    let mut rest = Vec::new(alloc);
    drain(&mut source, 10, &mut rest)?;
    let as_wanted = report.text.as_slice() == b"ab|".as_slice()
        && rest.as_slice() == b"d\nef".as_slice();
    Ok(as_wanted && lines.failed() && report.fault == Some(LinesFault::Failed))
}

#[test]
fn a_failed_read_ends_the_lines(rt: HostRuntime) -> Result<(), Fail> {
    assert!(rt; ends_at_a_failed_read(rt.alloc())?);
    Ok(())
}

/// Adds a line of so many bytes, and its line feed.
fn add_line(input: &mut Vec<u8>, len: usize) -> Result<(), Fail> {
    for _ in 0..len {
        input.push(b'x')?;
    }
    input.push(b'\n')?;
    Ok(())
}

/// The lengths of lines that end at the borders of pieces.
const LENGTHS: [usize; 5] = [65_535, 65_536, 200_000, 0, 65_536];

/// An input of lines of these lengths. The last has no line feed.
fn at_borders(alloc: Global) -> Result<Vec<u8>, Fail> {
    let mut input = Vec::new(alloc);
    for len in LENGTHS {
        add_line(&mut input, len)?;
    }
    input.pop();
    Ok(input)
}

#[test]
fn lines_end_at_the_borders_of_pieces(rt: HostRuntime) -> Result<(), Fail> {
    let input = at_borders(rt.alloc())?;
    for most in [1usize, 65_535, 65_536, 1_000_000] {
        let report = report_of(rt.alloc(), &input, most.max(1))?;
        assert!(rt;
            report.lengths.as_slice() == LENGTHS.as_slice(),
            "by {most}"
        );
        assert!(rt;
            report.text.last() == Some(&b'.') && report.fault.is_none(),
            "by {most}"
        );
    }
    Ok(())
}

/// Whether an input of 67,108,863 bytes and this end has its two lines, and then this fault.
fn is_read_to(alloc: Global, end: &[u8], fault: Option<LinesFault>) -> Result<bool, Fail> {
    let mut input = b"ab\n".to_vec(alloc)?;
    input.resize(67_108_863, b'x')?;
    input.extend_from_slice(end)?;
    let report = report_of(alloc, &input, 1_000_000)?;
    Ok(report.lengths.as_slice() == [2, 67_108_860].as_slice() && report.fault == fault)
}

#[test]
fn an_input_of_64_mebibytes_is_read_and_one_byte_more_is_too_long(
    rt: HostRuntime,
) -> Result<(), Fail> {
    assert!(rt; is_read_to(rt.alloc(), b"\n", None)?);
    assert!(rt; is_read_to(rt.alloc(), b"\ny", Some(LinesFault::TooLong))?);
    Ok(())
}

/// The bytes that are handed out of an input that comes in pieces of at most so many bytes, a slash where they are as many as
/// were asked for and else a minus, or an exclamation mark at a fault, and what lines are behind them, as a report tells them.
fn handed(
    alloc: Global,
    lines: &mut Lines,
    source: &mut MemSource,
    count: usize,
) -> Result<Vec<u8>, Fail>
    requires { IsOpen lines.old (Some source.old.left) }
{
    let mut text = Vec::new(alloc);
    match lines.hand(source, count, &mut text) {
        Ok(whole) => {
            text.push(if whole { b'/' } else { b'-' })?;
            let report = heard(alloc, lines, source)?;
            text.extend_from_slice(report.text.as_slice())?;
            text.push(if report.fault.is_some() { b'!' } else { b';' })?;
        }
        Err(_) => text.push(b'!')?,
    }
    Ok(text)
}

/// Inputs, how many bytes a reader may read of them, how many it is asked for, and what it hands out.
const HANDED: [(&str, usize, usize, &str); 14] = [
    ("", 9, 0, "/;"),
    ("", 9, 1, "-;"),
    ("abc", 9, 0, "/abc.;"),
    ("abc", 9, 2, "ab/c.;"),
    ("abc", 9, 3, "abc/;"),
    ("abc", 9, 4, "abc-;"),
    ("ab\ncd\nef", 9, 2, "ab/|cd|ef.;"),
    ("ab\ncd\nef", 9, 3, "ab\n/cd|ef.;"),
    ("ab\ncd\nef", 9, 4, "ab\nc/d|ef.;"),
    ("ab\ncd\n", 6, 6, "ab\ncd\n/;"),
    ("ab\ncd\n", 6, 7, "ab\ncd\n-;"),
    ("ab\ncd\n", 5, 5, "ab\ncd/!"),
    ("ab\ncd\n", 5, 6, "ab\ncd!"),
    ("ab\ncd\n", 4, 2, "ab/|!"),
];

/// Whether this is handed out of an input, by pieces of these sizes.
fn is_handed(
    alloc: Global,
    input: &str,
    most: usize,
    count: usize,
    want: &str,
) -> Result<bool, Fail> {
    let mut as_wanted = true;
    for piece in [1usize, 2, 3, 5, 100_000] {
        let mut source = MemSource::new(
            input.as_bytes().to_vec(alloc)?,
            piece.max(1),
            Vec::new(alloc),
        );
        let mut lines = Lines::up_to(alloc, most.min(MOST_SERVED));
        let text = handed(alloc, &mut lines, &mut source, count)?;
        as_wanted = as_wanted && text.as_slice() == want.as_bytes();
    }
    Ok(as_wanted)
}

#[test]
fn bytes_are_handed_out_whatever_the_pieces(rt: HostRuntime) -> Result<(), Fail> {
    for (input, most, count, want) in HANDED {
        assert!(rt;
            is_handed(rt.alloc(), input, most, count, want)?,
            "{count} of {input:?}"
        );
    }
    Ok(())
}

/// Whether bytes are handed out behind a line that was, up to a failed read, and the bytes behind it are still left.
fn ends_at_a_failed_read_behind_a_line(alloc: Global) -> Result<bool, Fail> {
    let mut source = MemSource::new(b"ab\ncdef".to_vec(alloc)?, 1, [6].to_vec(alloc)?);
    let mut lines = Lines::new(alloc);
    let mut text = Vec::new(alloc);
    let fault = match lines.next(&mut source) {
        Ok(true) => lines.hand(&mut source, 4, &mut text).err(),
        _ => None,
    };
    let mut rest = Vec::new(alloc);
    drain(&mut source, 10, &mut rest)?;
    let as_wanted = text.as_slice() == b"cd".as_slice() && rest.as_slice() == b"ef".as_slice();
    Ok(as_wanted && lines.failed() && fault == Some(LinesFault::Failed))
}

#[test]
fn bytes_are_handed_out_behind_a_line_up_to_a_failed_read(rt: HostRuntime) -> Result<(), Fail> {
    assert!(rt; ends_at_a_failed_read_behind_a_line(rt.alloc())?);
    Ok(())
}
