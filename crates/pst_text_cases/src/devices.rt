//! A source and a sink that fail at some calls.

ghost use Rattle.std.specs.Prelude.{◌≤◌};

use pst_io::{MemSink, MemSource, Sink, Source, put};
use std::alloc::Global;
use std::test::Fail;

/// The bytes that are given and taken.
const TEXT: &[u8] = b"what a source gives";

/// How many bytes a call moves at most, which calls fail, and how often that is.
const ROWS: [(usize, &[u64], usize); 4] = [
    (1, &[], 0),
    (1, &[1, 3, 4], 3),
    (5, &[2], 1),
    (100, &[1, 2], 2),
];

/// Puts the bytes of so many reads behind the others, and says how many of these failed.
pub(crate) fn drain(source: &mut MemSource, reads: u8, all: &mut Vec<u8>) -> Result<usize, Fail> {
    let mut faults: usize = 0;
    let mut buffer = [0u8; 16];
    for _ in 0..reads {
        match source.read(&mut buffer) {
            Ok(count) => all.extend_from_slice(&buffer[..count])?,
            Err(_) => faults = faults.saturating_add(1),
        }
    }
    Ok(faults)
}

/// Whether a source gives the text, and fails so often.
fn gives_all(alloc: Global, most: usize, failing: &[u64], faults: usize) -> Result<bool, Fail>
    requires { 1 ≤ most }
{
    let mut source = MemSource::new(TEXT.to_vec(alloc)?, most, failing.to_vec(alloc)?);
    let mut given = Vec::new(alloc);
    let failed = drain(&mut source, 30, &mut given)?;
    Ok(given.as_slice() == TEXT && failed == faults)
}

/// Puts what the sink has not taken yet, so many times, and says how often that failed.
fn fill(sink: &mut MemSink, text: &[u8], puts: u8) -> usize {
    let mut faults: usize = 0;
    for _ in 0..puts {
        let done = sink.taken().len().min(text.len());
        if put(sink, &text[done..]).is_err() {
            faults = faults.saturating_add(1);
        }
    }
    faults
}

/// Whether a sink takes the text, fails so often, and is full then.
fn takes_all(alloc: Global, most: usize, failing: &[u64], faults: usize) -> Result<bool, Fail>
    requires { 1 ≤ most }
{
    let mut sink = MemSink::new(alloc, TEXT.len(), most, failing.to_vec(alloc)?)?;
    let failed = fill(&mut sink, TEXT, 10);
    let is_full = sink.write(b"more").is_err();
    Ok(sink.taken() == TEXT && failed == faults && is_full)
}

#[test]
fn a_failing_read_loses_nothing(rt: HostRuntime) -> Result<(), Fail> {
    for (most, failing, faults) in ROWS {
        assert!(rt; gives_all(rt.alloc(), most.max(1), failing, faults)?);
    }
    Ok(())
}

#[test]
fn a_failing_write_loses_nothing(rt: HostRuntime) -> Result<(), Fail> {
    for (most, failing, faults) in ROWS {
        assert!(rt; takes_all(rt.alloc(), most.max(1), failing, faults)?);
    }
    Ok(())
}
