//! Running a case over inputs and outputs in memory.

use crate::case::{Case, UNTOUCHED};
use crate::turns::{fail_each, run_cuts};
use pst_base::Counts;
use pst_cli::{Status, number, persist};
use pst_io::{MemSink, MemSource};
use pst_line::calls::LineCalls;
use pst_line::line_store::LineStore;
use pst_store::Store;
use pst_versions::VersionedHeap;
use std::alloc::{AllocError, Global};
use std::io;

/// Room for more than a case has to write.
const MORE: usize = 1_000;

/// How many runs of the program passed, and how many failed.
#[derive(Clone, Copy)]
pub struct Score {
    pub passed: usize,
    pub failed: usize,
}

impl Score {
    /// None ran.
    pub fn none() -> Score {
        Score {
            passed: 0,
            failed: 0,
        }
    }
}

/// How source and sink behave in a run: how many bytes a read gives and a write takes at most, the numbers of the reads and writes
/// that fail, and how many bytes can be written in all.
#[derive(Debug, Drop)]
pub(crate) struct Devices {
    pub(crate) read: usize,
    pub(crate) write: usize,
    pub(crate) failing_reads: Vec<u64>,
    pub(crate) failing_writes: Vec<u64>,
    pub(crate) room: usize,
}

impl Devices {
    /// Source and sink of a case, which fail where the case says so.
    fn of(case: &Case, read: usize, write: usize) -> Result<Devices, AllocError> {
        Ok(Devices {
            read,
            write,
            failing_reads: case.failing_reads.clone()?,
            failing_writes: case.failing_writes.clone()?,
            room: case.room.unwrap_or(room_for(case)),
        })
    }

    /// Source and sink that do not fail, at most so many bytes a read and a write.
    pub(crate) fn sound(alloc: Global, case: &Case, read: usize, write: usize) -> Devices {
        Devices {
            read,
            write,
            failing_reads: Vec::new(alloc),
            failing_writes: Vec::new(alloc),
            room: room_for(case),
        }
    }
}

/// Room for more than a case has to write.
fn room_for(case: &Case) -> usize {
    case.output.bytes.len().saturating_add(MORE)
}

/// How a call has to end, what it has to write, and what the store that it works over has to have then; where that is empty it is not
/// looked at.
#[derive(Clone, Copy)]
pub(crate) struct Wanted<'a> {
    pub(crate) status: usize,
    pub(crate) written: &'a [u8],
    pub(crate) store: &'a [usize],
}

/// What the program is given, and what it has to do.
#[derive(Clone, Copy)]
pub(crate) struct Trial<'a> {
    pub(crate) words: &'a [String],
    pub(crate) input: &'a [u8],
    pub(crate) devices: &'a Devices,
    pub(crate) wanted: Wanted<'a>,
}

/// How a call ended, what it wrote, and what the store that it works over and the other one have then.
#[derive(Drop)]
struct Ended {
    status: Status,
    written: Vec<u8>,
    store: [usize; 4],
    other: [usize; 4],
}

/// How many versions, records, pointer writes and value writes a store has.
fn numbers_of(versions: u32, counts: Counts) -> [usize; 4] {
    [
        versions as usize,
        counts.records as usize,
        counts.pointer_writes as usize,
        counts.value_writes as usize,
    ]
}

/// Whether the words work over the store of a linear history.
fn is_line(words: &[String]) -> bool {
    match words {
        [word] => word.as_bytes() == b"line".as_slice(),
        _ => false,
    }
}

/// Runs the program.
fn run(alloc: Global, trial: Trial<'_>) -> Result<Ended, AllocError> {
    let devices = trial.devices;
    let mut source = MemSource::new(
        trial.input.to_vec(alloc)?,
        devices.read.max(1),
        devices.failing_reads.clone()?,
    );
    let mut sink = MemSink::new(
        alloc,
        devices.room,
        devices.write.max(1),
        devices.failing_writes.clone()?,
    )?;
    let mut store: Store = Store::empty();
    let mut line = LineStore::empty();
    let status = persist(
        alloc,
        trial.words,
        &mut source,
        &mut sink,
        &mut store,
        &mut line,
    );
    let tree = numbers_of(store.count(), store.counts());
    let line = numbers_of(line.count(), line.counts());
    let (store, other) = if is_line(trial.words) {
        (line, tree)
    } else {
        (tree, line)
    };
    Ok(Ended {
        status,
        written: sink.taken().to_vec(alloc)?,
        store,
        other,
    })
}

/// Whether a call ended as it has to.
fn passes(wanted: Wanted<'_>, ended: &Ended) -> bool {
    usize::from(number(ended.status)) == wanted.status
        && ended.written.as_slice() == wanted.written
        && (wanted.store.is_empty() || ended.store.as_slice() == wanted.store)
        && ended.other.as_slice() == UNTOUCHED.as_slice()
}

/// Runs the program once for a case with this name, and says what is wrong.
pub(crate) fn run_once<R: Print + AllocGlobal>(
    rt: &R,
    name: &[u8],
    trial: Trial<'_>,
    score: &mut Score,
) -> io::Result<()> {
    let ended = run(rt.alloc(), trial)?;
    if passes(trial.wanted, &ended) {
        score.passed = score.passed.saturating_add(1);
        return Ok(());
    }
    score.failed = score.failed.saturating_add(1);
    let name = String::from_utf8_lossy(rt.alloc(), name)?;
    let written = String::from_utf8_lossy(rt.alloc(), &ended.written)?;
    let words = trial.words;
    let length = trial.input.len();
    let devices = trial.devices;
    let status = number(ended.status);
    let store = ended.store;
    println!(rt;
        "{name}: {words:?}, {length} bytes, {devices:?}: status {status}, store {store:?}\n{written}"
    )
}

/// The sizes of a list, or this one where there is none.
pub(crate) fn sizes(
    alloc: Global,
    list: &[usize],
    default: usize,
) -> Result<Vec<usize>, AllocError> {
    if list.is_empty() {
        return Vec::from_slice(alloc, &[default]);
    }
    Vec::from_slice(alloc, list)
}

/// Runs a case with these words: once for each size of a read and each of a write.
fn run_words<R: Print + AllocGlobal>(
    rt: &R,
    case: &Case,
    words: &[String],
    score: &mut Score,
) -> io::Result<()> {
    let whole = case.input.first_read.unwrap_or(case.input.bytes.len());
    let wanted = Wanted {
        status: case.status,
        written: &case.output.bytes,
        store: &case.store,
    };
    for read in sizes(rt.alloc(), &case.reads, whole)? {
        for write in sizes(rt.alloc(), &case.writes, usize::MAX)? {
            let devices = Devices::of(case, read, write)?;
            let trial = Trial {
                words,
                input: &case.input.bytes,
                devices: &devices,
                wanted,
            };
            run_once(rt, &case.name, trial, score)?;
        }
    }
    Ok(())
}

/// Runs a case: with each list of words, and then, where it asks for that, with each read and each write failing in turn, and on the
/// first bytes of its input.
pub(crate) fn run_case<R: Print + AllocGlobal>(
    rt: &R,
    case: &Case,
    score: &mut Score,
) -> io::Result<()> {
    for words in &case.words {
        run_words(rt, case, words, score)?;
        if case.each_fails {
            fail_each(rt, case, words, score)?;
        }
        run_cuts(rt, case, words, score)?;
    }
    Ok(())
}
