//! A case again and again: with each read failing in turn, with each write, and with room for each number of bytes; and on each
//! number of the first bytes of its input.

use crate::case::{Case, Cut, Step, UNTOUCHED};
use crate::run::{Devices, Score, Trial, Wanted, run_once, sizes};
use std::alloc::{AllocError, Global};
use std::io;

/// The statuses where a read and where a write failed.
const READ_FAULT: usize = 1;

const WRITE_FAULT: usize = 2;

/// The first bytes of a text, so many.
fn first(bytes: &[u8], count: usize) -> &[u8] {
    &bytes[..count.min(bytes.len())]
}

/// What the store has to have at a step, for these words: `run` and `line` change theirs.
fn store_at<'a>(words: &[String], step: &'a Step) -> &'a [usize] {
    match words.first() {
        Some(word)
            if word.as_bytes() == b"run".as_slice() || word.as_bytes() == b"line".as_slice() => {
            &step.store
        }
        Some(_) | None => &UNTOUCHED,
    }
}

/// The last step that ends within so many bytes of the input.
fn last_within(case: &Case, read: usize) -> Option<&Step> {
    let mut last = None;
    for step in &case.steps {
        if step.read <= read {
            last = Some(step);
        }
    }
    last
}

/// The first step whose reply ends behind so many bytes of the output.
fn first_behind(case: &Case, written: usize) -> Option<&Step> {
    for step in &case.steps {
        if written < step.written {
            return Some(step);
        }
    }
    None
}

/// What is wanted where the read behind so many bytes of the input fails. Of a script all whole lines are answered before. Any other
/// input ends with its program, behind which no read is made.
fn wanted_for_read<'a>(case: &'a Case, words: &[String], read: usize) -> Wanted<'a> {
    if case.steps.is_empty() && case.input.bytes.len() <= read {
        return Wanted {
            status: case.status,
            written: &case.output.bytes,
            store: &UNTOUCHED,
        };
    }
    match last_within(case, read) {
        None => Wanted {
            status: READ_FAULT,
            written: b"",
            store: &UNTOUCHED,
        },
        Some(step) => Wanted {
            status: READ_FAULT,
            written: first(&case.output.bytes, step.written),
            store: store_at(words, step),
        },
    }
}

/// What is wanted where no more than so many bytes of the output are written: the line whose reply is cut off was carried out.
fn wanted_for_write<'a>(case: &'a Case, words: &[String], written: usize) -> Wanted<'a> {
    let store: &[usize] = match first_behind(case, written) {
        None => &UNTOUCHED,
        Some(step) => store_at(words, step),
    };
    Wanted {
        status: WRITE_FAULT,
        written: first(&case.output.bytes, written),
        store,
    }
}

/// In how many parts of at most so many bytes a number of bytes goes: in none, where a part has no bytes.
fn pieces(bytes: usize, size: usize) -> usize {
    if size > 0 { bytes.div_ceil(size) } else { 0 }
}

/// Puts how many bytes are written before each write of a piece, where a write takes at most so many.
fn put_writes(
    from: usize,
    to: usize,
    size: usize,
    before: &mut Vec<usize>,
) -> Result<(), AllocError> {
    for count in 0..pieces(to.saturating_sub(from), size) {
        before.push(from.saturating_add(count.saturating_mul(size)))?;
    }
    Ok(())
}

/// How many bytes are written before each write. The reply to each line of a script is a piece of its own, and any other output is one.
fn writes_of(alloc: Global, case: &Case, size: usize) -> Result<Vec<usize>, AllocError> {
    let mut before = Vec::new(alloc);
    let mut from = 0;
    for step in &case.steps {
        put_writes(from, step.written, size, &mut before)?;
        from = step.written;
    }
    put_writes(from, case.output.bytes.len(), size, &mut before)?;
    Ok(before)
}

/// Lets each read of at most so many bytes fail in turn, the one at the end of the input too.
fn fail_reads<R: Print + AllocGlobal>(
    rt: &R,
    case: &Case,
    words: &[String],
    size: usize,
    score: &mut Score,
) -> io::Result<()> {
    let length = case.input.bytes.len();
    for call in 0..pieces(length, size).saturating_add(1) {
        let mut devices = Devices::sound(rt.alloc(), case, size, usize::MAX);
        devices.failing_reads.push((call as u64).saturating_add(1))?;
        let trial = Trial {
            words,
            input: &case.input.bytes,
            devices: &devices,
            wanted: wanted_for_read(case, words, length.min(call.saturating_mul(size))),
        };
        run_once(rt, &case.name, trial, score)?;
    }
    Ok(())
}

/// Lets each write of at most so many bytes fail in turn.
fn fail_writes<R: Print + AllocGlobal>(
    rt: &R,
    case: &Case,
    words: &[String],
    size: usize,
    score: &mut Score,
) -> io::Result<()> {
    let mut call = 0u64;
    for written in writes_of(rt.alloc(), case, size)? {
        call = call.saturating_add(1);
        let mut devices = Devices::sound(rt.alloc(), case, usize::MAX, size);
        devices.failing_writes.push(call)?;
        let trial = Trial {
            words,
            input: &case.input.bytes,
            devices: &devices,
            wanted: wanted_for_write(case, words, written),
        };
        run_once(rt, &case.name, trial, score)?;
    }
    Ok(())
}

/// Leaves room for each number of bytes that is less than the output has.
fn leave_less_room<R: Print + AllocGlobal>(
    rt: &R,
    case: &Case,
    words: &[String],
    score: &mut Score,
) -> io::Result<()> {
    for room in 0..case.output.bytes.len() {
        let mut devices = Devices::sound(rt.alloc(), case, usize::MAX, usize::MAX);
        devices.room = room;
        let trial = Trial {
            words,
            input: &case.input.bytes,
            devices: &devices,
            wanted: wanted_for_write(case, words, room),
        };
        run_once(rt, &case.name, trial, score)?;
    }
    Ok(())
}

/// Runs a case with each of its reads and each of its writes failing in turn, in the sizes that it names or else one byte at a time,
/// and with too little room.
pub(crate) fn fail_each<R: Print + AllocGlobal>(
    rt: &R,
    case: &Case,
    words: &[String],
    score: &mut Score,
) -> io::Result<()> {
    for size in sizes(rt.alloc(), &case.reads, 1)? {
        fail_reads(rt, case, words, size.max(1), score)?;
    }
    for size in sizes(rt.alloc(), &case.writes, 1)? {
        fail_writes(rt, case, words, size.max(1), score)?;
    }
    leave_less_room(rt, case, words, score)
}

/// What a case says of an input of so many bytes.
fn cut_at(case: &Case, length: usize) -> Option<&Cut> {
    let mut last = None;
    for cut in &case.cuts {
        if cut.from <= length {
            last = Some(cut);
        }
    }
    last
}

/// Runs a case on each number of the first bytes of its input, where it says what comes of them.
pub(crate) fn run_cuts<R: Print + AllocGlobal>(
    rt: &R,
    case: &Case,
    words: &[String],
    score: &mut Score,
) -> io::Result<()> {
    for length in 0..case.input.bytes.len().saturating_add(1) {
        let Some(cut) = cut_at(case, length) else {
            continue;
        };
        let devices = Devices::sound(rt.alloc(), case, usize::MAX, usize::MAX);
        let trial = Trial {
            words,
            input: first(&case.input.bytes, length),
            devices: &devices,
            wanted: Wanted {
                status: cut.status,
                written: &cut.output.bytes,
                store: &[],
            },
        };
        run_once(rt, &case.name, trial, score)?;
    }
    Ok(())
}
