//! The cases of a file.

use crate::case::Case;
use crate::run::{Score, run_case};
use crate::text::body_of;
use std::io;

/// Runs the cases of a file, which may name programs of another file, and counts them.
///
/// # Errors
/// What printing answers, and want of memory.
pub fn run_file<R: Print + AllocGlobal>(
    rt: &R,
    programs: &[u8],
    cases: &[u8],
    score: &mut Score,
) -> io::Result<()> {
    let mut case = Case::new(rt.alloc());
    for line in body_of(cases).split(|byte| *byte == b'\n') {
        if let Some(name) = line.strip_prefix(b"== ") {
            run_case(rt, &case, score)?;
            case = Case::new(rt.alloc());
            case.name.extend_from_slice(name)?;
        } else {
            case.take_line(rt.alloc(), programs, line)?;
        }
    }
    run_case(rt, &case, score)
}
