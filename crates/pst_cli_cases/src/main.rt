//! Whole inputs with what is written for them, on the top call: the cases stand in the files of `data/`, which lie where
//! this program runs. It says which case fails and what was written for it, and where no case passed; else it prints nothing.
//!
//! `data/programs` tells how the files are written. [`Case::take_line`] takes the lines of a case one after another; a line that has
//! none of its forms stands for itself or is left out, and a case that was not read as it was meant fails when it is run.
#![tactic(auto)]

#[cfg(test)]
mod bench;
mod case;
mod file;
#[cfg(test)]
mod limits;
mod run;
mod text;
mod turns;

use crate::file::run_file;
use crate::run::Score;
use std::rt::Files;
use std::{fs, io};

/// The file of the programs that the cases name.
const PROGRAMS: &str = "programs";

/// The files of the cases.
const CASES: [&str; 15] = [
    "versions",
    "refusals",
    "open_runs",
    "calls",
    "streams",
    "devices",
    "prefixes",
    "faults",
    "grammar",
    "arrays",
    "typing",
    "pages",
    "questions",
    "lines",
    "images",
];

/// Runs the cases of all files.
fn run_all<R: Files + Print + AllocGlobal>(rt: &R) -> io::Result<Score> {
    let programs = fs::read(rt, PROGRAMS)?;
    let mut score = Score::none();
    for name in CASES {
        let cases = fs::read(rt, name)?;
        run_file(rt, &programs, &cases, &mut score)?;
    }
    Ok(score)
}

fn main(rt: HostRuntime) -> io::Result<()> {
    let score = run_all(&rt)?;
    if score.passed == 0 {
        println!(rt; "no case passed")?;
    }
    Ok(())
}
