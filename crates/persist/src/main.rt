//! The program: its words, standard input and standard output.
#![tactic(auto)]

use pst_cli::{number, persist};
use pst_io::{StdSink, StdSource};
use pst_line::line_store::LineStore;
use pst_store::Store;
use std::process::ExitCode;
use std::rt::Env;
use std::{env, io, mem};

/// The status where there is no memory for the words.
const NO_MEMORY: u8 = 6;

/// The status where the system does not give the words for another cause.
const NO_WORDS: u8 = 7;

/// The words after the program's name.
fn words<R: Env + AllocGlobal>(rt: &R) -> io::Result<Vec<String>> {
    let mut words = Vec::new(rt.alloc());
    for word in env::args(rt)?.skip(1) {
        words.push(word)?;
    }
    Ok(words)
}

fn main(rt: HostRuntime) -> ExitCode {
    let words = match words(&rt) {
        Ok(words) => words,
        Err(error) if error.kind() == io::ErrorKind::OutOfMemory => {
            return ExitCode::from(NO_MEMORY);
        }
        Err(_) => return ExitCode::from(NO_WORDS),
    };
    let mut source = StdSource::new(rt.stdin());
    let mut sink = StdSink::new(rt.stdout());
    let mut store: Store = Store::empty();
    let mut line = LineStore::empty();
    let status = persist(
        rt.alloc(),
        &words,
        &mut source,
        &mut sink,
        &mut store,
        &mut line,
    );

    // The process ends here, and the system takes all its memory back at once: to let each node go would only take time.
    mem::forget(store);
    mem::forget(line);
    ExitCode::from(number(status))
}
