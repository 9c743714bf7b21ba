//! Two files in memory that are made, opened, appended to and written anew by the lines of standard input. It says what each call
//! answered, and which calls it made of each file, so that a judge apart from it can tell what a crash may leave. A file fails where
//! a line says so.
#![tactic(auto)]

mod command;
mod disk;
mod error;
mod fault;
mod session;
mod told;

use session::Session;
use std::io::{self, BufRead, BufReader, BufWriter, Write};

fn main(rt: HostRuntime) -> io::Result<()> {
    let mut out = BufWriter::new(rt.alloc(), io::writer(&rt))?;
    let mut session = Session::new(rt.alloc());
    for line in BufReader::new(rt.alloc(), rt.reader())?.lines(rt.alloc()) {
        session.answer(rt.alloc(), line?.as_str(), &mut out)?;
    }
    out.flush()
}
