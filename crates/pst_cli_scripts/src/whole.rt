//! An input as a whole: all its bytes, with no program and no script told apart.

ghost use Rattle.std.specs.Prelude.{◌≡◌, ◌≤◌, List, ℕ, length, IfOk, IfErr, Err};
ghost use Rattle.pst_io.specs.Causes.{Rose};
ghost use Rattle.pst_io.specs.Input.{bytes_read};
ghost use Rattle.pst_io.specs.Lines.{not_begun};
ghost use Rattle.pst_cli_scripts.specs.Reading.{GivesUntil, HandsAll};

use crate::program::keep_line;
use crate::stop::Stop;
use pst_io::{Lines, MOST_INPUT, Source};
use std::alloc::Global;

/// Reads an input to its end and gives its bytes, by a reader that has not begun.
///
/// # Errors
/// Where a read failed, the input is too long, or there was no memory.
pub fn read_all<S: Source>(
    alloc: Global,
    lines: &mut Lines,
    source: &mut S,
) -> Result<Vec<u8>, Stop>
    requires { lines.old ≡ not_begun }
    ensures whole { IfOk result (λ bytes. HandsAll lines.old.input (S.left source.old) lines.new.input (S.left source.new) bytes.items) }
    ensures few { IfOk result (λ bytes. length bytes.items ≤ MOST_INPUT) }
    ensures stopped { IfErr result (λ stop. (given : List (List ℕ))
        × GivesUntil stop lines.old.input (S.left source.old) lines.new.input (S.left source.new) given) }
    ensures within { bytes_read lines.new.input ≤ MOST_INPUT }

    ensures later { S.faults source.old ≤ S.faults source.new }
    ensures read { result ≡ Err Stop.Read → Rose (S.faults source.old) (S.faults source.new) }
    ensures not_write { result ≡ Err Stop.Write → ⊥ }
{
    let mut bytes = Vec::new(alloc);
    'reading: loop {
        match lines.next(source) {
            Ok(true) => {}
            Ok(false) => return Ok(bytes),
            Err(fault) => return Err(Stop::from(fault)),
        }
        match keep_line(&mut bytes, lines.line(), lines.fed()) {
            Ok(()) => {}
            Err(_) => return Err(Stop::Memory),
        }
    }
}
