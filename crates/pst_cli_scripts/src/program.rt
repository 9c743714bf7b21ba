//! The text of the program: the lines up to the separator line or the end.

ghost use Rattle.std.specs.Prelude.{◌≡◌, ◌≤◌, ◌++◌, List, ℕ, length, IfOk, IfErr, OnOk, Err, None};
ghost use Rattle.pst_io.specs.Causes.{Rose};
ghost use Rattle.pst_io.specs.Input.{bytes_read};
ghost use Rattle.pst_io.specs.Text.{line_text};
ghost use Rattle.pst_io.specs.Lines.{IsOpen, not_begun};
ghost use Rattle.pst_cli_scripts.specs.Input.{cut};
ghost use Rattle.pst_cli_scripts.specs.Reading.{GivesUntil, ReadsText};

use crate::stop::Stop;
use pst_base::NoMemory;
use pst_io::{Lines, MOST_INPUT, Source};
use pst_script::is_separator;
use std::alloc::Global;

/// Reads the text of the program, by a reader that has not begun.
///
/// # Errors
/// Where a read failed, the input is too long, or there was no memory.
pub fn read_text<S: Source>(
    alloc: Global,
    lines: &mut Lines,
    source: &mut S,
) -> Result<Vec<u8>, Stop>
    requires { lines.old ≡ not_begun }
    ensures text { IfOk result (λ text. ReadsText lines.old.input (S.left source.old) lines.new.input (S.left source.new) text.items) }
    ensures few { IfOk result (λ text. length text.items ≤ MOST_INPUT) }
    ensures open { OnOk result (IsOpen lines.new (S.left source.new)) }

    // Where it stopped, no separator line was among the lines that were read.
    ensures stopped { IfErr result (λ stop. (given : List (List ℕ))
        × GivesUntil stop lines.old.input (S.left source.old) lines.new.input (S.left source.new) given × (cut given ≡ None)) }
    ensures within { bytes_read lines.new.input ≤ MOST_INPUT }
    ensures limit { lines.new.input.most ≡ MOST_INPUT }

    ensures later { S.faults source.old ≤ S.faults source.new }
    ensures read { result ≡ Err Stop.Read → Rose (S.faults source.old) (S.faults source.new) }
    ensures not_write { result ≡ Err Stop.Write → ⊥ }
{
    let mut text = Vec::new(alloc);
    'reading: loop {
        match lines.next(source) {
            Ok(true) => {}
            Ok(false) => return Ok(text),
            Err(fault) => return Err(Stop::from(fault)),
        }
        if is_separator(lines.line()) {
            return Ok(text);
        }
        match keep_line(&mut text, lines.line(), lines.fed()) {
            Ok(()) => {}
            Err(_) => return Err(Stop::Memory),
        }
        if !lines.fed() {
            return Ok(text);
        }
    }
}

/// Puts a line to the end of the text, with its line feed if one ended it.
pub(crate) fn keep_line(text: &mut Vec<u8>, line: &[u8], fed: bool) -> Result<(), NoMemory>
    ensures { OnOk result (text.new.items ≡ text.old.items ++ line_text line.now fed) }
{
    text.extend_from_slice(line)?;
    if fed {
        text.push(b'\n')?;
    }
    Ok(())
}
