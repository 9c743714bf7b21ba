//! The script: each line is answered before the next one is read.

ghost use Rattle.std.specs.Prelude.{◌≡◌, ◌≤◌, Err};
ghost use Rattle.pst_io.specs.Causes.{Rose};
ghost use Rattle.pst_io.specs.Input.{bytes_read};
ghost use Rattle.pst_io.specs.Lines.{IsOpen};
ghost use Rattle.pst_cli_scripts.specs.Sessions.{StandForSome, AnswersRest};
ghost use Rattle.pst_cli_scripts.specs.Reading.{IsNear};

use crate::answer::answer_line;
use crate::session::Session;
use crate::stop::Stop;
use pst_io::{Lines, Sink, Source};
use std::alloc::Global;

/// Answers the lines that are left.
///
/// # Errors
/// Where a read or a write failed, the input is too long, or there was no memory: the lines before are answered.
pub fn answer_script<X: Session, S: Source, K: Sink>(
    alloc: Global,
    session: &mut X,
    held: &mut X::Held,
    lines: &mut Lines,
    source: &mut S,
    sink: &mut K,
) -> Result<(), Stop>
    requires stands { StandForSome X.stands session.old held.old }
    requires open { IsOpen lines.old (S.left source.old) }
    requires near { IsNear lines.old.input }

    ensures answered { AnswersRest X.rules X.stands X.leaves X.breaks session.old held.old held.new result S.left lines.old source.old lines.new source.new K.taken sink.old sink.new }
    ensures within { bytes_read lines.new.input ≤ lines.new.input.most }
    ensures limit { lines.new.input.most ≡ lines.old.input.most }

    ensures later { S.faults source.old ≤ S.faults source.new }
    ensures sink_later { K.faults sink.old ≤ K.faults sink.new }
    ensures read { result ≡ Err Stop.Read → Rose (S.faults source.old) (S.faults source.new) }
    ensures write { result ≡ Err Stop.Write → Rose (K.faults sink.old) (K.faults sink.new) }
{
    let mut answer = Vec::new(alloc);
    'answering: loop {
        session.known(held);
        match lines.next(source) {
            Ok(true) => {}
            Ok(false) => return Ok(()),
            Err(fault) => return Err(Stop::from(fault)),
        }
        match answer_line(alloc, session, held, sink, lines.line(), &mut answer) {
            Ok(()) => {}
            Err(stop) => return Err(stop),
        }
    }
}
