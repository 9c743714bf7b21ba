//! What is done with the text of a program.

ghost use Rattle.std.specs.Prelude.{◌≡◌, ◌≤◌, ◌+◌, ◌<◌, ◌^◌, length};
ghost use Rattle.pst_io.specs.Causes.{Rose};
ghost use Rattle.pst_io.specs.Input.{bytes_read};
ghost use Rattle.pst_io.specs.Lines.{IsOpen};
ghost use Rattle.pst_cli_serving.specs.Serving.{Refuses, ServesScript, Prints};
ghost use Rattle.pst_cli_scripts.specs.Sessions.{HasTaken};
ghost use Rattle.pst_cli_scripts.specs.Reading.{IsNear};

use crate::stopped::status_of;
use pst_cli_scripts::{Session, answer_script, say};
use pst_cli_words::Status;
use pst_front::{Fault, NoProgram, Page, fault_text, page_of, program_of};
use pst_io::{Lines, Sink, Source};
use std::alloc::Global;

/// Writes the line of a fault as one piece. `Refused` where it was written whole; `WriteFault` where a write failed, after a
/// proper part of the line; `Memory` where nothing was written for want of memory.
pub fn refuse<K: Sink>(alloc: Global, sink: &mut K, fault: Fault) -> Status
    ensures refused { HasTaken K.taken sink.old sink.new (Refuses result fault) }
    ensures later { K.faults sink.old ≤ K.faults sink.new }
    ensures write { result ≡ Status.WriteFault → Rose (K.faults sink.old) (K.faults sink.new) }
{
    match fault_text(alloc, fault) {
        Err(_) => Status::Memory,
        Ok(text) => match say(sink, text.as_bytes()) {
            Ok(()) => Status::Refused,
            Err(stop) => status_of(stop),
        },
    }
}

/// Answers the script behind the program with a text of fewer than 4,294,967,295 bytes, by a session that is begun for it, or
/// writes the line of the text's fault. `Done` where the input was read to its end and all its lines were answered; else the
/// status says what stopped it, as for [`status_of`], and the lines before that are answered.
pub fn serve<X: Session, S: Source, K: Sink>(
    alloc: Global,
    text: Vec<u8>,
    held: &mut X::Held,
    lines: &mut Lines,
    source: &mut S,
    sink: &mut K,
) -> Status
    requires fresh { X.fresh held.old }
    requires short { length text.items + 1 < 2 ^ 32 }
    requires open { IsOpen lines.old (S.left source.old) }
    requires near { IsNear lines.old.input }
    requires within_old { bytes_read lines.old.input ≤ lines.old.input.most }
    ensures served { HasTaken K.taken sink.old sink.new (ServesScript result X.rules X.leaves X.breaks held.old held.new S.left lines.old source.old lines.new source.new text.items) }
    ensures within { bytes_read lines.new.input ≤ lines.new.input.most }
    ensures limit { lines.new.input.most ≡ lines.old.input.most }
    ensures later { S.faults source.old ≤ S.faults source.new }
    ensures sink_later { K.faults sink.old ≤ K.faults sink.new }
    ensures read { result ≡ Status.ReadFault → Rose (S.faults source.old) (S.faults source.new) }
    ensures write { result ≡ Status.WriteFault → Rose (K.faults sink.old) (K.faults sink.new) }
{
    match program_of(alloc, text) {
        Err(NoProgram::Memory) => Status::Memory,
        Err(NoProgram::Fault(fault)) => refuse(alloc, sink, fault),
        Ok(program) => match X::begin(alloc, program, held) {
            Err(_) => Status::Memory,
            Ok(mut session) => {
                match answer_script(alloc, &mut session, held, lines, source, sink) {
                    Ok(()) => Status::Done,
                    Err(stop) => status_of(stop),
                }
            }
        },
    }
}

/// Writes a page of the program with a text of fewer than 4,294,967,295 bytes as one piece, or the line of the text's fault.
/// Nothing is read. `WriteFault` where a write failed, after a proper part of the piece; `Memory` where nothing was written for
/// want of memory.
pub fn print<K: Sink>(alloc: Global, page: Page, text: Vec<u8>, sink: &mut K) -> Status
    requires { length text.items + 1 < 2 ^ 32 }
    ensures printed { HasTaken K.taken sink.old sink.new (Prints result page text.items) }
    ensures later { K.faults sink.old ≤ K.faults sink.new }
    ensures write { result ≡ Status.WriteFault → Rose (K.faults sink.old) (K.faults sink.new) }
{
    match page_of(alloc, page, text) {
        Err(NoProgram::Memory) => Status::Memory,
        Err(NoProgram::Fault(fault)) => refuse(alloc, sink, fault),
        Ok(printed) => match say(sink, printed.as_slice()) {
            Ok(()) => Status::Done,
            Err(stop) => status_of(stop),
        },
    }
}
