//! The script is carried out without its replies, and then the answer is written.

ghost use Rattle.std.specs.Prelude.{◌≡◌, ◌≤◌, ◌+◌, ◌<◌, ◌^◌, None, Err, length};
ghost use Rattle.pst_io.specs.Causes.{Rose};
ghost use Rattle.pst_io.specs.Input.{bytes_read};
ghost use Rattle.pst_io.specs.Lines.{IsOpen};
ghost use Rattle.pst_program.specs.View.{routines_of};
ghost use Rattle.pst_program.specs.Typed.{IsTyped};
ghost use Rattle.pst_cli_serving.specs.Rows.{HasRow};
ghost use Rattle.pst_cli_questions.specs.Asking.{CarriesRest, FindsInScript, AsksScript, AskRow};
ghost use Rattle.pst_cli_scripts.specs.Sessions.{HasTaken, StandForSome};
ghost use Rattle.pst_cli_scripts.specs.Reading.{IsNear};
ghost use Rattle.pst_cli_serving.specs.Held.{run_in};

use crate::answer::tell;
use pst_base::Text;
use pst_cli_scripts::{Session, Stop, read_text, reply_to, say};
use pst_cli_serving::{Running, refuse, status_of};
use pst_cli_words::{Question, Status};
use pst_front::{NoProgram, program_of};
use pst_io::{Lines, Sink, Source};
use pst_order::Order;
use pst_program::Program;
use pst_store::StoreOf;
use pst_store_arena::FatNodes;
use std::alloc::Global;

/// Carries the lines out that are left. Their replies are not written.
///
/// # Errors
/// Where a read failed, there was no memory, or the input is too long: the lines before are carried out.
pub fn carry_script<X: Session, S: Source>(
    alloc: Global,
    session: &mut X,
    held: &mut X::Held,
    lines: &mut Lines,
    source: &mut S,
) -> Result<(), Stop>
    requires stands { StandForSome X.stands session.old held.old }
    requires open { IsOpen lines.old (S.left source.old) }
    requires near { IsNear lines.old.input }
    ensures carried { CarriesRest X.rules X.stands X.leaves X.breaks session.old held.old session.new held.new result S.left lines.old source.old lines.new source.new }
    ensures about { X.about session.new ≡ X.about session.old }
    ensures within { bytes_read lines.new.input ≤ lines.new.input.most }
    ensures limit { lines.new.input.most ≡ lines.old.input.most }
    ensures later { S.faults source.old ≤ S.faults source.new }
    ensures read { result ≡ Err Stop.Read → Rose (S.faults source.old) (S.faults source.new) }
    ensures not_write { result ≡ Err Stop.Write → ⊥ }
{
    'carrying: loop {
        session.known(held);
        match lines.next(source) {
            Ok(true) => {}
            Ok(false) => return Ok(()),
            Err(fault) => return Err(Stop::from(fault)),
        }
        match reply_to(alloc, session, held, lines.line()) {
            Ok(reply) => drop(reply),
            Err(_) => return Err(Stop::Memory),
        }
    }
}

/// Carries the script behind a program out, and gives the answer to a question about its versions.
fn answer_to<S: Source, O: Order + Drop, N: FatNodes>(
    alloc: Global,
    program: Program,
    question: Question,
    path: &[u8],
    store: &mut StoreOf<O, N>,
    lines: &mut Lines,
    source: &mut S,
) -> Result<Text, Stop>
    requires typed { IsTyped (routines_of program) }
    requires empty { store.old ≡ None }
    requires open { IsOpen lines.old (S.left source.old) }
    requires near { IsNear lines.old.input }
    requires within_old { bytes_read lines.old.input ≤ lines.old.input.most }
    ensures found { FindsInScript store.old store.new program question path.now result S.left lines.old source.old lines.new source.new }
    ensures within { bytes_read lines.new.input ≤ lines.new.input.most }
    ensures limit { lines.new.input.most ≡ lines.old.input.most }
    ensures later { S.faults source.old ≤ S.faults source.new }
    ensures read { result ≡ Err Stop.Read → Rose (S.faults source.old) (S.faults source.new) }
    ensures not_write { result ≡ Err Stop.Write → ⊥ }
{
    let Ok(mut session) = Running::begin(alloc, program, store) else {
        return Err(Stop::Memory);
    };
    carry_script(alloc, &mut session, store, lines, source)?;
    session.known(store);
    match tell(alloc, &*store, session.program(), question, path) {
        Ok(text) => Ok(text),
        Err(_) => Err(Stop::Memory),
    }
}

/// Carries the script behind a program out and writes the answer to a question about its versions, or writes the line of the
/// program's fault.
fn inquire<S: Source, K: Sink, O: Order + Drop, N: FatNodes>(
    alloc: Global,
    text: Vec<u8>,
    question: Question,
    path: &[u8],
    store: &mut StoreOf<O, N>,
    lines: &mut Lines,
    source: &mut S,
    sink: &mut K,
) -> Status
    requires empty { store.old ≡ None }
    requires short { length text.items + 1 < 2 ^ 32 }
    requires open { IsOpen lines.old (S.left source.old) }
    requires near { IsNear lines.old.input }
    requires within_old { bytes_read lines.old.input ≤ lines.old.input.most }
    ensures asked { HasTaken K.taken sink.old sink.new (AsksScript result store.old store.new question path.now S.left lines.old source.old lines.new source.new text.items) }
    ensures within { bytes_read lines.new.input ≤ lines.new.input.most }
    ensures limit { lines.new.input.most ≡ lines.old.input.most }
    ensures later { S.faults source.old ≤ S.faults source.new }
    ensures sink_later { K.faults sink.old ≤ K.faults sink.new }
    ensures read { result ≡ Status.ReadFault → Rose (S.faults source.old) (S.faults source.new) }
    ensures write { result ≡ Status.WriteFault → Rose (K.faults sink.old) (K.faults sink.new) }
{
    match program_of(alloc, text) {
        Err(NoProgram::Memory) => Status::Memory,
        Err(NoProgram::Fault(fault)) => refuse(alloc, sink, fault),
        Ok(program) => {
            match answer_to(alloc, program, question, path, store, lines, source) {
                Err(stop) => status_of(stop),
                Ok(answer) => match say(sink, answer.as_slice()) {
                    Ok(()) => Status::Done,
                    Err(stop) => status_of(stop),
                },
            }
        }
    }
}

/// Answers a question about the script of an input: the script is carried out over a store that is handed in empty, as for the
/// word `run`, no reply is written, and then the answer is, as one piece. `path` is that of a question [`Question::Changed`], and
/// else of no meaning.
///
/// `Done` where the input was read to its end and the answer was written; `Refused` where the program has a fault, and its line
/// was written; `TooLong` where the input has more than 67,108,864 bytes; else a read or write failed or there was no memory.
pub fn ask<S: Source, K: Sink, O: Order + Drop, N: FatNodes>(
    alloc: Global,
    question: Question,
    path: &[u8],
    source: &mut S,
    sink: &mut K,
    store: &mut StoreOf<O, N>,
) -> Status
    requires empty { store.old ≡ None }
    ensures asked { HasRow S.left source.old source.new K.taken sink.old sink.new (AskRow result (run_in store.old store.new) question path.now) }
    ensures read { result ≡ Status.ReadFault → Rose (S.faults source.old) (S.faults source.new) }
    ensures write { result ≡ Status.WriteFault → Rose (K.faults sink.old) (K.faults sink.new) }
    ensures not_usage { result ≡ Status.Usage → ⊥ }
    ensures later { (S.faults source.old ≤ S.faults source.new) × (K.faults sink.old ≤ K.faults sink.new) }
{
    let mut lines = Lines::new(alloc);
    match read_text(alloc, &mut lines, source) {
        Err(stop) => status_of(stop),
        Ok(text) => inquire(alloc, text, question, path, store, &mut lines, source, sink),
    }
}
