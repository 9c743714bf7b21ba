//! The script is carried out without its replies, and then the image of the store is written.

ghost use Rattle.std.specs.Prelude.{◌≡◌, ◌≤◌, ◌+◌, ◌<◌, ◌^◌, IfOk, None, Err, length};
ghost use Rattle.pst_io.specs.Causes.{Rose};
ghost use Rattle.pst_io.specs.Input.{bytes_read};
ghost use Rattle.pst_io.specs.Lines.{IsOpen};
ghost use Rattle.pst_program.specs.Sound.{CountsWithin};
ghost use Rattle.pst_program.specs.View.{routines_of};
ghost use Rattle.pst_program.specs.Typed.{IsTyped};
ghost use Rattle.pst_history.specs.Direct.{meaning_of};
ghost use Rattle.pst_cli_serving.specs.Rows.{HasRow};
ghost use Rattle.pst_cli_scripts.specs.Sessions.{HasTaken, OnEachHistory, StandForSome};
ghost use Rattle.pst_cli_scripts.specs.Reading.{IsNear};
ghost use Rattle.pst_cli_serving.specs.Held.{run_in};
ghost use Rattle.pst_store.specs.Whole.{state_in};
ghost use Rattle.pst_cli_images.specs.Packing.{ImagesScript, IsImage, PacksScript, PackRow};

use pst_base::{NoMemory, Text};
use pst_cli_questions::carry_script;
use pst_cli_scripts::{Session, Stop, read_text, say};
use pst_cli_serving::{Running, refuse, status_of};
use pst_cli_words::Status;
use pst_front::{NoProgram, canonical_program};
use pst_image_pack::pack;
use pst_io::{Lines, Sink, Source};
use pst_order::Walked;
use pst_program::Program;
use pst_store::StoreOf;
use pst_store_arena::Listed;
use std::alloc::Global;

/// The image of the store that a session leaves, with a text: it has the number of the session's next run and its budget.
///
/// # Errors
/// Where there is no memory for it.
pub fn image_of_session<O: Walked + Drop, N: Listed>(
    alloc: Global,
    session: &Running<O, N>,
    store: &StoreOf<O, N>,
    text: &[u8],
) -> Result<Text, NoMemory>
    requires stands { StandForSome ⟦<Running<O, N> as Session>⟧.stands session.now store.now }
    requires counts { CountsWithin (state_in store.now).counts (2 ^ 50) }
    ensures image { IfOk result (λ image. OnEachHistory ⟦<Running<O, N> as Session>⟧.stands session.now store.now (λ m h. IsImage store.now text.now m.shape h image)) }
{
    store.whole();
    pack(alloc, store, text, session.next_run(), session.budget())
}

/// Carries the script behind a program out, and gives the image of the store that it leaves, with a text.
fn image_of<S: Source, O: Walked + Drop, N: Listed>(
    alloc: Global,
    program: Program,
    text: &[u8],
    store: &mut StoreOf<O, N>,
    lines: &mut Lines,
    source: &mut S,
) -> Result<Text, Stop>
    requires typed { IsTyped (routines_of program) }
    requires empty { store.old ≡ None }
    requires open { IsOpen lines.old (S.left source.old) }
    requires near { IsNear lines.old.input }
    requires within_old { bytes_read lines.old.input ≤ lines.old.input.most }
    ensures found { ImagesScript store.old store.new (meaning_of program) text.now result S.left lines.old source.old lines.new source.new }
    ensures within { bytes_read lines.new.input ≤ lines.new.input.most }
    ensures limit { lines.new.input.most ≡ lines.old.input.most }
    ensures later { S.faults source.old ≤ S.faults source.new }
    ensures read { result ≡ Err Stop.Read → Rose (S.faults source.old) (S.faults source.new) }
    ensures not_write { result ≡ Err Stop.Write → ⊥ }
{
    let Ok(mut session) = Running::begin(alloc, program, store) else {
        return Err(Stop::Memory);
    };
    carry_script(alloc, &mut session, store, lines, source)?;
    session.known(store);
    match image_of_session(alloc, &session, &*store, text) {
        Ok(image) => Ok(image),
        Err(_) => Err(Stop::Memory),
    }
}

/// Carries the script behind a program out and writes the image of the store that it leaves, or writes the line of the program's
/// fault.
fn pack_text<S: Source, K: Sink, O: Walked + Drop, N: Listed>(
    alloc: Global,
    text: Vec<u8>,
    store: &mut StoreOf<O, N>,
    lines: &mut Lines,
    source: &mut S,
    sink: &mut K,
) -> Status
    requires empty { store.old ≡ None }
    requires short { length text.items + 1 < 2 ^ 32 }
    requires open { IsOpen lines.old (S.left source.old) }
    requires near { IsNear lines.old.input }
    requires within_old { bytes_read lines.old.input ≤ lines.old.input.most }
    ensures packed { HasTaken K.taken sink.old sink.new (PacksScript result store.old store.new S.left lines.old source.old lines.new source.new text.items) }
    ensures within { bytes_read lines.new.input ≤ lines.new.input.most }
    ensures limit { lines.new.input.most ≡ lines.old.input.most }
    ensures later { S.faults source.old ≤ S.faults source.new }
    ensures sink_later { K.faults sink.old ≤ K.faults sink.new }
    ensures read { result ≡ Status.ReadFault → Rose (S.faults source.old) (S.faults source.new) }
    ensures write { result ≡ Status.WriteFault → Rose (K.faults sink.old) (K.faults sink.new) }
{
    match canonical_program(alloc, text) {
        Err(NoProgram::Memory) => Status::Memory,
        Err(NoProgram::Fault(fault)) => refuse(alloc, sink, fault),
        Ok((canonical, program)) => {
            match image_of(alloc, program, canonical.as_slice(), store, lines, source) {
                Err(stop) => status_of(stop),
                Ok(image) => match say(sink, image.as_slice()) {
                    Ok(()) => Status::Done,
                    Err(stop) => status_of(stop),
                },
            }
        }
    }
}

/// Writes the image of the store that the script of an input leaves: the script is carried out over a store that is handed in
/// empty, as for the word `run`, no reply is written, and then the image is, as one piece, with the program's canonical text. Open
/// runs are not part of it.
///
/// `Done` where the input was read to its end and the image was written; `Refused` where the program has a fault, and its line
/// was written; `TooLong` where the input has more than 67,108,864 bytes; else a read or write failed or there was no memory.
pub fn pack_input<S: Source, K: Sink, O: Walked + Drop, N: Listed>(
    alloc: Global,
    source: &mut S,
    sink: &mut K,
    store: &mut StoreOf<O, N>,
) -> Status
    requires empty { store.old ≡ None }
    ensures packed { HasRow S.left source.old source.new K.taken sink.old sink.new (PackRow result (run_in store.old store.new) store.new) }
    ensures read { result ≡ Status.ReadFault → Rose (S.faults source.old) (S.faults source.new) }
    ensures write { result ≡ Status.WriteFault → Rose (K.faults sink.old) (K.faults sink.new) }
    ensures not_usage { result ≡ Status.Usage → ⊥ }
    ensures later { (S.faults source.old ≤ S.faults source.new) × (K.faults sink.old ≤ K.faults sink.new) }
{
    let mut lines = Lines::new(alloc);
    match read_text(alloc, &mut lines, source) {
        Err(stop) => status_of(stop),
        Ok(text) => pack_text(alloc, text, store, &mut lines, source, sink),
    }
}
