//! An image is taken from the front of an input, and the script behind it is answered line by line.

ghost use Rattle.std.specs.Prelude.{◌≡◌, ◌≤◌, [], None};
ghost use Rattle.pst_io.specs.Causes.{Rose};
ghost use Rattle.pst_io.specs.Input.{bytes_read};
ghost use Rattle.pst_io.specs.Lines.{IsOpen};
ghost use Rattle.pst_program.specs.View.{routines_of};
ghost use Rattle.pst_program.specs.Typed.{IsTyped};
ghost use Rattle.pst_store.specs.Whole.{queue_in};
ghost use Rattle.pst_cli_scripts.specs.Reading.{IsNear};
ghost use Rattle.pst_cli_scripts.specs.Sessions.{HasTaken};
ghost use Rattle.pst_cli_serving.specs.Rows.{HasRow};
ghost use Rattle.pst_image_unpack.specs.Unpacked.{IsTaken};
ghost use Rattle.pst_cli_images.specs.Resuming.{resumed_in};
ghost use Rattle.pst_cli_serve.specs.Serving.{ServesBehind, ServeRow, ServesFrom};

use crate::script::serve_script;
use pst_cli_images::refuse_image;
use pst_cli_scripts::Stop;
use pst_cli_serving::{Running, status_of};
use pst_cli_words::Status;
use pst_image_front::read_front;
use pst_image_unpack::{ImageFault, Unpacked, unpack};
use pst_io::{Lines, MOST_SERVED, Sink, Source};
use pst_order::Walked;
use pst_store::StoreOf;
use pst_store_arena::Listed;
use std::alloc::Global;

/// Answers the script behind the image that was taken from these bytes. The bytes go, and the store becomes that of the image, as soon as
/// there is a session over it.
fn go_on<S: Source, K: Sink, O: Walked + Drop, N: Listed>(
    alloc: Global,
    unpacked: Unpacked<O, N>,
    bytes: Vec<u8>,
    lines: &mut Lines,
    source: &mut S,
    sink: &mut K,
    store: &mut StoreOf<O, N>,
) -> Status
    requires taken { IsTaken unpacked.program unpacked.text unpacked.store unpacked.next_run unpacked.budget unpacked.length bytes.items }
    requires typed { IsTyped (routines_of unpacked.program) }
    requires rested { queue_in unpacked.store ≡ [] }
    requires open { IsOpen lines.old (S.left source.old) }
    requires near { IsNear lines.old.input }
    requires within_old { bytes_read lines.old.input ≤ lines.old.input.most }
    ensures served { HasTaken K.taken sink.old sink.new (ServesBehind result (resumed_in store.old store.new) bytes.items lines.old.input (S.left source.old) lines.new.input (S.left source.new)) }
    ensures within { bytes_read lines.new.input ≤ lines.new.input.most }
    ensures limit { lines.new.input.most ≡ lines.old.input.most }
    ensures later { S.faults source.old ≤ S.faults source.new }
    ensures sink_later { K.faults sink.old ≤ K.faults sink.new }
    ensures read { result ≡ Status.ReadFault → Rose (S.faults source.old) (S.faults source.new) }
    ensures write { result ≡ Status.WriteFault → Rose (K.faults sink.old) (K.faults sink.new) }
    ensures not_usage { result ≡ Status.Usage → ⊥ }
{
    let Unpacked {
        program,
        text: _,
        store: taken,
        next_run,
        budget,
        length: _,
    } = unpacked;
    taken.whole();
    let Ok(mut session) = Running::over(alloc, program, &taken, next_run, budget) else {
        return Status::Memory;
    };
    *store = taken;
    drop(bytes);
    match serve_script(alloc, &mut session, store, lines, source, sink) {
        Ok(()) => Status::Done,
        Err(stop) => status_of(stop),
    }
}

/// Answers the script behind the image whose bytes were read, or writes the line of the first rule that fails.
fn serve_from<S: Source, K: Sink, O: Walked + Drop, N: Listed>(
    alloc: Global,
    bytes: Vec<u8>,
    lines: &mut Lines,
    source: &mut S,
    sink: &mut K,
    store: &mut StoreOf<O, N>,
) -> Status
    requires open { IsOpen lines.old (S.left source.old) }
    requires near { IsNear lines.old.input }
    requires within_old { bytes_read lines.old.input ≤ lines.old.input.most }
    ensures served { HasTaken K.taken sink.old sink.new (ServesFrom result (resumed_in store.old store.new) bytes.items lines.old.input (S.left source.old) lines.new.input (S.left source.new)) }
    ensures within { bytes_read lines.new.input ≤ lines.new.input.most }
    ensures limit { lines.new.input.most ≡ lines.old.input.most }
    ensures later { S.faults source.old ≤ S.faults source.new }
    ensures sink_later { K.faults sink.old ≤ K.faults sink.new }
    ensures read { result ≡ Status.ReadFault → Rose (S.faults source.old) (S.faults source.new) }
    ensures write { result ≡ Status.WriteFault → Rose (K.faults sink.old) (K.faults sink.new) }
    ensures not_usage { result ≡ Status.Usage → ⊥ }
{
    match unpack(alloc, bytes.as_slice()) {
        Err(ImageFault::Memory) => Status::Memory,
        Err(ImageFault::Bad(rule)) => refuse_image(alloc, sink, rule),
        Ok(unpacked) => go_on(alloc, unpacked, bytes, lines, source, sink, store),
    }
}

/// Answers the script of an input that is an image followed directly by a script. The image is read as far as its sizes tell, and less than
/// one read beyond; then it is judged, and a store is made of it; then each line of the script is carried out and answered before the next
/// one is waited for: a question about the versions, which changes nothing, or else a command as for the word `run`, with the image as the
/// opening. Each reply is written as one piece. Of an image of which a rule fails, the line `refused image RULE` is written alone, with the
/// number of the first one that does. The store is handed in empty, and is as it was until the image is accepted.
///
/// `Done` where the input was read to its end and all lines were answered; `Refused` where a rule of the image fails, and its line was
/// written; `TooLong` where the input has more than 2^62 bytes; else a read or write failed or there was no memory, and the lines before
/// are answered.
pub fn serve_input<S: Source, K: Sink, O: Walked + Drop, N: Listed>(
    alloc: Global,
    source: &mut S,
    sink: &mut K,
    store: &mut StoreOf<O, N>,
) -> Status
    requires empty { store.old ≡ None }
    ensures served { HasRow S.left source.old source.new K.taken sink.old sink.new (ServeRow result (resumed_in store.old store.new)) }
    ensures read { result ≡ Status.ReadFault → Rose (S.faults source.old) (S.faults source.new) }
    ensures write { result ≡ Status.WriteFault → Rose (K.faults sink.old) (K.faults sink.new) }
    ensures not_usage { result ≡ Status.Usage → ⊥ }
    ensures later { (S.faults source.old ≤ S.faults source.new) × (K.faults sink.old ≤ K.faults sink.new) }
{
    let mut lines = Lines::up_to(alloc, MOST_SERVED);
    let mut bytes = Vec::new(alloc);
    match read_front(&mut lines, source, &mut bytes) {
        Err(fault) => status_of(Stop::from(fault)),
        Ok(()) => serve_from(alloc, bytes, &mut lines, source, sink, store),
    }
}
