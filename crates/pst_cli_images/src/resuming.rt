//! An image is taken, and the script behind it is answered.

ghost use Rattle.std.specs.Prelude.{◌≡◌, ◌≤◌, [], None, IfOk, string_bytes};
ghost use Rattle.pst_io.specs.Causes.{Rose};
ghost use Rattle.pst_program.specs.View.{routines_of};
ghost use Rattle.pst_program.specs.Typed.{IsTyped};
ghost use Rattle.pst_store.specs.Whole.{queue_in};
ghost use Rattle.pst_image_unpack.specs.Unpacked.{IsTaken};
ghost use Rattle.pst_cli_scripts.specs.Sessions.{HasTaken};
ghost use Rattle.pst_cli_serving.specs.Rows.{HasRow};
ghost use Rattle.pst_cli_images.specs.Resuming.{Refuses, Resumes, ResumeRow, refusal_text, resumed_in};

use pst_base::NoMemory;
use pst_cli_scripts::{answer_text, read_all, say};
use pst_cli_serving::{Running, status_of};
use pst_cli_words::Status;
use pst_image_rules::Rule;
use pst_image_unpack::{ImageFault, Unpacked, unpack};
use pst_io::{Lines, Sink, Source};
use pst_order::Walked;
use pst_store::StoreOf;
use pst_store_arena::Listed;
use std::alloc::Global;

/// The line that an image is answered by of which a rule fails.
fn refusal_text(alloc: Global, rule: Rule) -> Result<String, NoMemory>
    ensures { IfOk result (λ text. string_bytes text ≡ refusal_text rule) }
{
    let number = rule.number();
    format!(in alloc; "refused image {number}\n")
}

/// Writes the line of a rule that fails, as one piece. `Refused` where it was written whole; `WriteFault` where a write failed, after a
/// proper part of the line; `Memory` where nothing was written for want of memory.
pub fn refuse_image<K: Sink>(alloc: Global, sink: &mut K, rule: Rule) -> Status
    ensures refused { HasTaken K.taken sink.old sink.new (Refuses result rule) }
    ensures later { K.faults sink.old ≤ K.faults sink.new }
    ensures write { result ≡ Status.WriteFault → Rose (K.faults sink.old) (K.faults sink.new) }
{
    match refusal_text(alloc, rule) {
        Err(_) => Status::Memory,
        Ok(text) => match say(sink, text.as_bytes()) {
            Ok(()) => Status::Refused,
            Err(stop) => status_of(stop),
        },
    }
}

/// Answers the script behind the image that was taken from the front of the bytes. The store becomes that of the image as soon as there is
/// a session over it.
fn go_on<K: Sink, O: Walked + Drop, N: Listed>(
    alloc: Global,
    unpacked: Unpacked<O, N>,
    bytes: &[u8],
    sink: &mut K,
    store: &mut StoreOf<O, N>,
) -> Status
    requires taken { IsTaken unpacked.program unpacked.text unpacked.store unpacked.next_run unpacked.budget unpacked.length bytes.now }
    requires typed { IsTyped (routines_of unpacked.program) }
    requires rested { queue_in unpacked.store ≡ [] }
    ensures resumed { HasTaken K.taken sink.old sink.new (Resumes result (resumed_in store.old store.new) bytes.now) }
    ensures later { K.faults sink.old ≤ K.faults sink.new }
    ensures write { result ≡ Status.WriteFault → Rose (K.faults sink.old) (K.faults sink.new) }
{
    let Unpacked {
        program,
        text: _,
        store: taken,
        next_run,
        budget,
        length,
    } = unpacked;
    taken.whole();
    let Ok(mut session) = Running::over(alloc, program, &taken, next_run, budget) else {
        return Status::Memory;
    };
    *store = taken;
    match answer_text(alloc, &mut session, store, &bytes[length..], sink) {
        Ok(()) => Status::Done,
        Err(stop) => status_of(stop),
    }
}

/// Answers the script behind the image at the front of the bytes, or writes the line of the first rule that fails.
fn resume_bytes<K: Sink, O: Walked + Drop, N: Listed>(
    alloc: Global,
    bytes: &[u8],
    sink: &mut K,
    store: &mut StoreOf<O, N>,
) -> Status
    ensures resumed { HasTaken K.taken sink.old sink.new (Resumes result (resumed_in store.old store.new) bytes.now) }
    ensures later { K.faults sink.old ≤ K.faults sink.new }
    ensures write { result ≡ Status.WriteFault → Rose (K.faults sink.old) (K.faults sink.new) }
{
    match unpack(alloc, bytes) {
        Err(ImageFault::Memory) => Status::Memory,
        Err(ImageFault::Bad(rule)) => refuse_image(alloc, sink, rule),
        Ok(unpacked) => go_on(alloc, unpacked, bytes, sink, store),
    }
}

/// Answers the script of an input that is an image followed directly by a script. The input is read to its end first; then the image is
/// judged, and a store is made of it; then each line of the script is carried out and answered as for the word `run`, with the image as
/// the opening, and each reply is written as one piece. Of an image of which a rule fails, the line `refused image RULE` is written
/// alone, with the number of the first one that does. The store is handed in empty, and is as it was until the image is accepted.
///
/// `Done` where all lines were answered; `Refused` where a rule of the image fails, and its line was written; `TooLong` where the input has
/// more than 67,108,864 bytes; else a read or write failed or there was no memory.
pub fn resume_input<S: Source, K: Sink, O: Walked + Drop, N: Listed>(
    alloc: Global,
    source: &mut S,
    sink: &mut K,
    store: &mut StoreOf<O, N>,
) -> Status
    requires empty { store.old ≡ None }
    ensures resumed { HasRow S.left source.old source.new K.taken sink.old sink.new (ResumeRow result (resumed_in store.old store.new)) }
    ensures read { result ≡ Status.ReadFault → Rose (S.faults source.old) (S.faults source.new) }
    ensures write { result ≡ Status.WriteFault → Rose (K.faults sink.old) (K.faults sink.new) }
    ensures not_usage { result ≡ Status.Usage → ⊥ }
    ensures later { (S.faults source.old ≤ S.faults source.new) × (K.faults sink.old ≤ K.faults sink.new) }
{
    let mut lines = Lines::new(alloc);
    let bytes = match read_all(alloc, &mut lines, source) {
        Err(stop) => return status_of(stop),
        Ok(bytes) => bytes,
    };
    drop(lines);
    resume_bytes(alloc, bytes.as_slice(), sink, store)
}
