//! An image is taken, the script behind it is carried out, and the image of what is left is written.

ghost use Rattle.std.specs.Prelude.{◌≡◌, ◌≤◌, ◌^◌, [], IfOk, MatchResult, None, true, false};
ghost use Rattle.pst_io.specs.Causes.{Rose};
ghost use Rattle.pst_io.specs.Text.{lines_of};
ghost use Rattle.pst_program.specs.Sound.{CountsWithin};
ghost use Rattle.pst_program.specs.View.{routines_of};
ghost use Rattle.pst_program.specs.Typed.{IsTyped};
ghost use Rattle.pst_store.specs.Whole.{queue_in};
ghost use Rattle.pst_cli_scripts.specs.Sessions.{HasTaken, StandForSome, OnEachHistory};
ghost use Rattle.pst_cli_serving.specs.Rows.{HasRow};
ghost use Rattle.pst_image_unpack.specs.Unpacked.{IsTaken};
ghost use Rattle.pst_cli_images.specs.Resuming.{resumed_in};
ghost use Rattle.pst_cli_images.specs.Repacking.{CarriesLines, RepackComes, RepackRow};
ghost use Rattle.pst_cli_images.specs.Left.{Lacks, Leaves, LeavesImage};

use crate::packing::image_of_session;
use crate::resuming::refuse_image;
use pst_base::{Counts, NoMemory, Text};
use pst_cli_scripts::{Session, Stop, reply_to, say, split_line};
use pst_cli_serving::{Running, status_of};
use pst_cli_words::Status;
use pst_image_rules::Rule;
use pst_image_unpack::{ImageFault, Unpacked, unpack};
use pst_io::{Lines, MOST_SERVED, Sink, Source};
use pst_order::Walked;
use pst_store::StoreOf;
use pst_store_arena::Listed;
use pst_versions::VersionedHeap;
use std::alloc::Global;

/// The most that an image can say was made or written.
const MOST_COUNTED: u64 = 1_125_899_906_842_624;

/// What is left behind an image.
#[derive(Drop)]
pub(crate) enum Left {
    /// The image of the store.
    Image(Text),
    /// A store that counted more than an image can hold.
    TooMuch,
}

/// Whether an image can hold these counts.
fn are_few(counts: Counts) -> bool
    ensures few { result ≡ true → CountsWithin counts (2 ^ 50) }
    ensures many { result ≡ false → CountsWithin counts (2 ^ 50) → ⊥ }
{
    counts.records <= MOST_COUNTED
        && counts.pointer_writes <= MOST_COUNTED
        && counts.value_writes <= MOST_COUNTED
}

/// Carries the lines of a text out. Their replies are not written.
///
/// # Errors
/// Where there was no memory: the lines before are carried out.
fn carry_text<X: Session>(
    alloc: Global,
    session: &mut X,
    held: &mut X::Held,
    text: &[u8],
) -> Result<(), NoMemory>
    requires stands { StandForSome X.stands session.old held.old }
    ensures carried { OnEachHistory X.stands session.old held.old (CarriesLines X.rules X.stands X.breaks session.new held.new result (lines_of text.now)) }
    ensures about { X.about session.new ≡ X.about session.old }
{
    let mut rest = text;
    'carrying: loop {
        match split_line(rest) {
            None => return Ok(()),
            Some((line, behind)) => {
                match reply_to(alloc, session, held, line) {
                    Ok(reply) => drop(reply),
                    Err(_) => return Err(NoMemory),
                }
                rest = behind;
            }
        }
    }
}

/// The image of the store that a session leaves, with a text, where its counts are few enough for one.
fn image_left<O: Walked + Drop, N: Listed>(
    alloc: Global,
    session: &Running<O, N>,
    store: &StoreOf<O, N>,
    text: &[u8],
) -> Result<Left, NoMemory>
    requires stands { StandForSome ⟦<Running<O, N> as Session>⟧.stands session.now store.now }
    ensures left { IfOk result (λ left. OnEachHistory ⟦<Running<O, N> as Session>⟧.stands session.now store.now (LeavesImage store.now text.now left)) }
{
    if are_few(store.counts()) {
        match image_of_session(alloc, session, store, text) {
            Ok(image) => Ok(Left::Image(image)),
            Err(_) => Err(NoMemory),
        }
    } else {
        Ok(Left::TooMuch)
    }
}

/// Carries the script behind an image out, and gives the image of the store that is left. The store becomes that of the image as soon as
/// there is a session over it.
fn left_behind<O: Walked + Drop, N: Listed>(
    alloc: Global,
    unpacked: Unpacked<O, N>,
    bytes: &[u8],
    store: &mut StoreOf<O, N>,
) -> Result<Left, NoMemory>
    requires taken { IsTaken unpacked.program unpacked.text unpacked.store unpacked.next_run unpacked.budget unpacked.length bytes.now }
    requires typed { IsTyped (routines_of unpacked.program) }
    requires rested { queue_in unpacked.store ≡ [] }
    ensures left { MatchResult result (λ left. Leaves (resumed_in store.old store.new) store.new left bytes.now) (λ _. Lacks (resumed_in store.old store.new) bytes.now) }
{
    let Unpacked {
        program,
        text,
        store: taken,
        next_run,
        budget,
        length,
    } = unpacked;
    taken.whole();
    let Ok(mut session) = Running::over(alloc, program, &taken, next_run, budget) else {
        return Err(NoMemory);
    };
    *store = taken;
    carry_text(alloc, &mut session, store, &bytes[length..])?;
    session.known(store);
    match image_left(alloc, &session, &*store, text.as_slice()) {
        Ok(left) => Ok(left),
        Err(_) => Err(NoMemory),
    }
}

/// Writes what the script behind the image that was taken leaves.
fn go_on<K: Sink, O: Walked + Drop, N: Listed>(
    alloc: Global,
    unpacked: Unpacked<O, N>,
    bytes: &[u8],
    sink: &mut K,
    store: &mut StoreOf<O, N>,
) -> Status
    requires taken { IsTaken unpacked.program unpacked.text unpacked.store unpacked.next_run unpacked.budget unpacked.length bytes.now }
    requires typed { IsTyped (routines_of unpacked.program) }
    requires rested { queue_in unpacked.store ≡ [] }
    ensures repacked { HasTaken K.taken sink.old sink.new (RepackComes store.new result (resumed_in store.old store.new) bytes.now) }
    ensures later { K.faults sink.old ≤ K.faults sink.new }
    ensures write { result ≡ Status.WriteFault → Rose (K.faults sink.old) (K.faults sink.new) }
{
    match left_behind(alloc, unpacked, bytes, store) {
        Err(_) => Status::Memory,
        Ok(Left::TooMuch) => refuse_image(alloc, sink, Rule::Ranges),
        Ok(Left::Image(image)) => match say(sink, image.as_slice()) {
            Ok(()) => Status::Done,
            Err(stop) => status_of(stop),
        },
    }
}

/// Writes what the script behind the image at the front of the bytes leaves, or the line of the first rule that fails.
fn repack_bytes<K: Sink, O: Walked + Drop, N: Listed>(
    alloc: Global,
    bytes: &[u8],
    sink: &mut K,
    store: &mut StoreOf<O, N>,
) -> Status
    ensures repacked { HasTaken K.taken sink.old sink.new (RepackComes store.new result (resumed_in store.old store.new) bytes.now) }
    ensures later { K.faults sink.old ≤ K.faults sink.new }
    ensures write { result ≡ Status.WriteFault → Rose (K.faults sink.old) (K.faults sink.new) }
{
    match unpack(alloc, bytes) {
        Err(ImageFault::Memory) => Status::Memory,
        Err(ImageFault::Bad(rule)) => refuse_image(alloc, sink, rule),
        Ok(unpacked) => go_on(alloc, unpacked, bytes, sink, store),
    }
}

/// Writes the image of the store that is left by the script of an input which is an image followed directly by a script. The input is read to
/// its end first; then the image is judged, and a store is made of it; then each line of the script is carried out as for the word `run`, with
/// the image as the opening, and no reply is written; then the image of the store is, as one piece, with the image's text. Open runs are not
/// part of it. Of an image of which a rule fails, the line `refused image RULE` is written alone, with the number of the first one that does;
/// the line `refused image 2` is written, too, where more was counted than 1,125,899,906,842,624 records, pointer writes or value writes, as
/// no image can say. The store is handed in empty, and is as it was until the image is accepted.
///
/// `Done` where the next image was written; `Refused` where a rule fails, and its line was written; `TooLong` where the input has more than
/// 2^62 bytes; else a read or write failed or there was no memory, and nothing or a part of the piece was written.
pub fn repack_input<S: Source, K: Sink, O: Walked + Drop, N: Listed>(
    alloc: Global,
    source: &mut S,
    sink: &mut K,
    store: &mut StoreOf<O, N>,
) -> Status
    requires empty { store.old ≡ None }
    ensures repacked { HasRow S.left source.old source.new K.taken sink.old sink.new (RepackRow result (resumed_in store.old store.new) store.new) }
    ensures read { result ≡ Status.ReadFault → Rose (S.faults source.old) (S.faults source.new) }
    ensures write { result ≡ Status.WriteFault → Rose (K.faults sink.old) (K.faults sink.new) }
    ensures not_usage { result ≡ Status.Usage → ⊥ }
    ensures later { (S.faults source.old ≤ S.faults source.new) × (K.faults sink.old ≤ K.faults sink.new) }
{
    let mut lines = Lines::up_to(alloc, MOST_SERVED);
    let mut bytes = Vec::new(alloc);
    match lines.hand(source, usize::MAX, &mut bytes) {
        Err(fault) => status_of(Stop::from(fault)),
        Ok(_) => {
            drop(lines);
            repack_bytes(alloc, bytes.as_slice(), sink, store)
        }
    }
}
