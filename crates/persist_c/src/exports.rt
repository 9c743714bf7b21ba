//! The functions that C calls.

ghost use Rattle.std.specs.Prelude.{◌≡◌, ◌⊎◌, [], None, Some, IfSome, IsSomeAnd, IsOk};
ghost use Rattle.pst_script.specs.declared.command.Command.TheVariants as command;
ghost use Rattle.pst_cli_words.specs.declared.job.Question.TheVariants as question;
ghost use Rattle.persist_live.specs.declared.live.Live.{Live};
ghost use Rattle.persist_live.specs.Standing.{StandsForSome, printed_in};
ghost use Rattle.persist_live.specs.Opening.{Opens, Resumes};
ghost use Rattle.persist_c.specs.Calls.{AnswersCall, AnswersLine, Asks, Images, IsCopied};

use crate::copy::copy_out;
use crate::handle::Handle;
use crate::summary::{Summary, summary_of};
use persist_live::Live;
use pst_base::{NoMemory, VersionNo};
use pst_front::{Fault, NoProgram, fault_text};
use pst_image_unpack::ImageFault;
use std::alloc::Global;

/// What was asked for is done.
const DONE: i32 = 0;

/// The program or the image is refused, or there is no image.
const REFUSED: i32 = 4;

/// The text is too long.
const TOO_LONG: i32 = 5;

/// There was no memory.
const NO_MEMORY: i32 = 6;

/// The handle holds no session.
const CLOSED: i32 = 8;

/// Puts a session into a handle that holds none.
fn hold(alloc: Global, h: &mut Handle, live: Live) -> i32
    requires { h.old.session ≡ None }
    ensures done { result ≡ DONE → h.new.session ≡ Some live }
    ensures held { (h.new.session ≡ Some live) ⊎ (h.new.session ≡ None) }
{
    match Box::new(alloc, live) {
        Err(_) => NO_MEMORY,
        Ok(live) => {
            h.put(live);
            DONE
        }
    }
}

/// Copies the line of a fault, as much as there is room for, and tells how much that is. Whether there was memory for it.
fn tell_fault(alloc: Global, fault: Fault, out: &mut [u8], length: &mut usize) -> bool {
    match fault_text(alloc, fault) {
        Err(_) => false,
        Ok(text) => {
            *length = copy_out(text.as_bytes(), 0, out);
            true
        }
    }
}

/// Opens a session of the program with this text. One that the handle held is let go. Where the text is refused, the line of its fault is copied.
#[unsafe(no_mangle)]
pub extern "C" fn persist_open(
    alloc: Global,
    h: &mut Handle,
    text: &[u8],
    fault: &mut [u8],
    length: &mut usize,
) -> i32
    ensures stands { IfSome h.new.session StandsForSome }
    ensures opened { result ≡ DONE → IsSomeAnd h.new.session (Opens text.now) }
{
    drop(h.take(alloc));
    if u32::MAX as usize <= text.len() {
        return TOO_LONG;
    }
    let Ok(text) = Vec::from_slice(alloc, text) else {
        return NO_MEMORY;
    };
    match Live::open(alloc, text) {
        Err(NoProgram::Memory) => NO_MEMORY,
        Err(NoProgram::Fault(why)) => {
            if tell_fault(alloc, why, fault, length) {
                REFUSED
            } else {
                NO_MEMORY
            }
        }
        Ok(live) => hold(alloc, h, live),
    }
}

/// Opens a session that goes on from the image at the front of the bytes, and says how many bytes the image has. One that the handle held is let
/// go. Where the image is refused, the number of the first rule that fails is told.
#[unsafe(no_mangle)]
pub extern "C" fn persist_resume(
    alloc: Global,
    h: &mut Handle,
    image: &[u8],
    used: &mut usize,
    rule: &mut u32,
) -> i32
    ensures stands { IfSome h.new.session StandsForSome }
    ensures resumed { result ≡ DONE → IsSomeAnd h.new.session (λ l. Resumes image.now l used.new) }
{
    drop(h.take(alloc));
    match Live::resume(alloc, image) {
        Err(ImageFault::Memory) => NO_MEMORY,
        Err(ImageFault::Bad(first)) => {
            *rule = first.number() as u32;
            REFUSED
        }
        Ok((live, length)) => {
            *used = length;
            hold(alloc, h, live)
        }
    }
}

/// Carries a line of a script out. The session then holds the reply, if the line has one, and its text.
#[unsafe(no_mangle)]
pub extern "C" fn persist_line(
    alloc: Global,
    h: &mut Handle,
    line: &[u8],
    reply: &mut Summary,
) -> i32
    requires { IfSome h.old.session StandsForSome }
    ensures stands { IfSome h.new.session StandsForSome }
    ensures answered { result ≡ DONE → (l : Live) → h.old.session ≡ Some l → IsSomeAnd h.new.session (AnswersLine line.now l reply.new) }
    ensures closed { h.old.session ≡ None → result ≡ CLOSED }
{
    match h.take(alloc) {
        None => CLOSED,
        Some(mut live) => match live.line(alloc, line) {
            Err(_) => NO_MEMORY,
            Ok(()) => {
                let length = if live.reply.is_some() {
                    live.said.len()
                } else {
                    0
                };
                *reply = summary_of(&live.reply, live.printed(), length);
                h.put(live);
                DONE
            }
        },
    }
}

/// Runs a procedure on a version with these arguments, as the line `run` with these words does. The session then holds the reply, without a text.
#[unsafe(no_mangle)]
pub extern "C" fn persist_run(
    alloc: Global,
    h: &mut Handle,
    version: u32,
    procedure: &[u8],
    arguments: &[i64],
    reply: &mut Summary,
) -> i32
    requires { IfSome h.old.session StandsForSome }
    ensures stands { IfSome h.new.session StandsForSome }
    ensures answered { result ≡ DONE → (l : Live) → h.old.session ≡ Some l → IsSomeAnd h.new.session (AnswersCall (command.Run (record { version = record { 0 = version }; procedure = procedure.now; arguments = arguments.now })) l reply.new) }
    ensures closed { h.old.session ≡ None → result ≡ CLOSED }
{
    match h.take(alloc) {
        None => CLOSED,
        Some(mut live) => match live.run(alloc, VersionNo(version), procedure, arguments) {
            Err(_) => NO_MEMORY,
            Ok(()) => {
                *reply = summary_of(&live.reply, live.printed(), 0);
                h.put(live);
                DONE
            }
        },
    }
}

/// Asks a query on a version with these arguments, as the line `query` with these words does. The session then holds the reply, without a text.
#[unsafe(no_mangle)]
pub extern "C" fn persist_query(
    alloc: Global,
    h: &mut Handle,
    version: u32,
    query: &[u8],
    arguments: &[i64],
    reply: &mut Summary,
) -> i32
    requires { IfSome h.old.session StandsForSome }
    ensures stands { IfSome h.new.session StandsForSome }
    ensures answered { result ≡ DONE → (l : Live) → h.old.session ≡ Some l → IsSomeAnd h.new.session (AnswersCall (command.Query (record { version = record { 0 = version }; procedure = query.now; arguments = arguments.now })) l reply.new) }
    ensures closed { h.old.session ≡ None → result ≡ CLOSED }
{
    match h.take(alloc) {
        None => CLOSED,
        Some(mut live) => match live.query(alloc, VersionNo(version), query, arguments) {
            Err(_) => NO_MEMORY,
            Ok(()) => {
                *reply = summary_of(&live.reply, live.printed(), 0);
                h.put(live);
                DONE
            }
        },
    }
}

/// Copies the bytes that the session made last, from a place on, as much as there is room for, and says how much that is.
#[unsafe(no_mangle)]
pub extern "C" fn persist_text(alloc: Global, h: &mut Handle, from: usize, out: &mut [u8]) -> usize
    ensures stays { h.new.session ≡ h.old.session }
    ensures copied { IfSome h.old.session (λ l. IsCopied l.said.items from result out.old out.new) }
{
    match h.take(alloc) {
        None => 0,
        Some(live) => {
            let n = copy_out(live.said.as_slice(), from, out);
            h.put(live);
            n
        }
    }
}

/// Copies the numbers that the last reply printed, from a place on, as much as there is room for, and says how much that is.
#[unsafe(no_mangle)]
pub extern "C" fn persist_printed(
    alloc: Global,
    h: &mut Handle,
    from: usize,
    out: &mut [i64],
) -> usize
    ensures stays { h.new.session ≡ h.old.session }
    ensures copied { IfSome h.old.session (λ l. IsCopied (printed_in l.reply) from result out.old out.new) }
{
    match h.take(alloc) {
        None => 0,
        Some(live) => {
            let n = copy_out(live.printed(), from, out);
            h.put(live);
            n
        }
    }
}

/// The status of a call that lacked memory, or did not.
fn status_of(of: Result<(), NoMemory>) -> i32
    ensures { result ≡ DONE → IsOk of }
{
    match of {
        Err(_) => NO_MEMORY,
        Ok(()) => DONE,
    }
}

/// The session then holds the dump of a version, as the word `dump` writes it.
#[unsafe(no_mangle)]
pub extern "C" fn persist_dump(
    alloc: Global,
    h: &mut Handle,
    version: u32,
    length: &mut usize,
) -> i32
    requires { IfSome h.old.session StandsForSome }
    ensures stands { IfSome h.new.session StandsForSome }
    ensures told { result ≡ DONE → (l : Live) → h.old.session ≡ Some l → IsSomeAnd h.new.session (Asks (question.Dump (record { 0 = version })) [] l length.new) }
    ensures closed { h.old.session ≡ None → result ≡ CLOSED }
{
    match h.take(alloc) {
        None => CLOSED,
        Some(mut live) => {
            let answer = live.dump(alloc, VersionNo(version));
            *length = live.said.len();
            h.put(live);
            status_of(answer)
        }
    }
}

/// The session then holds the line that says which version changed what a path reads, as the word `changed` writes it.
#[unsafe(no_mangle)]
pub extern "C" fn persist_changed(
    alloc: Global,
    h: &mut Handle,
    version: u32,
    path: &[u8],
    length: &mut usize,
) -> i32
    requires { IfSome h.old.session StandsForSome }
    ensures stands { IfSome h.new.session StandsForSome }
    ensures told { result ≡ DONE → (l : Live) → h.old.session ≡ Some l → IsSomeAnd h.new.session (Asks (question.Changed (record { 0 = version })) path.now l length.new) }
    ensures closed { h.old.session ≡ None → result ≡ CLOSED }
{
    match h.take(alloc) {
        None => CLOSED,
        Some(mut live) => {
            let answer = live.changed(alloc, VersionNo(version), path);
            *length = live.said.len();
            h.put(live);
            status_of(answer)
        }
    }
}

/// The session then holds the image of its versions. `REFUSED` where more was counted than an image can hold.
#[unsafe(no_mangle)]
pub extern "C" fn persist_image(alloc: Global, h: &mut Handle, length: &mut usize) -> i32
    requires { IfSome h.old.session StandsForSome }
    ensures stands { IfSome h.new.session StandsForSome }
    ensures image { result ≡ DONE → (l : Live) → h.old.session ≡ Some l → IsSomeAnd h.new.session (Images l length.new) }
    ensures closed { h.old.session ≡ None → result ≡ CLOSED }
{
    match h.take(alloc) {
        None => CLOSED,
        Some(mut live) => {
            let there = live.image(alloc);
            *length = live.said.len();
            h.put(live);
            match there {
                Err(_) => NO_MEMORY,
                Ok(true) => DONE,
                Ok(false) => REFUSED,
            }
        }
    }
}

/// Lets the session go, if there is one.
#[unsafe(no_mangle)]
pub extern "C" fn persist_close(alloc: Global, h: &mut Handle)
    ensures { h.new.session ≡ None }
{
    drop(h.take(alloc));
}
