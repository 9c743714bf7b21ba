//! The reply to a line of a script.

ghost use Rattle.std.specs.Prelude.{◌≡◌, ◌≤◌, Some, IfOk, IfErr, OnOk, OnErr, MatchResult};
ghost use Rattle.std.specs.Option.{option_map};
ghost use Rattle.pst_io.specs.Causes.{Rose};
ghost use Rattle.pst_script.specs.Commands.{reading};
ghost use Rattle.pst_script.specs.Texts.{text_of};
ghost use Rattle.pst_cli_scripts.specs.Script.{answer_of, line_reply, after_line};
ghost use Rattle.pst_cli_scripts.specs.Sessions.{HasTaken, StandForSome, OnEachHistory, BreaksBetween, StopsAtReply, HeldAtLine, IsSaid, made_piece};

use crate::session::Session;
use crate::stop::Stop;
use pst_base::NoMemory;
use pst_io::{Sink, put};
use pst_script::{LineFault, Refusal, Reply, put_reply, read_line};
use std::alloc::Global;

/// Writes a piece.
///
/// # Errors
/// Where a write failed: a proper part of the piece was taken.
pub fn say<K: Sink>(sink: &mut K, piece: &[u8]) -> Result<(), Stop>
    ensures said { HasTaken K.taken sink.old sink.new (λ out. MatchResult result (λ _. out ≡ piece.now) (λ stop. StopsAtReply stop (Some piece.now) out)) }
    ensures later { K.faults sink.old ≤ K.faults sink.new }
    ensures write { result ≡ Err Stop.Write → Rose (K.faults sink.old) (K.faults sink.new) }
{
    match put(sink, piece) {
        Ok(()) => Ok(()),
        Err(_) => Err(Stop::Write),
    }
}

/// The reply to a line on each history that the session stands for, which becomes the one after the line.
///
/// # Errors
/// Where there was no memory.
pub fn reply_to<X: Session>(
    alloc: Global,
    session: &mut X,
    held: &mut X::Held,
    line: &[u8],
) -> Result<Option<Reply>, NoMemory>
    requires { StandForSome X.stands session.old held.old }
    ensures about { X.about session.new ≡ X.about session.old }
    ensures reply { IfOk result (λ reply. OnEachHistory X.stands session.old held.old (λ m h. reply ≡ answer_of X.rules m h (reading line.now))) }
    ensures stands { OnOk result (OnEachHistory X.stands session.old held.old (λ m h. X.stands session.new held.new m (after_line X.rules line.now m h))) }
    ensures breaks { OnErr result (OnEachHistory X.stands session.old held.old (BreaksBetween X.breaks held.new (after_line X.rules line.now))) }
{
    match read_line(alloc, line) {
        Ok(None) => Ok(None),
        Ok(Some(command)) => Ok(Some(session.apply(alloc, held, &command)?)),
        Err(LineFault::Line) => Ok(Some(Reply::Refused(Refusal::Line))),
        Err(LineFault::Number) => Ok(Some(Reply::Refused(Refusal::Number))),
        Err(LineFault::Memory) => {
            session.known(held);
            Err(NoMemory)
        }
    }
}

/// Puts the text of a reply, if there is one, in the place of what a list holds, and answers whether there is one.
#[inline(always)]
fn put_text(text: &mut Vec<u8>, reply: Option<Reply>) -> Result<bool, NoMemory>
    ensures { IfOk result (λ there. made_piece there text.new.items ≡ option_map text_of reply) }
{
    match reply {
        None => Ok(false),
        Some(reply) => {
            put_reply(text, &reply)?;
            Ok(true)
        }
    }
}

/// Puts the piece that answers a line, if it has a reply, in the place of what a list holds, and answers whether it has one.
fn put_piece<X: Session>(
    alloc: Global,
    session: &mut X,
    held: &mut X::Held,
    line: &[u8],
    text: &mut Vec<u8>,
) -> Result<bool, NoMemory>
    requires { StandForSome X.stands session.old held.old }
    ensures about { X.about session.new ≡ X.about session.old }
    ensures piece { IfOk result (λ there. OnEachHistory X.stands session.old held.old (λ m h. made_piece there text.new.items ≡ line_reply X.rules line.now m h)) }
    ensures stands { OnOk result (OnEachHistory X.stands session.old held.old (λ m h. X.stands session.new held.new m (after_line X.rules line.now m h))) }
    ensures breaks { OnErr result (OnEachHistory X.stands session.old held.old (BreaksBetween X.breaks held.new (after_line X.rules line.now))) }
{
    let reply = reply_to(alloc, session, held, line)?;
    session.known(held);
    put_text(text, reply)
}

/// Answers a line: its command is carried out, and then the reply is written. Its text is made in a list that is used again.
///
/// # Errors
/// Where a write failed, and the command is carried out; or there was no memory, and it is carried out or not.
pub fn answer_line<X: Session, K: Sink>(
    alloc: Global,
    session: &mut X,
    held: &mut X::Held,
    sink: &mut K,
    line: &[u8],
    text: &mut Vec<u8>,
) -> Result<(), Stop>
    requires { StandForSome X.stands session.old held.old }
    ensures about { X.about session.new ≡ X.about session.old }
    ensures answered { OnEachHistory X.stands session.old held.old (λ m h. HasTaken K.taken sink.old sink.new (IsSaid result (line_reply X.rules line.now m h))) }
    ensures stands { OnOk result (OnEachHistory X.stands session.old held.old (λ m h. X.stands session.new held.new m (after_line X.rules line.now m h))) }
    ensures held { IfErr result (λ stop. OnEachHistory X.stands session.old held.old (HeldAtLine X.rules X.leaves X.breaks held.new stop line.now)) }
    ensures later { K.faults sink.old ≤ K.faults sink.new }
    ensures write { result ≡ Err Stop.Write → Rose (K.faults sink.old) (K.faults sink.new) }
{
    match put_piece(alloc, session, held, line, text) {
        Err(_) => Err(Stop::Memory),
        Ok(false) => Ok(()),
        Ok(true) => {
            session.known(held);
            say(sink, text.as_slice())
        }
    }
}
