//! The lines of a text that is in memory, each answered before the next one is looked at.

ghost use Rattle.std.specs.Prelude.{◌≡◌, ◌≤◌, ◌<◌, ◌∷◌, [], length, Err, MatchOption, IfSome};
ghost use Rattle.pst_io.specs.Causes.{Rose};
ghost use Rattle.pst_io.specs.Text.{lines_of};
ghost use Rattle.pst_cli_scripts.specs.Sessions.{StandForSome, OnEachHistory, AnswersLines};

use crate::answer::answer_line;
use crate::session::Session;
use crate::stop::Stop;
use memchr::memchr;
use pst_io::Sink;
use std::alloc::Global;

/// The first line of a text, and what is behind its line feed. None where the text is empty.
pub fn split_line(text: &[u8]) -> Option<(&[u8], &[u8])>
    ensures lines { MatchOption result (text.now ≡ []) (λ x. lines_of text.now ≡ x.0.now ∷ lines_of x.1.now) }
    ensures shorter { IfSome result (λ x. length x.1.now < length text.now) }
{
    if text.is_empty() {
        return None;
    }
    match memchr(b'\n', text) {
        None => Some((text, &[])),
        Some(feed) => Some((&text[..feed], &text[feed + 1..])),
    }
}

/// Answers the lines of a text. Nothing is read.
///
/// # Errors
/// Where a write failed or there was no memory: the lines before are answered.
pub fn answer_text<X: Session, K: Sink>(
    alloc: Global,
    session: &mut X,
    held: &mut X::Held,
    text: &[u8],
    sink: &mut K,
) -> Result<(), Stop>
    requires { StandForSome X.stands session.old held.old }

    ensures answered { OnEachHistory X.stands session.old held.old (AnswersLines X.rules X.leaves X.breaks held.new result (lines_of text.now) K.taken sink.old sink.new) }

    ensures sink_later { K.faults sink.old ≤ K.faults sink.new }
    ensures write { result ≡ Err Stop.Write → Rose (K.faults sink.old) (K.faults sink.new) }
{
    let mut rest = text;
    let mut answer = Vec::new(alloc);
    'answering: loop {
        session.known(held);
        match split_line(rest) {
            None => return Ok(()),
            Some((line, behind)) => {
                match answer_line(alloc, session, held, sink, line, &mut answer) {
                    Ok(()) => {}
                    Err(stop) => return Err(stop),
                }
                rest = behind;
            }
        }
    }
}
