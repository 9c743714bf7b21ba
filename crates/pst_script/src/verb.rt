//! The first words of commands.
ghost use Rattle.std.specs.Prelude.{◌≡◌};
ghost use Rattle.pst_script.specs.Commands.{verb_of};

/// The first word of a command.
#[derive(Clone, Copy, PartialEq, Eq)]
pub enum Verb {
    Run,
    Query,
    Open,
    Call,
    Step,
    Close,
    Drop,
    Budget,
    Versions,
    Stats,
}

/// The verb that the word is.
pub(crate) fn find_verb(word: &[u8]) -> Option<Verb>
    ensures { result ≡ verb_of word.now }
{
    if word == b"run".as_slice() {
        Some(Verb::Run)
    } else if word == b"query".as_slice() {
        Some(Verb::Query)
    } else if word == b"open".as_slice() {
        Some(Verb::Open)
    } else if word == b"call".as_slice() {
        Some(Verb::Call)
    } else if word == b"step".as_slice() {
        Some(Verb::Step)
    } else if word == b"close".as_slice() {
        Some(Verb::Close)
    } else if word == b"drop".as_slice() {
        Some(Verb::Drop)
    } else if word == b"budget".as_slice() {
        Some(Verb::Budget)
    } else if word == b"versions".as_slice() {
        Some(Verb::Versions)
    } else if word == b"stats".as_slice() {
        Some(Verb::Stats)
    } else {
        None
    }
}
