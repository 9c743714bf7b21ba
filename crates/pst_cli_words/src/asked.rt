//! The question that a line of a script asks.

ghost use Rattle.std.specs.Prelude.{◌≡◌, ◌∷◌, []};
ghost use Rattle.pst_cli_words.specs.Jobs.{task_of, version_number};
ghost use Rattle.pst_cli_words.specs.Asked.{asked_by, is_asked, question_in};

use crate::job::Question;
use pst_base::VersionNo;
use pst_questions::path_form;
use pst_script::{is_numeral, number, split_word};

/// A question in a line, with the path of a question [`Question::Changed`], and else with no bytes.
#[derive(Clone, Copy)]
pub struct Asked<'a> {
    pub question: Question,
    pub path: &'a [u8],
}

/// The version that a word names. None where it has more than 32 bits, and where the word is no numeral.
fn version_named(word: &[u8]) -> Option<VersionNo>
    ensures { result ≡ version_number word.now }
{
    if !is_numeral(word) {
        return None;
    }
    Some(VersionNo(number(word)?))
}

/// The question that two words ask.
fn asked_by_two<'a>(word: &[u8], version: &[u8]) -> Option<Asked<'a>>
    ensures { is_asked result ≡ asked_by [] (task_of (word.now ∷ version.now ∷ [])) }
{
    if word != b"dump".as_slice() {
        return None;
    }
    Some(Asked {
        question: Question::Dump(version_named(version)?),
        path: &[],
    })
}

/// The question that three words ask.
fn asked_by_three<'a>(word: &[u8], version: &[u8], path: &'a [u8]) -> Option<Asked<'a>>
    ensures { is_asked result ≡ asked_by path.now (task_of (word.now ∷ version.now ∷ path.now ∷ [])) }
{
    if word != b"changed".as_slice() || !path_form(path) {
        return None;
    }
    Some(Asked {
        question: Question::Changed(version_named(version)?),
        path,
    })
}

/// The question that a line asks, where its words are those that ask one in a call of the program: `dump` and a version, or `changed`, a
/// version and a path. None where they are no such words.
pub fn question_in(line: &[u8]) -> Option<Asked<'_>>
    ensures { is_asked result ≡ question_in line.now }
{
    let (word, rest) = split_word(line)?;
    let (version, behind) = split_word(rest)?;
    match split_word(behind) {
        None => asked_by_two(word, version),
        Some((path, end)) => match split_word(end) {
            None => asked_by_three(word, version, path),
            Some(_) => None,
        },
    }
}
