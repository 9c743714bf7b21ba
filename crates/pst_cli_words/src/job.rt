//! What the words ask for.

ghost use Rattle.std.specs.Prelude.{◌≡◌, map, string_bytes, true};
ghost use Rattle.pst_cli_words.specs.Jobs.{long_number, version_number, job_named, task_of, path_in};

use pst_base::VersionNo;
use pst_questions::path_form;
use pst_script::is_numeral;

/// What the program can do.
#[derive(Clone, Copy, PartialEq, Eq)]
pub enum Job {
    /// To answer the script.
    Run,
    /// To answer the script by executing each version's runs again from the first.
    Replay,
    /// To answer the script by a store in which only the newest version is written.
    Line,
    /// To print the canonical text of the program.
    Check,
    /// To print the listing of its code.
    Code,
}

/// A question about the versions that a script makes.
#[derive(Clone, Copy, PartialEq, Eq)]
pub enum Question {
    /// What a version holds.
    Dump(VersionNo),
    /// Which version, on the way from this one to version 0, changed what a path reads. The path is the third word.
    Changed(VersionNo),
}

/// What the words ask for.
#[derive(Clone, Copy, PartialEq, Eq)]
pub enum Task {
    /// To do a job with the input.
    Input(Job),
    /// To run the script of the bench with this number, and to print what came of it. No input is read.
    Bench(u64),
    /// To carry the script out, and to answer a question about its versions in place of its lines.
    Ask(Question),
    /// To carry the script out, and to write the image of the store that it leaves in place of its replies.
    Pack,
    /// To answer the script behind an image, with the image as the opening. The input is that image and the script.
    Resume,
    /// The same, where each line is answered before the next one is waited for, and may be a question about the versions.
    Serve,
    /// To carry the script behind an image out, and to write the image of the store that it leaves in place of its replies.
    Repack,
}

/// The job that a word names.
fn job_named(word: &[u8]) -> Option<Job>
    ensures { result ≡ job_named word.now }
{
    if word == b"run".as_slice() {
        Some(Job::Run)
    } else if word == b"replay".as_slice() {
        Some(Job::Replay)
    } else if word == b"line".as_slice() {
        Some(Job::Line)
    } else if word == b"check".as_slice() {
        Some(Job::Check)
    } else if word == b"code".as_slice() {
        Some(Job::Code)
    } else {
        None
    }
}

/// The number that a numeral writes. None where it has more than 64 bits, and where the word is no numeral.
fn long_number(word: &str) -> Option<u64>
    ensures { result ≡ long_number word.now }
{
    if !is_numeral(word.as_bytes()) {
        return None;
    }
    word.parse().ok()
}

/// The version that a numeral names. None where it has more than 32 bits, and where the word is no numeral.
fn version_number(word: &str) -> Option<VersionNo>
    ensures { result ≡ version_number word.now }
{
    let number = long_number(word)?;
    Some(VersionNo(u32::try_from(number).ok()?))
}

/// What the words ask for: one word that names a job, `pack`, `resume`, `serve`, `repack`, `bench` and a number, `dump` and a version, or
/// `changed`, a version and a path. None where they are no such words: a number has at most 64 bits and no zero before another digit, a version at most 32
/// bits, and a path the form of names joined by dots.
pub fn task_of(words: &[String]) -> Option<Task>
    ensures { result ≡ task_of (map string_bytes words.now) }
{
    match words {
        [word] if word.as_bytes() == b"pack".as_slice() => Some(Task::Pack),
        [word] if word.as_bytes() == b"resume".as_slice() => Some(Task::Resume),
        [word] if word.as_bytes() == b"serve".as_slice() => Some(Task::Serve),
        [word] if word.as_bytes() == b"repack".as_slice() => Some(Task::Repack),
        [word] => Some(Task::Input(job_named(word.as_bytes())?)),
        [word, number] if word.as_bytes() == b"bench".as_slice() => {
            Some(Task::Bench(long_number(number.as_str())?))
        }
        [word, version] if word.as_bytes() == b"dump".as_slice() => {
            Some(Task::Ask(Question::Dump(version_number(version.as_str())?)))
        }
        [word, version, path]
            if word.as_bytes() == b"changed".as_slice() && path_form(path.as_bytes()) => {
            Some(Task::Ask(Question::Changed(version_number(version.as_str())?)))
        }
        _ => None,
    }
}

/// The path among the words: the third one, and no bytes where there is none.
pub fn path_in(words: &[String]) -> &[u8]
    ensures { result.now ≡ path_in (map string_bytes words.now) }
{
    match words.get(2) {
        Some(path) => path.as_bytes(),
        None => &[],
    }
}
