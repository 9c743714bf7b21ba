//! The answer to a question.

ghost use Rattle.std.specs.Prelude.{◌≡◌, ◌<◌, None, IfOk, slice_get};
ghost use Rattle.pst_history.specs.Meaning.{Meaning};
ghost use Rattle.pst_history.specs.History.{History};
ghost use Rattle.pst_history.specs.Sound.{IsSoundHistory};
ghost use Rattle.pst_engine_runs.specs.Stands.{HoldsVersions};
ghost use Rattle.pst_questions.specs.Dump.{IsDump};
ghost use Rattle.pst_questions.specs.Path.{IsPathIn};
ghost use Rattle.pst_questions.specs.Change.{readings_of, heap_from};
ghost use Rattle.pst_cli_questions.specs.Telling.{Tells, TellsChange, WhereThere};

use pst_base::{NoMemory, Text, VersionNo};
use pst_cli_words::Question;
use pst_program::Program;
use pst_questions::{Slots, changed, dump, resolve, versions_there_decide};
use pst_versions::VersionedHeap;
use std::alloc::Global;

/// What is written where no version has the number.
const NO_VERSION: &str = "refused version\n";

/// What is written where the path is not valid.
const NO_PATH: &str = "refused path\n";

/// What is written where no version on the way changed what the path reads.
const NEVER: &str = "never\n";

/// A text.
fn text_of(alloc: Global, text: &str) -> Result<Text, NoMemory>
    ensures { IfOk result (λ copy. copy ≡ text.now) }
{
    Ok(Text::from_vec(Vec::from_slice(alloc, text.as_bytes())?))
}

/// The dump of a version of a heap of the program, or the line that there is no such version.
fn dump_of<H: VersionedHeap>(
    alloc: Global,
    heap: &H,
    program: &Program,
    version: VersionNo,
) -> Result<Text, NoMemory>
    requires shape { (H.state heap.now).shape ≡ program.now.shape }
    ensures { let s = H.state heap.now in IfOk result (WhereThere s version (IsDump program.now.names (heap_from s.heap (slice_get s.versions version.0)))) }
{
    heap.known_versions();
    match heap.place_of(version) {
        None => text_of(alloc, NO_VERSION),
        Some(place) => dump(alloc, heap, program, place),
    }
}

/// The line of the first version, on the way from one to version 0, that changed what a path reads.
fn change_of<H: VersionedHeap>(
    alloc: Global,
    heap: &H,
    path: &Slots,
    version: VersionNo,
) -> Result<Text, NoMemory>
    requires path { IsPathIn (H.state heap.now).shape path.now }
    ensures { IfOk result (WhereThere (H.state heap.now) version (TellsChange (readings_of (H.state heap.now) path.now) version.0)) }
{
    if version.0 >= heap.count() {
        return text_of(alloc, NO_VERSION);
    }
    match changed(heap, path, version) {
        None => text_of(alloc, NEVER),
        Some(first) => {
            let number = first.0;
            let line = format!(in alloc; "changed {number}\n")?;
            text_of(alloc, line.as_str())
        }
    }
}

/// The answer to a question about the versions of a heap of the program, for every sound history whose versions the heap holds.
/// `path` is that of a question [`Question::Changed`], and else of no meaning.
///
/// For a version that is there: its dump, or the line `changed W` with the first version `W`, on the way from it to version 0,
/// that changed what the path reads, or `never`. The line `refused path` exactly where the program has no such path, and else
/// `refused version` exactly where no version has the number.
///
/// # Errors
/// Where there was no memory.
pub fn tell<H: VersionedHeap>(
    alloc: Global,
    heap: &H,
    program: &Program,
    question: Question,
    path: &[u8],
) -> Result<Text, NoMemory>
    requires shape { (H.state heap.now).shape ≡ program.now.shape }
    ensures { IfOk result (λ text. (m : Meaning) (h : History) → IsSoundHistory m h → HoldsVersions m (H.state heap.now) h → Tells program.now m h question path.now text) }
{
    heap.known();
    versions_there_decide();
    match question {
        Question::Dump(version) => dump_of(alloc, heap, program, version),
        Question::Changed(version) => match resolve(alloc, program, path)? {
            None => text_of(alloc, NO_PATH),
            Some(fields) => change_of(alloc, heap, &fields, version),
        },
    }
}
