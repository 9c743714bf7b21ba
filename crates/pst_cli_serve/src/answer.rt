//! The answer to a line: a question about the versions, or a command.

ghost use Rattle.std.specs.Prelude.{◌≡◌, ◌≤◌, ◌++◌, Err, IfOk, IfErr, OnOk, codes};
ghost use Rattle.pst_io.specs.Causes.{Rose};
ghost use Rattle.pst_history.specs.Meaning.{Meaning};
ghost use Rattle.pst_history.specs.History.{History};
ghost use Rattle.pst_history.specs.Sound.{IsSoundHistory};
ghost use Rattle.pst_engine_runs.specs.Stands.{HoldsVersions};
ghost use Rattle.pst_cli_scripts.specs.Script.{by_tree, after_line};
ghost use Rattle.pst_cli_scripts.specs.Sessions.{HasTaken, HeldAtLine, OnEachHistory, StandForSome};
ghost use Rattle.pst_cli_serving.specs.Storing.{IsBroken, IsLeft};
ghost use Rattle.pst_cli_serve.specs.Served.{AnswersQuestion, IsWrittenOf, Says};

use pst_base::{NoMemory, Text};
use pst_cli_questions::tell;
use pst_cli_scripts::{Session, Stop, answer_line, say};
use pst_cli_serving::Running;
use pst_cli_words::{Asked, Question, question_in};
use pst_io::Sink;
use pst_order::Order;
use pst_program::Program;
use pst_store::StoreOf;
use pst_store_arena::FatNodes;
use pst_versions::VersionedHeap;
use std::alloc::Global;

/// The line behind the dump of a version.
const END: &str = "ok\n";

/// A text with the line behind a dump.
fn ended(text: Text) -> Result<Text, NoMemory>
    ensures { IfOk result (λ whole. whole ≡ text ++ codes "ok\n") }
{
    let mut text = text.into_vec();
    text.extend_from_slice(END.as_bytes())?;
    Ok(Text::from_vec(text))
}

/// The answer to a question about the versions of a heap of the program, for every sound history whose versions the heap holds: that of the
/// word of its name, and behind the dump of a version the line `ok`.
///
/// # Errors
/// Where there was no memory.
fn answer_of<H: VersionedHeap>(
    alloc: Global,
    heap: &H,
    program: &Program,
    asked: Asked<'_>,
) -> Result<Text, NoMemory>
    requires shape { (H.state heap.now).shape ≡ program.now.shape }
    ensures { IfOk result (λ text. (m : Meaning) (h : History) → IsSoundHistory m h → HoldsVersions m (H.state heap.now) h → AnswersQuestion program.now m h asked.entry.question asked.entry.path.now text) }
{
    let answer = tell(alloc, heap, program, asked.question, asked.path)?;
    match asked.question {
        Question::Changed(_) => Ok(answer),
        Question::Dump(version) => {
            if version.0 < heap.count() {
                ended(answer)
            } else {
                Ok(answer)
            }
        }
    }
}

/// Answers a line: a question about the versions, which changes nothing, or else a command as for `run`. The text of a reply to a command
/// is made in a list that is used again.
///
/// # Errors
/// Where a write failed, and the command is carried out; or there was no memory, and it is carried out or not.
pub(crate) fn answer_served<K: Sink, O: Order + Drop, N: FatNodes>(
    alloc: Global,
    session: &mut Running<O, N>,
    store: &mut StoreOf<O, N>,
    sink: &mut K,
    line: &[u8],
    text: &mut Vec<u8>,
) -> Result<(), Stop>
    requires { StandForSome ⟦<Running<O, N> as Session>⟧.stands session.old store.old }
    ensures about { session.new.code ≡ session.old.code }
    ensures answered { OnEachHistory ⟦<Running<O, N> as Session>⟧.stands session.old store.old (λ m h. HasTaken K.taken sink.old sink.new (IsWrittenOf result (Says session.old.code m h line.now))) }
    ensures stands { OnOk result (OnEachHistory ⟦<Running<O, N> as Session>⟧.stands session.old store.old (λ m h. ⟦<Running<O, N> as Session>⟧.stands session.new store.new m (after_line by_tree line.now m h))) }
    ensures held { IfErr result (λ stop. OnEachHistory ⟦<Running<O, N> as Session>⟧.stands session.old store.old (HeldAtLine by_tree IsLeft IsBroken store.new stop line.now)) }
    ensures later { K.faults sink.old ≤ K.faults sink.new }
    ensures write { result ≡ Err Stop.Write → Rose (K.faults sink.old) (K.faults sink.new) }
{
    match question_in(line) {
        None => answer_line(alloc, session, store, sink, line, text),
        Some(asked) => {
            session.known(store);
            match answer_of(alloc, &*store, session.program(), asked) {
                Err(_) => Err(Stop::Memory),
                Ok(answer) => say(sink, answer.as_slice()),
            }
        }
    }
}
