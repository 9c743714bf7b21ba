//! The bench: a large script is carried out, and a summary of what came of it is written.

ghost use Rattle.std.specs.Prelude.{◌≡◌, ◌≤◌, ◌⊎◌, ◌+◌, ◌+ℤ◌, ◌<◌, ◌^◌, length, pos, fold, None, IfOk, OnOk, OnErr};
ghost use Rattle.pst_io.specs.Causes.{Rose};
ghost use Rattle.pst_io.specs.Text.{lines_of};
ghost use Rattle.pst_program.specs.View.{routines_of};
ghost use Rattle.pst_program.specs.Typed.{IsTyped};
ghost use Rattle.pst_script.specs.Texts.{text_of};
ghost use Rattle.pst_script.specs.declared.reply.Reply.TheVariants as answer;
ghost use Rattle.pst_history.specs.Direct.{meaning_of};
ghost use Rattle.pst_store.specs.Whole.{nodes_in, state_in};
ghost use Rattle.pst_cli_bench.specs.Bench.{printed_in, printed_at, printed_from, after_lines, BreaksAfterSome, summary, bench_lines, summary_of, IsBrokenAfterSome, BenchRow};
ghost use Rattle.pst_cli_scripts.specs.Kept.{history_after};
ghost use Rattle.pst_cli_serving.specs.Storing.{IsLeft};
ghost use Rattle.pst_cli_scripts.specs.Script.{by_tree, after_line};
ghost use Rattle.pst_cli_scripts.specs.Sessions.{HasTaken, StandForSome, OnEachHistory, BreaksBetween};

use crate::script::bench_script;
use pst_base::{NoMemory, Text};
use pst_cli_scripts::{Session, reply_to, say, split_line};
use pst_cli_serving::{Running, refuse, status_of};
use pst_cli_words::Status;
use pst_front::{NoProgram, program_of};
use pst_io::Sink;
use pst_order::Order;
use pst_program::Program;
use pst_script::{Reply, reply_text};
use pst_store::StoreOf;
use pst_store_arena::FatNodes;
use pst_versions::VersionedHeap;
use std::alloc::Global;

/// The numbers that a reply says were printed.
fn printed_in(reply: &Reply) -> &[i64]
    ensures { result.now ≡ printed_in reply.now }
{
    match reply {
        Reply::Version { printed, .. } => printed.as_slice(),
        Reply::Answer { printed } => printed.as_slice(),
        Reply::Trapped { printed, .. } => printed.as_slice(),
        Reply::Opened { .. } => &[],
        Reply::Running { .. } => &[],
        Reply::Finished { .. } => &[],
        Reply::Dropped { .. } => &[],
        Reply::BudgetSet { .. } => &[],
        Reply::VersionList(_) => &[],
        Reply::StatsAre(_) => &[],
        Reply::LineStatsAre(_) => &[],
        Reply::Refused(_) => &[],
    }
}

/// A sum with these numbers added to it. `NoMemory` where 64 bits do not hold it, or a sum on the way there: that is no fault of
/// a script, and the answer that every caller may give. The sums of the bench stay far below, since no number that it prints
/// passes 20,000.
fn add_all(sum: i64, numbers: &[i64]) -> Result<i64, NoMemory>
    ensures { IfOk result (λ all. all ≡ fold ◌+ℤ◌ sum numbers.now) }
{
    let mut all = sum;
    for number in numbers {
        match all.checked_add(*number) {
            None => return Err(NoMemory),
            Some(more) => all = more,
        }
    }
    Ok(all)
}

/// Carries a line out, and adds the numbers that it printed to a sum.
fn sum_line<X: Session>(
    alloc: Global,
    session: &mut X,
    held: &mut X::Held,
    line: &[u8],
    sum: i64,
) -> Result<i64, NoMemory>
    requires { StandForSome X.stands session.old held.old }
    ensures sum { IfOk result (λ all. OnEachHistory X.stands session.old held.old (λ m h. all ≡ fold ◌+ℤ◌ sum (printed_at X.rules line.now m h))) }
    ensures stands { OnOk result (OnEachHistory X.stands session.old held.old (λ m h. X.stands session.new held.new m (after_line X.rules line.now m h))) }
    ensures breaks { OnErr result (OnEachHistory X.stands session.old held.old (BreaksBetween X.breaks held.new (after_line X.rules line.now))) }
{
    let reply = reply_to(alloc, session, held, line)?;
    session.known(held);
    match reply {
        None => Ok(sum),
        Some(reply) => add_all(sum, printed_in(&reply)),
    }
}

/// Carries the lines of a text out, and sums the numbers that they printed.
fn sum_lines<X: Session>(
    alloc: Global,
    session: &mut X,
    held: &mut X::Held,
    text: &[u8],
) -> Result<i64, NoMemory>
    requires { StandForSome X.stands session.old held.old }
    ensures sum { IfOk result (λ sum. OnEachHistory X.stands session.old held.old (λ m h. sum ≡ fold ◌+ℤ◌ (pos 0) (printed_from X.rules m h (lines_of text.now)))) }
    ensures stands { OnOk result (OnEachHistory X.stands session.old held.old (λ m h. X.stands session.new held.new m (after_lines X.rules (lines_of text.now) m h))) }
    ensures breaks { OnErr result (OnEachHistory X.stands session.old held.old (BreaksAfterSome X.rules X.breaks held.new (lines_of text.now))) }
{
    let mut sum = 0;
    let mut rest = text;
    'lines: loop {
        match split_line(rest) {
            None => return Ok(sum),
            Some((line, behind)) => {
                sum = sum_line(alloc, session, held, line, sum)?;
                rest = behind;
            }
        }
    }
}

/// The summary of a store with its versions and counts, and of a sum.
fn summary_text<O: Order + Drop, N: FatNodes>(
    alloc: Global,
    store: &StoreOf<O, N>,
    sum: i64,
) -> Result<Text, NoMemory>
    ensures { let s = state_in store.now in IfOk result (λ text. text ≡ summary (length s.versions) (text_of (answer.StatsAre s.counts)) (length (nodes_in store.now)) sum) }
{
    let versions = store.count();
    let nodes = store.nodes();
    let stats = reply_text(alloc, &Reply::StatsAre(store.counts()))?;
    let before = format!(in alloc; "versions {versions}\n")?;
    let behind = format!(in alloc; "nodes {nodes}\nsum {sum}\n")?;
    let mut text = Vec::new(alloc);
    text.extend_from_slice(before.as_bytes())?;
    text.extend_from_slice(stats.as_slice())?;
    text.extend_from_slice(behind.as_bytes())?;
    Ok(Text::from_vec(text))
}

/// Carries the script of the bench out for a program, and gives the summary.
fn summarize<O: Order + Drop, N: FatNodes>(
    alloc: Global,
    program: Program,
    number: u64,
    store: &mut StoreOf<O, N>,
) -> Result<Text, NoMemory>
    requires typed { IsTyped (routines_of program) }
    requires empty { store.old ≡ None }
    ensures summary { IfOk result (λ text. text ≡ summary_of (meaning_of program) (bench_lines number) store.new) }
    ensures left { OnOk result (IsLeft (meaning_of program) store.new (history_after by_tree (meaning_of program) (bench_lines number))) }
    ensures err { OnErr result ((store.new ≡ store.old) ⊎ IsBrokenAfterSome (meaning_of program) (bench_lines number) store.new) }
{
    let script = bench_script(alloc, number)?;
    let mut session = Running::begin(alloc, program, store)?;
    let sum = sum_lines(alloc, &mut session, store, script.as_slice())?;
    session.known(store);
    summary_text(alloc, store, sum)
}

/// Carries the script of the bench with a number out for the program with a text of fewer than 4,294,967,295 bytes, over a store
/// that is handed in empty, and writes the summary as one piece, or the line of the program's fault.
///
/// `Done` where the summary was written; `Refused` where the line of the fault was; `WriteFault` where a write failed, after a
/// proper part of it; `Memory` where nothing was written for want of memory.
pub fn bench<O: Order + Drop, N: FatNodes, K: Sink>(
    alloc: Global,
    text: &[u8],
    number: u64,
    sink: &mut K,
    store: &mut StoreOf<O, N>,
) -> Status
    requires empty { store.old ≡ None }
    requires short { length text.now + 1 < 2 ^ 32 }
    ensures row { HasTaken K.taken sink.old sink.new (BenchRow result text.now (bench_lines number) store.old store.new) }
    ensures later { K.faults sink.old ≤ K.faults sink.new }
    ensures write { result ≡ Status.WriteFault → Rose (K.faults sink.old) (K.faults sink.new) }
{
    let Ok(text) = Vec::from_slice(alloc, text) else {
        return Status::Memory;
    };
    match program_of(alloc, text) {
        Err(NoProgram::Memory) => Status::Memory,
        Err(NoProgram::Fault(fault)) => refuse(alloc, sink, fault),
        Ok(program) => match summarize(alloc, program, number, store) {
            Err(_) => Status::Memory,
            Ok(summary) => match say(sink, summary.as_slice()) {
                Ok(()) => Status::Done,
                Err(stop) => status_of(stop),
            },
        },
    }
}
