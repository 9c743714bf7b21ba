//! The texts of replies.
ghost use Rattle.std.specs.Prelude.{◌≡◌, ◌<◌, ◌++◌, length, IfOk, OnOk};
ghost use Rattle.std.specs.Fmt.{decimal};
ghost use Rattle.pst_script.specs.Texts.{printed_lines, trap_name, trap_line, version_line, version_lines, bound_of, line_bound_of, counts_line, refusal_name, text_of};

use crate::reply::{Refusal, Reply};
use pst_base::{Counts, NoMemory, Text, Trap, TrapKind, VersionNo, put_number_between};
use std::alloc::Global;

/// The most bytes that the line of a printed number takes.
const PRINTED_LINE_BYTES: usize = 23;

/// The most bytes that the line of a version takes.
const VERSION_LINE_BYTES: usize = 27;

/// The name of a trap in replies.
fn trap_name(kind: TrapKind) -> &'static [u8]
    ensures { result.now ≡ trap_name kind }
{
    match kind {
        TrapKind::Null => b"null",
        TrapKind::InDegree => b"indegree",
        TrapKind::Index => b"index",
        TrapKind::Overflow => b"overflow",
        TrapKind::Divide => b"divide",
        TrapKind::Budget => b"budget",
        TrapKind::Depth => b"depth",
        TrapKind::Output => b"output",
    }
}

/// The name of a refusal in replies.
fn refusal_name(refusal: Refusal) -> &'static [u8]
    ensures { result.now ≡ refusal_name refusal }
{
    match refusal {
        Refusal::Line => b"line",
        Refusal::Number => b"number",
        Refusal::Name => b"name",
        Refusal::Arguments => b"arguments",
        Refusal::Version => b"version",
        Refusal::Run => b"run",
        Refusal::Runs => b"runs",
        Refusal::RunsOpen => b"open",
        Refusal::Calls => b"calls",
        Refusal::Old => b"old",
    }
}

/// Puts the numbers that were printed, each on a line.
fn push_printed(text: &mut Vec<u8>, printed: &[i64]) -> Result<(), NoMemory>
    ensures { OnOk result (text.new.items ≡ text.old.items ++ printed_lines printed.now) }
{
    text.reserve(PRINTED_LINE_BYTES.saturating_mul(printed.len()))?;
    for number in printed {
        put_number_between(text, b"| ", *number, b"\n")?;
    }
    Ok(())
}

/// Puts the line of a trap.
fn push_trap(text: &mut Vec<u8>, trap: Trap) -> Result<(), NoMemory>
    ensures { OnOk result (text.new.items ≡ text.old.items ++ trap_line trap) }
{
    text.extend_from_slice(b"trap ")?;
    text.extend_from_slice(trap_name(trap.kind))?;
    put_number_between(text, b" at ", trap.line, b"\n")
}

/// Puts the line of a version.
fn push_version(text: &mut Vec<u8>, version: usize, parent: VersionNo) -> Result<(), NoMemory>
    ensures { OnOk result (text.new.items ≡ text.old.items ++ version_line version parent) }
{
    put_number_between(text, b"", version, b" from ")?;
    put_number_between(text, b"", parent.0, b"\n")
}

/// Puts a line for each version from 1 on.
fn push_versions(text: &mut Vec<u8>, parents: &[VersionNo]) -> Result<(), NoMemory>
    ensures { OnOk result (text.new.items ≡ text.old.items ++ version_lines 1 parents.now) }
{
    text.reserve(VERSION_LINE_BYTES.saturating_mul(parents.len()))?;
    for (index, parent) in parents.iter().enumerate() {
        push_version(text, index + 1, *parent)?;
    }
    Ok(())
}

/// How many nodes and stamped values there can be at most after these writes.
fn bound(counts: &Counts) -> u128
    ensures { result ≡ bound_of counts.now }
{
    counts.records as u128 + 6 * counts.pointer_writes as u128 + 2 * counts.value_writes as u128
}

/// How many nodes and stamped values there can be at most after these writes of a linear history.
fn line_bound(counts: &Counts) -> u128
    ensures { result ≡ line_bound_of counts.now }
{
    counts.records as u128 + counts.pointer_writes as u128 + counts.value_writes as u128
}

/// Puts the line of the counts, with a bound on nodes and stamped values.
fn push_counts(text: &mut Vec<u8>, counts: &Counts, bound: u128) -> Result<(), NoMemory>
    ensures { OnOk result (text.new.items ≡ text.old.items ++ counts_line counts.now bound) }
{
    put_number_between(text, b"records ", counts.records, b"")?;
    put_number_between(text, b" pointers ", counts.pointer_writes, b"")?;
    put_number_between(text, b" values ", counts.value_writes, b"")?;
    put_number_between(text, b" bound ", bound, b"\n")
}

/// Puts the text of a reply.
#[inline(always)]
fn push_reply(text: &mut Vec<u8>, reply: &Reply) -> Result<(), NoMemory>
    ensures { OnOk result (text.new.items ≡ text.old.items ++ text_of reply.now) }
{
    match reply {
        Reply::Version { printed, version } => {
            push_printed(text, printed.as_slice())?;
            put_number_between(text, b"version ", version.0, b"\n")
        }
        Reply::Answer { printed } => {
            push_printed(text, printed.as_slice())?;
            text.extend_from_slice(b"ok\n")
        }
        Reply::Trapped { printed, trap } => {
            push_printed(text, printed.as_slice())?;
            push_trap(text, *trap)
        }
        Reply::Opened { run } => put_number_between(text, b"run ", run.0, b"\n"),
        Reply::Running { run } => put_number_between(text, b"run ", run.0, b" running\n"),
        Reply::Finished { run } => put_number_between(text, b"run ", run.0, b" done\n"),
        Reply::Dropped { run } => put_number_between(text, b"dropped ", run.0, b"\n"),
        Reply::BudgetSet { charges } => put_number_between(text, b"budget ", *charges, b"\n"),
        Reply::VersionList(parents) => {
            text.extend_from_slice(b"0\n")?;
            push_versions(text, parents.as_slice())
        }
        Reply::StatsAre(counts) => push_counts(text, counts, bound(counts)),
        Reply::LineStatsAre(counts) => push_counts(text, counts, line_bound(counts)),
        Reply::Refused(refusal) => {
            text.extend_from_slice(b"refused ")?;
            text.extend_from_slice(refusal_name(*refusal))?;
            text.extend_from_slice(b"\n")
        }
    }
}

/// Puts the text of a reply in the place of what a list holds. It is never empty, and each of its lines ends with a line feed.
///
/// # Errors
///
/// `NoMemory` where there is none for the text.
#[inline(always)]
pub fn put_reply(text: &mut Vec<u8>, reply: &Reply) -> Result<(), NoMemory>
    ensures { OnOk result (text.new.items ≡ text_of reply.now) }
{
    text.clear();
    push_reply(text, reply)
}

/// The text of a reply, which is never empty. Each of its lines ends with a line feed.
///
/// # Errors
///
/// `NoMemory` where there is none for the text.
pub fn reply_text(alloc: Global, reply: &Reply) -> Result<Text, NoMemory>
    ensures text { IfOk result (λ text. text ≡ text_of reply.now) }
    ensures some { IfOk result (λ text. 0 < length text) }
{
    let mut text = Vec::new(alloc);
    push_reply(&mut text, reply)?;
    Ok(Text::from_vec(text))
}
