//! A reply in numbers, for a host.

ghost use Rattle.std.specs.Prelude.{◌≡◌};
ghost use Rattle.persist_c.specs.Summaries.{in_numbers, refusal_number, summary_of, summary_of_reply, trap_number};

use pst_base::TrapKind;
use pst_script::{Refusal, Reply};

/// What came of a line or call, in numbers.
#[repr(C)]
#[derive(Clone, Copy)]
pub struct Summary {
    /// What it is, from 0 in the order of the replies; 12 where there is no reply.
    pub kind: u32,
    /// The trap or the refusal, from 0 in their order; else 0.
    pub detail: u32,
    /// The version, the run, the charges of the budget, or the line of the trap; else 0.
    pub number: u64,
    /// How many numbers were printed.
    pub printed: usize,
    /// How many bytes its text has, where one was made.
    pub length: usize,
}

/// The number of a trap.
fn trap_number(kind: TrapKind) -> u32
    ensures { result ≡ trap_number kind }
{
    match kind {
        TrapKind::Null => 0,
        TrapKind::InDegree => 1,
        TrapKind::Index => 2,
        TrapKind::Overflow => 3,
        TrapKind::Divide => 4,
        TrapKind::Budget => 5,
        TrapKind::Depth => 6,
        TrapKind::Output => 7,
    }
}

/// The number of a refusal.
fn refusal_number(refusal: Refusal) -> u32
    ensures { result ≡ refusal_number refusal }
{
    match refusal {
        Refusal::Line => 0,
        Refusal::Number => 1,
        Refusal::Name => 2,
        Refusal::Arguments => 3,
        Refusal::Version => 4,
        Refusal::Run => 5,
        Refusal::Runs => 6,
        Refusal::RunsOpen => 7,
        Refusal::Calls => 8,
        Refusal::Old => 9,
    }
}

/// A summary of these numbers.
fn in_numbers(kind: u32, detail: u32, number: u32, printed: &[i64], length: usize) -> Summary
    ensures { result ≡ in_numbers kind detail number printed.now length }
{
    Summary {
        kind,
        detail,
        number: number as u64,
        printed: printed.len(),
        length,
    }
}

/// The summary of a reply.
fn summary_of_reply(reply: &Reply, printed: &[i64], length: usize) -> Summary
    ensures { result ≡ summary_of_reply reply.now printed.now length }
{
    match reply {
        Reply::Version { version, .. } => in_numbers(0, 0, version.0, printed, length),
        Reply::Answer { .. } => in_numbers(1, 0, 0, printed, length),
        Reply::Trapped { trap, .. } => {
            in_numbers(2, trap_number(trap.kind), trap.line, printed, length)
        }
        Reply::Opened { run } => in_numbers(3, 0, run.0, printed, length),
        Reply::Running { run } => in_numbers(4, 0, run.0, printed, length),
        Reply::Finished { run } => in_numbers(5, 0, run.0, printed, length),
        Reply::Dropped { run } => in_numbers(6, 0, run.0, printed, length),
        Reply::BudgetSet { charges } => in_numbers(7, 0, *charges, printed, length),
        Reply::VersionList(_) => in_numbers(8, 0, 0, printed, length),
        Reply::StatsAre(_) => in_numbers(9, 0, 0, printed, length),
        Reply::LineStatsAre(_) => in_numbers(10, 0, 0, printed, length),
        Reply::Refused(refusal) => in_numbers(11, refusal_number(*refusal), 0, printed, length),
    }
}

/// The summary of the last reply, if there is one, whose text has this length.
pub(crate) fn summary_of(reply: &Option<Reply>, printed: &[i64], length: usize) -> Summary
    ensures { result ≡ summary_of reply.now printed.now length }
{
    match reply {
        None => in_numbers(12, 0, 0, printed, length),
        Some(reply) => summary_of_reply(reply, printed, length),
    }
}
