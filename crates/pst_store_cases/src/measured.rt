//! How many nodes a store has while it is written.

ghost use Rattle.std.specs.Prelude.{OnOk};
ghost use Rattle.pst_store.specs.Whole.{state_in};
ghost use Rattle.pst_store_cases.specs.Going.{IsGoing};

use crate::session::{Session, lines_of};
use pst_base::{Counts, NoMemory};
use pst_order::Order;
use pst_store::StoreOf;
use pst_store_arena::FatNodes;
use pst_versions::VersionedHeap;
use std::alloc::Global;

/// The most nodes and potential that these counts pay for: one for each record that was made, six for each pointer that was
/// written, two for each number.
fn bound(counts: Counts) -> u64 {
    counts
        .pointer_writes
        .saturating_mul(6)
        .saturating_add(counts.value_writes.saturating_mul(2))
        .saturating_add(counts.records)
}

/// Whether no node waits to be split, and nodes and potential are within what was paid for.
fn rests<O: Order + Drop, N: FatNodes>(store: &StoreOf<O, N>) -> bool {
    let used = store.nodes().saturating_add(store.potential());
    !store.pending() && used <= bound(store.counts())
}

/// Adds the reply to a line to the others, and answers whether the store rests then.
fn answer<O: Order + Drop, N: FatNodes>(
    alloc: Global,
    session: &mut Session<StoreOf<O, N>>,
    line: &[u8],
    replies: &mut Vec<u8>,
) -> Result<bool, NoMemory>
    requires { IsGoing session.old.code session.old.engine (state_in session.old.heap) }
    ensures { OnOk result (IsGoing session.new.code session.new.engine (state_in session.new.heap)) }
{
    let reply = session.reply(alloc, line)?;
    replies.extend_from_slice(reply.as_slice())?;
    Ok(rests(&session.heap))
}

/// Whether the lines of a script get these replies, and the store rests after each of them.
pub fn answers_at_rest<O: Order + Drop, N: FatNodes>(
    alloc: Global,
    session: &mut Session<StoreOf<O, N>>,
    script: &[u8],
    wanted: &[u8],
) -> Result<bool, NoMemory>
    requires { IsGoing session.old.code session.old.engine (state_in session.old.heap) }
    ensures { OnOk result (IsGoing session.new.code session.new.engine (state_in session.new.heap)) }
{
    let mut replies = Vec::new(alloc);
    let mut rested = true;
    let lines = lines_of(alloc, script)?;
    for line in &lines {
        rested = answer(alloc, session, line, &mut replies)? && rested;
    }
    Ok(rested && replies.as_slice() == wanted)
}

/// By how many nodes the store grows at a line.
fn growth<O: Order + Drop, N: FatNodes>(
    alloc: Global,
    session: &mut Session<StoreOf<O, N>>,
    line: &[u8],
) -> Result<u64, NoMemory>
    requires { IsGoing session.old.code session.old.engine (state_in session.old.heap) }
    ensures { OnOk result (IsGoing session.new.code session.new.engine (state_in session.new.heap)) }
{
    let before = session.heap.nodes();
    session.reply(alloc, line)?;
    Ok(session.heap.nodes().saturating_sub(before))
}

/// Gives a line so many times, and answers by how many nodes the store grew at most at one of them.
pub fn most_growth<O: Order + Drop, N: FatNodes>(
    alloc: Global,
    session: &mut Session<StoreOf<O, N>>,
    line: &[u8],
    times: u32,
) -> Result<u64, NoMemory>
    requires { IsGoing session.old.code session.old.engine (state_in session.old.heap) }
    ensures { OnOk result (IsGoing session.new.code session.new.engine (state_in session.new.heap)) }
{
    let mut most = 0;
    for _ in 0..times {
        most = most.max(growth(alloc, session, line)?);
    }
    Ok(most)
}
