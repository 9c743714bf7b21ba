//! Queries, and what is read for them.

ghost use Rattle.std.specs.Prelude.{◌≡◌, ◌<◌, IfOk, IfSome, length, slice_get};
ghost use Rattle.pst_history.specs.History.{queried};
ghost use Rattle.pst_engine_runs.specs.Stands.{VersionsStay};
ghost use Rattle.pst_engine_runs.specs.Changes.{Asks, MayAskSome};

use crate::{Meant, add, advance, bare, known};
use pst_base::{NoMemory, Numbers, RunNo, VersionNo};
use pst_program::Ended;
use pst_script::{Call, Reply};
use pst_versions::VersionedHeap;
use std::alloc::Global;

/// The place of a version that is there.
pub fn place_at<H: VersionedHeap>(heap: &H, version: VersionNo) -> H::Place
    requires { version.0 < length (H.state heap.now).versions }
    ensures { IfSome (slice_get (H.state heap.now).versions version.0) (λ row. row.place ≡ result) }
{
    heap.place_of(version).unwrap()
}

/// The same numbers, in memory of their own.
///
/// # Errors
/// Where there was no memory.
pub fn copy_of(alloc: Global, numbers: &[i64]) -> Result<Numbers, NoMemory>
    ensures { IfOk result (λ copy. copy ≡ numbers.now) }
{
    Ok(Numbers::from_vec(numbers.to_vec(alloc)?))
}

/// The answer to a query.
fn queried(printed: Numbers, end: Ended) -> Reply
    ensures { result ≡ queried printed end }
{
    match end {
        Ended::Trapped(trap) => Reply::Trapped { printed, trap },
        Ended::Done | Ended::Stopped => Reply::Answer { printed },
    }
}

/// Carries out a query at the place of a version, and gives its answer. It is given the next run number, and does not take it.
/// Open runs and heap stand for the same history afterwards, and the versions are those of before, also where memory was wanting.
///
/// # Errors
/// Where there was no memory.
pub fn query<H: VersionedHeap, C: Meant>(
    alloc: Global,
    code: &C,
    heap: &mut H,
    budget: u32,
    number: RunNo,
    first: &Call,
) -> Result<Reply, NoMemory>
    requires { MayAskSome H (C.meant code.now) budget number.0 (H.state heap.old) first.now }
    ensures ok { IfOk result (λ r. Asks H (C.meant code.now) budget number.0 (H.state heap.old) first.now r (H.state heap.new)) }
    ensures stay { VersionsStay (H.state heap.old) (H.state heap.new) }
{
    heap.known();
    heap.known_versions();
    known::<H, C>(code);
    let at = place_at(heap, first.version);
    let mut activation = bare(code, alloc, at, number, budget)?;
    add(code, &mut activation, &first.procedure, &first.arguments)?;
    let end = advance(code, &mut activation, heap, u32::MAX)?;
    Ok(queried(activation.into_printed(), end))
}
