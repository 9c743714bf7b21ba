//! The ends of open runs.

ghost use Rattle.std.specs.Prelude.{◌≡◌, ◌<◌, IfOk, OnErr, length};
ghost use Rattle.pst_engine_runs.specs.Stands.{IsRunAt, StandForSome, VersionsStay};
ghost use Rattle.pst_engine.specs.Stands.{MayPublish, Settled};
ghost use Rattle.pst_engine.specs.Changes.{Closes};

use pst_base::{NoMemory, Numbers, RunNo, VersionNo};
use pst_engine_runs::{Meant, OpenEntry, advance, known};
use pst_program::Ended;
use pst_script::Reply;
use pst_versions::VersionedHeap;

/// Publishes the place of a run that is done, and gives the answer to the run's end.
fn settle<H: VersionedHeap>(
    heap: &mut H,
    parent: VersionNo,
    run: RunNo,
    place: H::Place,
    end: Ended,
    printed: Numbers,
) -> Result<Reply, NoMemory>
    requires { MayPublish (H.state heap.old) parent place }
    ensures ok { IfOk result (λ r. Settled (H.state heap.old) parent run place printed end r (H.state heap.new) (heap.new ≡ heap.old)) }
    ensures err { OnErr result (VersionsStay (H.state heap.old) (H.state heap.new)) }
{
    heap.known_versions();
    match end {
        Ended::Done => {
            let version = heap.publish(parent, run, place)?;
            Ok(Reply::Version { printed, version })
        }
        Ended::Trapped(trap) => Ok(Reply::Trapped { printed, trap }),
        Ended::Stopped => Ok(Reply::Answer { printed }),
    }
}

/// Carries an open run to its end, and publishes its version where it is done. The run's own list of printed numbers goes into the
/// answer. Publishing is the last that can find no memory, so the versions are then those of before.
pub(crate) fn close<H: VersionedHeap, C: Meant>(
    code: &C,
    heap: &mut H,
    active: &mut Vec<OpenEntry<H>>,
    at: usize,
    run: RunNo,
) -> Result<Reply, NoMemory>
    requires at { at < length active.old.items }
    requires run { IsRunAt active.old.items at run }
    requires stands { StandForSome (C.meant code.now) active.old.items (H.state heap.old) }
    ensures ok { IfOk result (λ r. Closes (C.meant code.now) active.old.items (H.state heap.old) run r active.new.items (H.state heap.new)) }
    ensures err { OnErr result (VersionsStay (H.state heap.old) (H.state heap.new)) }
{
    heap.known();
    heap.known_versions();
    known::<H, C>(code);
    let entry = &mut active[at];
    let end = advance(code, &mut entry.activation, heap, u32::MAX)?;
    let place = entry.activation.place();
    let parent = entry.parent;
    let closed = active.remove(at);
    let printed = closed.activation.into_printed();
    heap.known();
    heap.known_versions();
    settle(heap, parent, run, place, end, printed)
}
