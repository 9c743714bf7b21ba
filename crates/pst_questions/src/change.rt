//! The first change on the way to version 0.

ghost use Rattle.std.specs.Prelude.{◌≡◌, ◌<◌, ◌↔◌, IfSome, IfNone, IsTrue, length};
ghost use Rattle.pst_questions.specs.Path.{IsPathIn};
ghost use Rattle.pst_questions.specs.Change.{IsFirstChange, NeverChanged, readings_of};

use crate::reading::reading_at;
use crate::slots::Slots;
use pst_base::VersionNo;
use pst_program::Value;
use pst_versions::VersionedHeap;

/// Whether two readings are the same. None, for a null that was met too early, is not null.
fn is_same(a: Option<Value>, b: Option<Value>) -> bool
    ensures { IsTrue result ↔ (a ≡ b) }
{
    a == b
}

/// The first version on the way from a version to version 0, over parents, at which the path reads otherwise than at its
/// parent. It is None exactly where there is none. The path is one that was resolved for a program of the heap's shape.
/// Each version on the way is read once, and no memory is taken.
pub fn changed<H: VersionedHeap>(heap: &H, path: &Slots, version: VersionNo) -> Option<VersionNo>
    requires there { version.0 < length (H.state heap.now).versions }
    requires path { IsPathIn (H.state heap.now).shape path.now }
    ensures first { IfSome result (λ w. IsFirstChange (readings_of (H.state heap.now) path.now) version.0 w.0) }
    ensures never { IfNone result (NeverChanged (readings_of (H.state heap.now) path.now) version.0) }
{
    heap.known();
    let steps = path.as_slice();
    let read = reading_at(heap, version, steps);
    let mut current = version;
    while let Some(parent) = heap.parent(current) {
        let before = reading_at(heap, parent, steps);
        if !is_same(read, before) {
            return Some(current);
        }
        current = parent;
    }
    None
}
