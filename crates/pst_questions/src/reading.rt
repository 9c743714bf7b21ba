//! What a path reads.

ghost use Rattle.std.specs.Prelude.{◌≡◌, ◌<◌, Some, length, slice_get};
ghost use Rattle.pst_base.specs.Heap.{kind_in};
ghost use Rattle.pst_program.specs.Value.{content};
ghost use Rattle.pst_questions.specs.Path.{IsPathIn};
ghost use Rattle.pst_questions.specs.Reading.{reading};
ghost use Rattle.pst_questions.specs.Change.{heap_from};

use crate::slots::PathStep;
use pst_base::{Kind, VersionNo};
use pst_program::Value;
use pst_versions::{HeapAt, VersionedHeap};

/// What a field of a record holds, at a place.
fn content<H: HeapAt>(heap: &H, at: H::Place, object: H::Ref, step: &PathStep) -> Value
    requires live { (H.state heap.now).live at object }
    requires field { kind_in (H.state heap.now).shape ((H.state heap.now).heap at) ((H.state heap.now).name object) step.now.slot.0 ≡ Some step.now.kind }
    ensures { result ≡ content (Some step.now.kind) ((H.state heap.now).heap at) ((H.state heap.now).name object) step.now.slot.0 }
{
    match step.kind {
        Kind::Int => Value::Number(heap.load_value(at, object, step.slot)),
        Kind::Pointer(_) => match heap.load_pointer(at, object, step.slot) {
            None => Value::Null,
            Some(target) => Value::Record(heap.name_of(target)),
        },
    }
}

/// What the last field of a path holds, at a place. It is None exactly where a null is met before.
fn reading<H: HeapAt>(heap: &H, at: H::Place, path: &[PathStep]) -> Option<Value>
    requires has { (H.state heap.now).has at }
    requires path { IsPathIn (H.state heap.now).shape path.now }
    ensures { result ≡ reading ((H.state heap.now).heap at) path.now }
{
    heap.known();
    let mut object = heap.root(at);
    let mut rest = path;
    while let Some((step, after)) = rest.split_first() {
        if after.is_empty() {
            return Some(content(heap, at, object, step));
        }
        let Some(target) = heap.load_pointer(at, object, step.slot) else {
            return None;
        };
        object = target;
        rest = after;
    }
    None
}

/// What a path reads at a version.
pub(crate) fn reading_at<H: VersionedHeap>(
    heap: &H,
    version: VersionNo,
    path: &[PathStep],
) -> Option<Value>
    requires there { version.0 < length (H.state heap.now).versions }
    requires path { IsPathIn (H.state heap.now).shape path.now }
    ensures { result ≡ reading (heap_from (H.state heap.now).heap (slice_get (H.state heap.now).versions version.0)) path.now }
{
    heap.known_versions();
    match heap.place_of(version) {
        None => None,
        Some(place) => reading(heap, place, path),
    }
}
