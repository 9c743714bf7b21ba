//! The walk over the records that the root record reaches.

ghost use Rattle.std.specs.Prelude.{◌≡◌, IfOk, IfSome, OnOk};
ghost use Rattle.std.specs.Option.{option_map};
ghost use Rattle.pst_questions.specs.Paths.{AreNumbered};
ghost use Rattle.pst_questions.specs.Walk.{names_of, AreEntries, IsRecordWith, pointers_of, noted, all_noted};

use crate::numbering::Numbering;
use pst_base::{NoMemory, ROOT, Shape, SlotNo, TypeShape};
use pst_versions::HeapAt;
use std::alloc::Global;

/// Notes the record that a pointer holds.
fn note_target<H: HeapAt>(
    heap: &H,
    at: H::Place,
    target: Option<H::Ref>,
    found: &mut Numbering<H::Ref>,
) -> Result<(), NoMemory>
    requires live { IfSome target ((H.state heap.now).live at) }
    requires entries { AreEntries (H.state heap.now) at found.old }
    ensures names { OnOk result (names_of found.new ≡ noted (names_of found.old) (option_map (H.state heap.now).name target)) }
    ensures entries { OnOk result (AreEntries (H.state heap.now) at found.new) }
{
    match target {
        None => Ok(()),
        Some(r) => found.note(heap.name_of(r), r),
    }
}

/// Notes the records that the pointers of a record hold, in the order of slots. The record has these fields.
fn note_targets<H: HeapAt>(
    heap: &H,
    at: H::Place,
    r: H::Ref,
    fields: &TypeShape,
    found: &mut Numbering<H::Ref>,
) -> Result<(), NoMemory>
    requires fields { IsRecordWith (H.state heap.now) at r fields.now }
    requires entries { AreEntries (H.state heap.now) at found.old }
    ensures names { OnOk result (names_of found.new ≡ all_noted (names_of found.old) (pointers_of (H.state heap.now) at r)) }
    ensures entries { OnOk result (AreEntries (H.state heap.now) at found.new) }
{
    heap.known();
    let first = fields.values;
    let end = first + fields.targets.as_slice().len() as u16;
    for slot in first..end {
        note_target(heap, at, heap.load_pointer(at, r, SlotNo(slot)), found)?;
    }
    Ok(())
}

/// The records that the root record reaches at a place, in the order of their least access paths.
///
/// The walk is breadth first: a record is noted when a path first leads to it, and the notes are the queue. So the paths
/// rise, and each record is noted by its least one.
pub(crate) fn records<H: HeapAt>(
    alloc: Global,
    heap: &H,
    shape: &Shape,
    at: H::Place,
) -> Result<Numbering<H::Ref>, NoMemory>
    requires place { (H.state heap.now).has at }
    requires shape { (H.state heap.now).shape ≡ shape.now }
    ensures numbered { IfOk result (λ found. AreNumbered ((H.state heap.now).heap at) (names_of found)) }
    ensures entries { IfOk result (λ found. AreEntries (H.state heap.now) at found) }
{
    heap.known();
    let types = shape.as_slice();
    let mut found = Numbering::new(alloc);
    found.note(ROOT, heap.root(at))?;
    let mut number = 0;
    while number < found.len() {
        let r = found.record(number);
        let fields = &types[usize::from(heap.type_of(r).0)];
        note_targets(heap, at, r, fields, &mut found)?;
        number += 1;
    }
    Ok(found)
}
