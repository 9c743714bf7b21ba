//! The text of a dump.

ghost use Rattle.std.specs.Prelude.{◌≡◌, ◌++◌, IfOk, IfSome, OnOk};
ghost use Rattle.std.specs.List.{flat_map};
ghost use Rattle.std.specs.Option.{option_map};
ghost use Rattle.pst_questions.specs.Dump.{value_word, line_of, line_text, IsDump};
ghost use Rattle.pst_questions.specs.Walk.{names_of, IsRecordWith, record_of, values_of, pointers_of, pointer_word};

use crate::numbering::Numbering;
use crate::walk::records;
use pst_base::{NoMemory, SlotNo, Text, TypeShape, put_number};
use pst_program::Program;
use pst_versions::HeapAt;
use std::alloc::Global;

/// Puts a number that a record holds.
fn put_value(out: &mut Vec<u8>, value: i64) -> Result<(), NoMemory>
    ensures { OnOk result (out.new.items ≡ out.old.items ++ value_word value) }
{
    out.extend_from_slice(b" ")?;
    put_number(out, value)
}

/// Puts the numbers that a record holds, in the order of slots.
fn put_values<H: HeapAt>(
    out: &mut Vec<u8>,
    heap: &H,
    at: H::Place,
    r: H::Ref,
    fields: &TypeShape,
) -> Result<(), NoMemory>
    requires { IsRecordWith (H.state heap.now) at r fields.now }
    ensures { OnOk result (out.new.items ≡ out.old.items ++ flat_map value_word (values_of (H.state heap.now) at r)) }
{
    heap.known();
    for slot in 0..fields.values {
        put_value(out, heap.load_value(at, r, SlotNo(slot)))?;
    }
    Ok(())
}

/// Puts null, or the number of the record that a pointer holds.
fn put_target<H: HeapAt>(
    out: &mut Vec<u8>,
    heap: &H,
    at: H::Place,
    target: Option<H::Ref>,
    found: &Numbering<H::Ref>,
) -> Result<(), NoMemory>
    requires { IfSome target ((H.state heap.now).live at) }
    ensures { OnOk result (out.new.items ≡ out.old.items ++ pointer_word (names_of found.now) (option_map (H.state heap.now).name target)) }
{
    match target {
        None => out.extend_from_slice(b" null"),
        Some(r) => {
            out.extend_from_slice(b" @")?;
            put_number(out, found.number(heap.name_of(r)))
        }
    }
}

/// Puts null or the number of the target for each pointer of a record, in the order of slots.
fn put_targets<H: HeapAt>(
    out: &mut Vec<u8>,
    heap: &H,
    at: H::Place,
    r: H::Ref,
    fields: &TypeShape,
    found: &Numbering<H::Ref>,
) -> Result<(), NoMemory>
    requires { IsRecordWith (H.state heap.now) at r fields.now }
    ensures { OnOk result (out.new.items ≡ out.old.items ++ flat_map (pointer_word (names_of found.now)) (pointers_of (H.state heap.now) at r)) }
{
    heap.known();
    let first = fields.values;
    let end = first + fields.targets.as_slice().len() as u16;
    for slot in first..end {
        put_target(out, heap, at, heap.load_pointer(at, r, SlotNo(slot)), found)?;
    }
    Ok(())
}

/// Puts the line of a record.
fn put_line<H: HeapAt>(
    out: &mut Vec<u8>,
    heap: &H,
    program: &Program,
    at: H::Place,
    found: &Numbering<H::Ref>,
    number: usize,
    r: H::Ref,
) -> Result<(), NoMemory>
    requires live { (H.state heap.now).live at r }
    requires shape { (H.state heap.now).shape ≡ program.now.shape }
    ensures { OnOk result (out.new.items ≡ out.old.items ++ line_text program.now.names number (line_of (names_of found.now) (record_of (H.state heap.now) at r))) }
{
    heap.known();
    let ty = heap.type_of(r);
    let fields = &program.shape().as_slice()[usize::from(ty.0)];
    put_number(out, number)?;
    out.extend_from_slice(b" ")?;
    out.extend_from_slice(program.type_name(ty))?;
    out.extend_from_slice(b":")?;
    put_values(out, heap, at, r, fields)?;
    put_targets(out, heap, at, r, fields, found)?;
    out.extend_from_slice(b"\n")
}

/// The dump of the heap at a place, with the names that the program has for the record types. The program has the heap's
/// shape.
///
/// The records that the root record reaches are numbered from 0 in the order of their least access paths: shorter ones
/// first, and those of one length in lexicographic order of slots. Each has a line: its number, the name of its type with a
/// colon, and what its elements hold in the order of slots, each behind a space: a number, `null`, or `@` and the number of
/// a record. So the numbers come before the pointers, and an array is listed by index. The time and memory are linear in the
/// dump.
///
/// # Errors
/// Where there was no memory.
pub fn dump<H: HeapAt>(
    alloc: Global,
    heap: &H,
    program: &Program,
    at: H::Place,
) -> Result<Text, NoMemory>
    requires place { (H.state heap.now).has at }
    requires shape { (H.state heap.now).shape ≡ program.now.shape }
    ensures { IfOk result (IsDump program.now.names ((H.state heap.now).heap at)) }
{
    let found = records(alloc, heap, program.shape(), at)?;
    let mut out = Vec::new(alloc);
    for number in 0..found.len() {
        put_line(
            &mut out,
            heap,
            program,
            at,
            &found,
            number,
            found.record(number),
        )?;
    }
    Ok(Text::from_vec(out))
}
