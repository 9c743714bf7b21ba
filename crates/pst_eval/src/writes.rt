//! Writes of fields.

ghost use Rattle.std.specs.Prelude.{◌≡◌, ◌+◌};
ghost use Rattle.pst_base.specs.declared.names.Kind.TheVariants.{Pointer};
ghost use Rattle.pst_base.specs.declared.names.TypeNo.{TypeNo};
ghost use Rattle.pst_base.specs.Heap.{kind_in};
ghost use Rattle.pst_program.specs.Value.{Env};
ghost use Rattle.pst_eval.specs.Work.{ending_with, write_end, pointer_write_end, IsAtWork, IsCharged};

use crate::tally::{End, Tally};
use crate::values::number;
use pst_base::{Kind, Name, SlotNo, TrapKind, TypeNo};
use pst_heap::PlainHeap;
use pst_program::Value;

/// Writes a field of a record, whose charge was taken.
pub fn write(
    name: Name,
    slot: SlotNo,
    v: Value,
    line: u32,
    heap: &mut PlainHeap,
    tally: &mut Tally,
) -> End
    requires ready { IsCharged heap.old.shape heap.old tally.old }
    ensures meaning { (env : Env) → ending_with result env heap.new tally.new ≡ write_end name slot.0 v line env heap.old tally.old }
    ensures ready { IsAtWork heap.old.shape heap.new tally.new }
    ensures same_charges { tally.new.charges ≡ tally.old.charges }
{
    match heap.kind_of(name, slot) {
        None => End::Trap(TrapKind::Null, line),
        Some(Kind::Int) => {
            heap.set_value(name, slot, number(v));
            tally.counts.value_writes += 1;
            End::Normal
        }
        Some(Kind::Pointer(ty)) => write_pointer(ty, name, slot, v, line, heap, tally),
    }
}

/// Writes a field of pointers to a type.
fn write_pointer(
    ty: TypeNo,
    name: Name,
    slot: SlotNo,
    v: Value,
    line: u32,
    heap: &mut PlainHeap,
    tally: &mut Tally,
) -> End
    requires ready { IsCharged heap.old.shape heap.old tally.old }
    requires kind { kind_in heap.old.shape heap.old.heap name slot.0 ≡ Some (Pointer ty) }
    ensures meaning { (env : Env) → ending_with result env heap.new tally.new ≡ pointer_write_end ty name slot.0 v line env heap.old tally.old }
    ensures ready { IsAtWork heap.old.shape heap.new tally.new }
    ensures same_charges { tally.new.charges ≡ tally.old.charges }
{
    let target = match v {
        Value::Null => None,
        Value::Record(target) => Some(target),
        _ => return End::Trap(TrapKind::Null, line),
    };
    if !heap.fits(name, slot, target) {
        return End::Trap(TrapKind::Null, line);
    }
    if !heap.set_pointer(name, slot, target) {
        return End::Trap(TrapKind::InDegree, line);
    }
    tally.counts.pointer_writes += 1;
    End::Normal
}
