//! The statements that hold no other statement.

ghost use Rattle.std.specs.Prelude.{◌≡◌, ◌+◌, ◌≤◌, ◌<◌, IfOk, OnOk, slice_set};
ghost use Rattle.pst_program.specs.Meaning.{is_target};
ghost use Rattle.pst_program.specs.View.{action_of};
ghost use Rattle.pst_eval.specs.Work.{ending_with, IsAtWork, IsCharged};
ghost use Rattle.pst_eval.specs.Ends.{IsSimple, IsStepEnd, local_end, root_end, store_end, element_store_end, element_write_end, indexed_write_end, make_end, print_end, return_end};

use crate::tally::{End, Tally};
use crate::values::{element_slot, index_of, number, value};
use crate::writes::write;
use pst_base::{Name, NoMemory, ROOT, SlotNo, TrapKind, TypeNo, TypeShape};
use pst_heap::PlainHeap;
use pst_program::{MOST_PRINTED, Typed, TypedForm, Value};

/// Carries out a statement that holds no other and calls nothing.
///
/// # Errors
/// Where there was no memory.
pub fn step(
    form: &TypedForm,
    line: u32,
    env: &mut Vec<Value>,
    heap: &mut PlainHeap,
    tally: &mut Tally,
) -> Result<End, NoMemory>
    requires simple { IsSimple (action_of form.now) }
    requires ready { IsAtWork heap.old.shape heap.old tally.old }
    ensures meaning { IfOk result (λ end. IsStepEnd form.now line env.old.items heap.old tally.old (ending_with end env.new.items heap.new tally.new)) }
    ensures ready { OnOk result (IsAtWork heap.old.shape heap.new tally.new) }
    ensures fewer { OnOk result (tally.new.charges ≤ tally.old.charges) }
{
    match form {
        TypedForm::Set { local, value } => Ok(set_local(*local, value, line, env, heap, tally)),
        TypedForm::SetRoot { field, value } => Ok(set_root(*field, value, line, env, heap, tally)),
        TypedForm::Store {
            object,
            field,
            value,
        } => Ok(store_field(object, *field, value, line, env, heap, tally)),
        TypedForm::StoreIndexed {
            object,
            field,
            elements,
            index,
            value,
        } => Ok(store_element(
            object, *field, *elements, index, value, line, env, heap, tally,
        )),
        TypedForm::New { local, ty } => make(*local, *ty, line, env, heap, tally),
        TypedForm::Print(e) => print(e, line, env, heap, tally),
        TypedForm::Return(e) => Ok(give_back(e, line, env, heap, tally)),
        // These hold others, or call.
        TypedForm::If { .. } | TypedForm::While { .. } | TypedForm::Call { .. } => unreachable!(),
    }
}

/// `x = e;` with a local.
fn set_local(
    x: u16,
    e: &Typed,
    line: u32,
    env: &mut Vec<Value>,
    heap: &PlainHeap,
    tally: &mut Tally,
) -> End
    requires ready { IsAtWork heap.now.shape heap.now tally.old }
    ensures meaning { ending_with result env.new.items heap.now tally.new ≡ local_end x e.now line env.old.items heap.now tally.old }
    ensures ready { IsAtWork heap.now.shape heap.now tally.new }
    ensures fewer { tally.new.charges ≤ tally.old.charges }
{
    if !tally.charge() {
        return End::Spent(line);
    }
    match value(e, env, heap) {
        Err(trap) => End::Trap(trap, line),
        Ok(v) => {
            set_at(env, x as usize, v);
            End::Normal
        }
    }
}

/// Sets an element, if it is there.
pub fn set_at(values: &mut Vec<Value>, at: usize, v: Value)
    ensures { values.new.items ≡ slice_set values.old.items at v }
{
    if at < values.len() {
        values[at] = v;
    }
}

/// `g = e;` with a root.
fn set_root(
    slot: SlotNo,
    e: &Typed,
    line: u32,
    env: &[Value],
    heap: &mut PlainHeap,
    tally: &mut Tally,
) -> End
    requires ready { IsAtWork heap.old.shape heap.old tally.old }
    ensures meaning { ending_with result env.now heap.new tally.new ≡ root_end slot.0 e.now line env.now heap.old tally.old }
    ensures ready { IsAtWork heap.old.shape heap.new tally.new }
    ensures fewer { tally.new.charges ≤ tally.old.charges }
{
    if !tally.charge() {
        return End::Spent(line);
    }
    match value(e, env, heap) {
        Err(trap) => End::Trap(trap, line),
        Ok(v) => write(ROOT, slot, v, line, heap, tally),
    }
}

/// `o.f = e;`, where null traps before `e` is evaluated.
fn store_field(
    object: &Typed,
    slot: SlotNo,
    e: &Typed,
    line: u32,
    env: &[Value],
    heap: &mut PlainHeap,
    tally: &mut Tally,
) -> End
    requires ready { IsAtWork heap.old.shape heap.old tally.old }
    ensures meaning { ending_with result env.now heap.new tally.new ≡ store_end object.now slot.0 e.now line env.now heap.old tally.old }
    ensures ready { IsAtWork heap.old.shape heap.new tally.new }
    ensures fewer { tally.new.charges ≤ tally.old.charges }
{
    if !tally.charge() {
        return End::Spent(line);
    }
    match value(object, env, heap) {
        Err(trap) => End::Trap(trap, line),
        Ok(Value::Record(name)) => match value(e, env, heap) {
            Err(trap) => End::Trap(trap, line),
            Ok(v) => write(name, slot, v, line, heap, tally),
        },
        Ok(_) => End::Trap(TrapKind::Null, line),
    }
}

/// `o.f(i) = e;`, where null traps before `i` is evaluated: the slot of the array's first element, and how many there are.
fn store_element(
    object: &Typed,
    slot: SlotNo,
    elements: u8,
    index: &Typed,
    e: &Typed,
    line: u32,
    env: &[Value],
    heap: &mut PlainHeap,
    tally: &mut Tally,
) -> End
    requires ready { IsAtWork heap.old.shape heap.old tally.old }
    ensures meaning { ending_with result env.now heap.new tally.new ≡ element_store_end object.now slot.0 elements index.now e.now line env.now heap.old tally.old }
    ensures ready { IsAtWork heap.old.shape heap.new tally.new }
    ensures fewer { tally.new.charges ≤ tally.old.charges }
{
    if !tally.charge() {
        return End::Spent(line);
    }
    match value(object, env, heap) {
        Err(trap) => End::Trap(trap, line),
        Ok(Value::Record(name)) => {
            write_indexed(name, slot, elements, index, e, line, env, heap, tally)
        }
        _ => End::Trap(TrapKind::Null, line),
    }
}

/// Evaluates the index of an element of a record, whose charge was taken, and writes the element.
fn write_indexed(
    name: Name,
    slot: SlotNo,
    elements: u8,
    index: &Typed,
    e: &Typed,
    line: u32,
    env: &[Value],
    heap: &mut PlainHeap,
    tally: &mut Tally,
) -> End
    requires ready { IsCharged heap.old.shape heap.old tally.old }
    ensures meaning { ending_with result env.now heap.new tally.new ≡ indexed_write_end name slot.0 elements index.now e.now line env.now heap.old tally.old }
    ensures ready { IsAtWork heap.old.shape heap.new tally.new }
    ensures same_charges { tally.new.charges ≡ tally.old.charges }
{
    match value(index, env, heap) {
        Err(trap) => End::Trap(trap, line),
        Ok(index) => {
            let index = index_of(elements, number(index));
            write_element(name, slot, index, e, line, env, heap, tally)
        }
    }
}

/// Writes an element of a record, whose charge was taken. A number that is no index traps before `e` is evaluated.
fn write_element(
    name: Name,
    slot: SlotNo,
    index: Option<u8>,
    e: &Typed,
    line: u32,
    env: &[Value],
    heap: &mut PlainHeap,
    tally: &mut Tally,
) -> End
    requires ready { IsCharged heap.old.shape heap.old tally.old }
    ensures meaning { ending_with result env.now heap.new tally.new ≡ element_write_end name slot.0 index e.now line env.now heap.old tally.old }
    ensures ready { IsAtWork heap.old.shape heap.new tally.new }
    ensures same_charges { tally.new.charges ≡ tally.old.charges }
{
    heap.known();
    match index {
        None => End::Trap(TrapKind::Index, line),
        Some(index) => match value(e, env, heap) {
            Err(trap) => End::Trap(trap, line),
            Ok(v) => write(name, element_slot(slot, index), v, line, heap, tally),
        },
    }
}

/// `x = new T;`.
fn make(
    x: u16,
    ty: TypeNo,
    line: u32,
    env: &mut Vec<Value>,
    heap: &mut PlainHeap,
    tally: &mut Tally,
) -> Result<End, NoMemory>
    requires ready { IsAtWork heap.old.shape heap.old tally.old }
    ensures meaning { IfOk result (λ end. ending_with end env.new.items heap.new tally.new ≡ make_end x ty line env.old.items heap.old tally.old) }
    ensures ready { OnOk result (IsAtWork heap.old.shape heap.new tally.new) }
    ensures fewer { OnOk result (tally.new.charges ≤ tally.old.charges) }
{
    if !tally.charge() {
        return Ok(End::Spent(line));
    }
    if !is_target(heap.shape().as_slice(), ty) {
        return Ok(End::Trap(TrapKind::Null, line));
    }
    let name = tally.next_name();
    heap.make(name, ty)?;
    tally.made += 1;
    tally.counts.records += 1;
    set_at(env, x as usize, Value::Record(name));
    Ok(End::Normal)
}

/// Whether a type number is that of a record type other than the root's.
fn is_target(shape: &[TypeShape], ty: TypeNo) -> bool
    ensures { result ≡ is_target shape.now ty }
{
    0 < ty.0 && (ty.0 as usize) < shape.len()
}

/// `print e;`.
fn print(
    e: &Typed,
    line: u32,
    env: &[Value],
    heap: &PlainHeap,
    tally: &mut Tally,
) -> Result<End, NoMemory>
    requires ready { IsAtWork heap.now.shape heap.now tally.old }
    ensures meaning { IfOk result (λ end. ending_with end env.now heap.now tally.new ≡ print_end e.now line env.now heap.now tally.old) }
    ensures ready { OnOk result (IsAtWork heap.now.shape heap.now tally.new) }
    ensures fewer { OnOk result (tally.new.charges ≤ tally.old.charges) }
{
    if !tally.charge() {
        return Ok(End::Spent(line));
    }
    match value(e, env, heap) {
        Err(trap) => Ok(End::Trap(trap, line)),
        Ok(v) => {
            if tally.printed.len() >= MOST_PRINTED {
                return Ok(End::Trap(TrapKind::Output, line));
            }
            tally.printed.push(number(v))?;
            Ok(End::Normal)
        }
    }
}

/// `return;` or `return e;`.
fn give_back(
    e: &Option<Typed>,
    line: u32,
    env: &[Value],
    heap: &PlainHeap,
    tally: &mut Tally,
) -> End
    requires ready { IsAtWork heap.now.shape heap.now tally.old }
    ensures meaning { ending_with result env.now heap.now tally.new ≡ return_end e.now line env.now heap.now tally.old }
    ensures ready { IsAtWork heap.now.shape heap.now tally.new }
    ensures fewer { tally.new.charges ≤ tally.old.charges }
{
    if !tally.charge() {
        return End::Spent(line);
    }
    match e {
        None => End::Return(None),
        Some(e) => match value(e, env, heap) {
            Err(trap) => End::Trap(trap, line),
            Ok(v) => End::Return(Some(v)),
        },
    }
}
