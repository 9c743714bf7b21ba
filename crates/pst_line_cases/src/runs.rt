//! Runs that write a number and are published, or given up.

ghost use Rattle.std.specs.Prelude.{◌≡◌, ◌+◌, ◌*◌, ℕ, None, Some, IfOk, IsTrue, OnOk};
ghost use Rattle.pst_base.specs.declared.names.Kind.TheVariants.{Int};
ghost use Rattle.pst_base.specs.Shape.{field_kind, type_at, root_type};
ghost use Rattle.pst_line.specs.Held.{state_in, stored_in};
ghost use Rattle.pst_line_cases.specs.Trials.{IsReady, HasWritten};

use pst_base::{Kind, NoMemory, RunNo, Shape, SlotNo, Targets, TypeNo, TypeShape, VersionNo};
use pst_line::calls::LineCalls;
use pst_line::line_store::LineStore;
use pst_line::place::LinePlace;
use std::alloc::Global;

/// The field of the root record that holds a number.
const NUMBER: SlotNo = SlotNo(0);

/// Opens a run and writes a number into a field of the root record.
fn write<S: LineCalls>(store: &mut S, field: SlotNo, n: i64) -> Result<LinePlace, NoMemory>
    requires { (k : ℕ) × IsReady (S.state store.old) (S.stored store.old) field.0 (k + 1) }
    ensures { let s = S.state store.old in (k : ℕ) → IsReady s (S.stored store.old) field.0 (k + 1) → IfOk result (HasWritten s (S.state store.new) field.0 k) }
{
    let at = store.begin();
    store.known();
    let r = store.root(at);
    store.store_value(at, r, field, n)?;
    Ok(at)
}

/// So many times a run writes a number and is published, and another one writes and is given up.
fn run_in_turns<S: LineCalls>(store: &mut S, field: SlotNo, times: u32) -> Result<(), NoMemory>
    requires { IsReady (S.state store.old) (S.stored store.old) field.0 (2 * times) }
    ensures { OnOk result (IsReady (S.state store.new) (S.stored store.new) field.0 0) }
{
    for n in 0..times {
        write(store, field, i64::from(n))?;
        store.publish(RunNo(n + 1))?;
        write(store, field, -1)?;
        store.undo();
    }
    Ok(())
}

/// The number in a field of the root record, at a version.
fn number<S: LineCalls>(store: &S, field: SlotNo, version: VersionNo) -> Option<i64>
    requires { IsReady (S.state store.now) (S.stored store.now) field.0 0 }
{
    match store.at(version) {
        None => None,
        Some(at) => {
            let r = store.root(at);
            Some(store.load_value(at, r, field))
        }
    }
}

/// Whether the root record's first field holds a number.
fn has_number(shape: &Shape) -> bool
    ensures { IsTrue result → field_kind (type_at shape.now root_type) 0 ≡ Some Int }
{
    match shape.as_slice().get(0) {
        None => false,
        Some(root) => root.kind(NUMBER) == Some(Kind::Int),
    }
}

/// Starts an empty store, or answers false where the root record has no number.
fn start(alloc: Global, store: &mut LineStore, shape: &Shape) -> Result<bool, NoMemory>
    requires { store.old ≡ None }
    ensures { IfOk result (λ started. IsTrue started → IsReady (state_in store.new) (stored_in store.new) NUMBER.0 10) }
{
    if !shape.is_valid() || !has_number(shape) {
        return Ok(false);
    }
    store.start(alloc, shape)?;
    store.known_line();
    Ok(true)
}

/// A type with so many numbers, one pointer to an item, and the limit 1: its nodes have at most two stamped values.
fn type_of(alloc: Global, values: u16) -> Result<TypeShape, NoMemory> {
    Ok(TypeShape {
        values,
        targets: Targets::from_vec(vec![in alloc; TypeNo(1)]?),
        limit: 1,
    })
}

/// The shape of a root record with a number and a pointer, and of items with a pointer.
fn shape(alloc: Global) -> Result<Shape, NoMemory> {
    let root = type_of(alloc, 1)?;
    let item = type_of(alloc, 0)?;
    Ok(Shape::from_vec(vec![in alloc; root, item]?))
}

#[test]
fn runs_that_are_given_up_leave_each_version(rt: HostRuntime) -> Result<(), NoMemory> {
    let alloc = rt.alloc();
    let shape = shape(alloc)?;
    let mut store = LineStore::empty();
    if !start(alloc, &mut store, &shape)? {
        panic!(rt; "the root record has a number");
    }
    run_in_turns(&mut store, NUMBER, 5)?;
    assert_eq!(rt; store.count(), 6);
    let wanted: [i64; 6] = [0, 0, 1, 2, 3, 4];
    for v in 0..6 {
        assert_eq!(rt;
            number(&store, NUMBER, VersionNo(v)),
            Some(wanted[v as usize])
        );
    }
    assert_eq!(rt; store.counts().value_writes, 10);
    assert_eq!(rt; store.nodes(), 3);
    assert_eq!(rt; store.potential(), 0);
    Ok(())
}

#[test]
fn an_empty_store_has_nothing(rt: HostRuntime) {
    let store = LineStore::empty();
    assert_eq!(rt; store.nodes(), 0);
    assert_eq!(rt; store.potential(), 0);
    assert_eq!(rt; store.count(), 0);
    assert_eq!(rt; store.counts().records, 0);
}
