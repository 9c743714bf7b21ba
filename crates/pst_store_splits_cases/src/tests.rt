//! What no clause says: that the calls which take memory succeed, and that the clauses mean what is meant.

ghost use Rattle.std.specs.Prelude.{◌≡◌, All, IfOk, IfSome, None};
ghost use Rattle.pst_store_splits_cases.specs.Trials.{HoldsNumber, IsReady};
ghost use Rattle.pst_store.specs.Whole.{state_in};

use crate::making::{FIRST, ITEM, SECOND, has_kind, type_of};
use pst_base::{Kind, NoMemory, NodeId, RunNo, Shape, SlotNo, TypeNo, VersionNo};
use pst_order::Order;
use pst_store::{Store, StoreOf};
use pst_store_arena::FatNodes;
use pst_store_meaning::place::Place;
use pst_versions::{HeapAt, StoreFault, VersionedHeap, fork_and_link};
use std::alloc::Global;

/// The type of the root record.
const ROOT: TypeNo = TypeNo(0);

/// The field of the root record that holds a number, and the one of an item that holds an item.
const NUMBER: SlotNo = SlotNo(0);

const NEXT: SlotNo = SlotNo(0);

/// Forks a place so many times, and writes another number into a field of the root record at each fork: 0, 1 and so on.
fn write_at_forks<H: VersionedHeap>(
    alloc: Global,
    heap: &mut H,
    from: H::Place,
    field: SlotNo,
    times: u32,
) -> Result<Vec<H::Place>, NoMemory>
    requires { IsReady (H.state heap.old) from field.0 times }
    ensures written { IfOk result (λ places. All (HoldsNumber (H.state heap.new) field.0) places.items) }
    ensures stays { IfOk result (λ _. HoldsNumber (H.state heap.new) field.0 from) }
{
    let mut places = Vec::new(alloc);
    for n in 0..times {
        let at = heap.fork(from)?;
        let r = heap.root(at);
        heap.store_value(at, r, field, i64::from(n))?;
        places.push(at)?;
    }
    Ok(places)
}

/// The number in a field of the root record, at a place.
fn number<H: HeapAt>(heap: &H, at: H::Place, field: SlotNo) -> i64
    requires { HoldsNumber (H.state heap.now) field.0 at }
{
    let r = heap.root(at);
    heap.load_value(at, r, field)
}

/// The number in a field of the root record, at each place.
fn numbers<H: HeapAt>(
    alloc: Global,
    heap: &H,
    places: &[H::Place],
    field: SlotNo,
) -> Result<Vec<i64>, NoMemory>
    requires { All (HoldsNumber (H.state heap.now) field.0) places.now }
{
    let mut numbers = Vec::new(alloc);
    for at in places {
        numbers.push(number(heap, *at, field))?;
    }
    Ok(numbers)
}

/// Starts an empty store whose root record has a number, and answers the place of version 0 and the capacity of the root
/// record's nodes.
fn start<O: Order + Drop, N: FatNodes>(
    alloc: Global,
    store: &mut StoreOf<O, N>,
    shape: &Shape,
) -> Result<Option<(Place, u32)>, NoMemory>
    requires { store.old ≡ None }
    ensures { IfOk result (λ started. IfSome started (λ pair. IsReady (state_in store.new) pair.0 NUMBER.0 100)) }
{
    if !shape.is_valid() || !has_kind(shape, ROOT, NUMBER, Kind::Int) {
        return Ok(None);
    }
    store.start(alloc, shape)?;
    let capacity = store.capacity(ROOT);
    match store.place_of(VersionNo(0)) {
        None => Ok(None),
        Some(at) => Ok(Some((at, capacity))),
    }
}

/// The number of forks of version 0 at which a number is written.
const FORKS: u32 = 12;

/// What a store has after numbers were written at forks of version 0.
#[derive(Drop)]
struct Written {
    /// The most stamped values that a node of the root record keeps, and how many nodes there were before the writes.
    capacity: u32,
    nodes_before: u64,
    /// The number at version 0, and at each fork.
    first: i64,
    numbers: Vec<i64>,
    value_writes: u64,
    pending: bool,
    nodes: u64,
    potential: u64,
}

/// Writes at the forks of a place, and answers the number there and those at the forks.
fn write_and_read<H: VersionedHeap>(
    alloc: Global,
    heap: &mut H,
    from: H::Place,
) -> Result<(i64, Vec<i64>), NoMemory>
    requires { IsReady (H.state heap.old) from NUMBER.0 100 }
{
    let places = write_at_forks(alloc, heap, from, NUMBER, FORKS)?;
    let first = number(heap, from, NUMBER);
    Ok((first, numbers(alloc, heap, &places, NUMBER)?))
}

/// The same in an empty store.
fn write_in_new<O: Order + Drop, N: FatNodes>(
    alloc: Global,
    store: &mut StoreOf<O, N>,
    shape: &Shape,
) -> Result<Option<Written>, NoMemory>
    requires { store.old ≡ None }
{
    let Some((from, capacity)) = start(alloc, store, shape)? else {
        return Ok(None);
    };
    let nodes_before = store.nodes();
    let (first, numbers) = write_and_read(alloc, store, from)?;
    Ok(Some(Written {
        capacity,
        nodes_before,
        first,
        numbers,
        value_writes: store.counts().value_writes,
        pending: store.pending(),
        nodes: store.nodes(),
        potential: store.potential(),
    }))
}

/// Starts an empty store, forks version 0, links two items there, and answers the fork and what the first one holds.
fn link<O: Order + Drop, N: FatNodes>(
    alloc: Global,
    store: &mut StoreOf<O, N>,
    shape: &Shape,
) -> Result<Option<(Place, Option<NodeId>)>, StoreFault>
    requires { store.old ≡ None }
{
    if !shape.is_valid() || !has_kind(shape, ITEM, NEXT, Kind::Pointer(ITEM)) {
        return Ok(None);
    }
    store.start(alloc, shape)?;
    match store.place_of(VersionNo(0)) {
        None => Ok(None),
        Some(from) => Ok(Some(fork_and_link(store, from, ITEM, FIRST, SECOND, NEXT)?)),
    }
}

/// Starts an empty store, forks version 0, and publishes the fork by run 7.
fn publish<O: Order + Drop, N: FatNodes>(
    alloc: Global,
    store: &mut StoreOf<O, N>,
    shape: &Shape,
) -> Result<Option<(Place, VersionNo)>, NoMemory>
    requires { store.old ≡ None }
{
    if !shape.is_valid() {
        return Ok(None);
    }
    store.start(alloc, shape)?;
    match store.place_of(VersionNo(0)) {
        None => Ok(None),
        Some(from) => {
            let at = store.fork(from)?;
            let version = store.publish(VersionNo(0), RunNo(7), at)?;
            Ok(Some((at, version)))
        }
    }
}

/// The shape of a root record with a number and a pointer, and of items with a pointer: the capacity of each is 4.
fn shape(alloc: Global) -> Result<Shape, NoMemory> {
    let root = type_of(alloc, 1, 1)?;
    let item = type_of(alloc, 0, 1)?;
    Ok(Shape::from_vec(vec![in alloc; root, item]?))
}

#[test]
fn an_empty_store_has_nothing(rt: HostRuntime) {
    let store = Store::empty();
    assert_eq!(rt; store.nodes(), 0);
    assert_eq!(rt; store.potential(), 0);
    assert!(rt; !store.pending());
    assert_eq!(rt; store.count(), 0);
    assert_eq!(rt; store.counts().records, 0);
}

#[test]
fn each_fork_keeps_its_number_through_the_splits(rt: HostRuntime) -> Result<(), NoMemory> {
    let alloc = rt.alloc();
    let shape = shape(alloc)?;
    let mut store = Store::empty();
    let Some(written) = write_in_new(alloc, &mut store, &shape)? else {
        panic!(rt; "the shape is valid");
    };
    assert_eq!(rt; (written.capacity, written.nodes_before), (4, 1));
    let wanted: [i64; 12] = [0, 1, 2, 3, 4, 5, 6, 7, 8, 9, 10, 11];
    assert_eq!(rt; written.numbers.as_slice(), wanted.as_slice());
    assert_eq!(rt; written.first, 0);
    assert_eq!(rt; (written.value_writes, written.pending), (12, false));
    assert!(rt; 5 <= written.nodes && written.nodes <= 25);
    assert!(rt; written.potential <= 25 - written.nodes);
    Ok(())
}

#[test]
fn two_records_are_linked_at_a_fork(rt: HostRuntime) -> Result<(), StoreFault> {
    let alloc = rt.alloc();
    let shape = shape(alloc)?;
    let mut store = Store::empty();
    let Some((_, held)) = link(alloc, &mut store, &shape)? else {
        panic!(rt; "the shape is valid");
    };
    assert_eq!(rt; held, Some(NodeId(2)));
    assert_eq!(rt; store.nodes(), 3);
    assert_eq!(rt; store.counts().records, 3);
    assert_eq!(rt; store.counts().pointer_writes, 2);
    Ok(())
}

#[test]
fn a_fork_is_published(rt: HostRuntime) -> Result<(), NoMemory> {
    let alloc = rt.alloc();
    let shape = shape(alloc)?;
    let mut store = Store::empty();
    let Some((at, version)) = publish(alloc, &mut store, &shape)? else {
        panic!(rt; "the shape is valid");
    };
    assert_eq!(rt; version, VersionNo(1));
    assert_eq!(rt; store.count(), 2);
    assert_eq!(rt; store.parent(VersionNo(1)), Some(VersionNo(0)));
    assert_eq!(rt; store.place_of(VersionNo(1)), Some(at));
    Ok(())
}
