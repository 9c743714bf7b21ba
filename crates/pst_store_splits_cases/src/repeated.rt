//! Calls that are refused for want of memory, and made again until they succeed.
//!
//! Where the test below runs with one growth of memory refused, the call that asked for it answers that memory ran out, and
//! is made again. After a refusal a node that could not be split waits, and the next write begins with its split. `.ci/repeated`
//! refuses each growth in turn.

ghost use Rattle.std.specs.Prelude.{◌≡◌, [], All, IfOk, IfSome, IsTrue, OnOk, Some};
ghost use Rattle.std.specs.Option.{option_map};
ghost use Rattle.pst_base.specs.Heap.{FitsField};
ghost use Rattle.pst_base.specs.declared.names.Kind.TheVariants.{Pointer};
ghost use Rattle.pst_versions.specs.State.{Grows, IsOpenFork, Keeps};
ghost use Rattle.pst_store_meaning.specs.declared.place.Place.{Place};
ghost use Rattle.pst_store_meaning.specs.Store.{state_of};
ghost use Rattle.pst_store_splits_cases.specs.Rings.{HasRing, IsStamped};

use crate::making::{FIRST, ITEM, NEXT, SECOND, Trouble, VALUE, start_ring, type_of};
use crate::reading::{Reading, readings};
use pst_base::{Kind, NoMemory, NodeId, RunNo, Shape, VersionNo};
use pst_order::{LabelOrder, Order};
use pst_store::{Started, Store};
use pst_store_arena::Arena;
use pst_store_meaning::place::Place;
use pst_versions::StoreFault;
use std::alloc::Global;

/// How often a call is made at most: one growth is refused, so the second time it succeeds.
const TRIES: u32 = 3;

/// How many versions are made behind that of the ring, each from the one before.
const VERSIONS: u32 = 6;

/// A version with the ring: its number, its place, and the two items.
type Ring = (VersionNo, Place, NodeId, NodeId);

/// A store that is started, over the order list by labels.
type Labelled = Started<LabelOrder, Arena>;

/// The shape of a root record with a pointer, and of items with a number and a pointer: the capacity of an item's node is 4.
fn shape(alloc: Global) -> Result<Shape, NoMemory> {
    let root = type_of(alloc, 0, 1)?;
    let items = type_of(alloc, 1, 1)?;
    Ok(Shape::from_vec(vec![in alloc; root, items]?))
}

/// A new store, with a version in which two items hold each other.
fn start_new(alloc: Global) -> Result<(Labelled, Ring), Trouble>
    ensures { IfOk result (λ made. HasRing (state_of made.0) made.1.2 made.1.3 made.1.1) }
{
    let shape = shape(alloc)?;
    let mut store = Store::empty();
    let ring = start_ring(alloc, &mut store, &shape)?;
    match store.into_started() {
        None => Err(Trouble::Misfit),
        Some(started) => Ok((started, ring)),
    }
}

/// The same, begun anew where it is refused.
fn start_again(alloc: Global) -> Result<(Labelled, Ring), Trouble>
    ensures { IfOk result (λ made. HasRing (state_of made.0) made.1.2 made.1.3 made.1.1) }
{
    for _ in 0..TRIES {
        match start_new(alloc) {
            Ok(made) => return Ok(made),
            Err(Trouble::Memory) => {}
            Err(other) => return Err(other),
        }
    }
    Err(Trouble::Memory)
}

/// An empty list with room for the places of all versions.
fn list_again(alloc: Global) -> Result<Vec<Place>, Trouble>
    ensures { IfOk result (λ places. places.items ≡ []) }
{
    for _ in 0..TRIES {
        match Vec::with_capacity(alloc, VERSIONS as usize + 1) {
            Ok(places) => return Ok(places),
            Err(_) => {}
        }
    }
    Err(Trouble::Memory)
}

/// Forks the place of a version.
fn fork_again<O: Order + Drop>(
    store: &mut Started<O, Arena>,
    version: VersionNo,
    from: Place,
) -> Result<Place, Trouble>
    ensures stamped { IfOk result (λ at. IsStamped (state_of store.old) from at (state_of store.new)) }
    ensures open { IfOk result (λ at. IsOpenFork (state_of store.new) at from) }
{
    for _ in 0..TRIES {
        store.whole();
        if store.place_of(version) != Some(from) || !store.has_room() {
            return Err(Trouble::Misfit);
        }
        match store.make_fork(from) {
            Ok(at) => return Ok(at),
            Err(_) => {}
        }
    }
    Err(Trouble::Memory)
}

/// Writes the number of an item at a fork.
fn number_again<O: Order + Drop>(
    store: &mut Started<O, Arena>,
    at: Place,
    item: NodeId,
    n: i64,
) -> Result<(), Trouble>
    requires open { (from : Place) × IsOpenFork (state_of store.old) at from }
    requires live { (state_of store.old).live at item }
    ensures { Keeps (state_of store.old) (state_of store.new) }
{
    for _ in 0..TRIES {
        store.whole();
        if store.kind(at, item, VALUE) != Some(Kind::Int) || !store.has_room() {
            return Err(Trouble::Misfit);
        }
        match store.write_number(at, item, VALUE, n) {
            Ok(()) => return Ok(()),
            Err(_) => {}
        }
    }
    Err(Trouble::Memory)
}

/// Whether a field that leads to items can hold this.
fn is_item<O: Order + Drop>(store: &Started<O, Arena>, at: Place, to: Option<NodeId>) -> bool
    requires { IfSome to ((state_of store.now).live at) }
    ensures { IsTrue result → FitsField ((state_of store.now).heap at) (Some (Pointer ITEM)) (option_map (state_of store.now).name to) }
{
    match to {
        None => true,
        Some(q) => store.ty(q) == ITEM,
    }
}

/// Writes the pointer of an item at a fork.
fn pointer_again<O: Order + Drop>(
    store: &mut Started<O, Arena>,
    at: Place,
    item: NodeId,
    to: Option<NodeId>,
) -> Result<(), Trouble>
    requires open { (from : Place) × IsOpenFork (state_of store.old) at from }
    requires live { (state_of store.old).live at item }
    requires target { IfSome to ((state_of store.old).live at) }
    ensures { Keeps (state_of store.old) (state_of store.new) }
{
    for _ in 0..TRIES {
        store.whole();
        if store.kind(at, item, NEXT) != Some(Kind::Pointer(ITEM))
            || !is_item(store, at, to)
            || !store.has_room()
        {
            return Err(Trouble::Misfit);
        }
        match store.point(at, item, NEXT, to) {
            Ok(()) => return Ok(()),
            Err(StoreFault::InDegree) => return Err(Trouble::InDegree),
            Err(StoreFault::Memory) => {}
        }
    }
    Err(Trouble::Memory)
}

/// Makes a fork of a version's place the next version.
fn publish_again<O: Order + Drop>(
    store: &mut Started<O, Arena>,
    version: VersionNo,
    from: Place,
    at: Place,
) -> Result<VersionNo, Trouble>
    requires { IsOpenFork (state_of store.old) at from }
    ensures { OnOk result (Grows (state_of store.old) (state_of store.new)) }
{
    for _ in 0..TRIES {
        if store.place_of(version) != Some(from) {
            return Err(Trouble::Misfit);
        }
        match store.make_version(version, RunNo(2), at) {
            Ok(next) => return Ok(next),
            Err(_) => {}
        }
    }
    Err(Trouble::Memory)
}

/// Makes the next version of the ring: the first item's number is `n` there, and the second one's `-n`. The first item holds the
/// second one where `n` is even, and nothing where it is odd.
fn next_version<O: Order + Drop>(
    store: &mut Started<O, Arena>,
    ring: Ring,
    n: u32,
) -> Result<Ring, Trouble>
    requires { HasRing (state_of store.old) ring.2 ring.3 ring.1 }
    ensures stamped { IfOk result (λ next. IsStamped (state_of store.old) ring.1 next.1 (state_of store.new)) }
    ensures first { IfOk result (λ next. next.2 ≡ ring.2) }
    ensures second { IfOk result (λ next. next.3 ≡ ring.3) }
{
    let (version, from, first, second) = ring;
    let at = fork_again(store, version, from)?;
    let number = i64::from(n);
    number_again(store, at, first, number)?;
    number_again(store, at, second, -number)?;
    let to = if n % 2 == 0 { Some(second) } else { None };
    pointer_again(store, at, first, to)?;
    let next = publish_again(store, version, from, at)?;
    Ok((next, at, first, second))
}

/// Makes all versions behind that of the ring, and puts the places of all into an empty list that has room for them.
fn make_versions<O: Order + Drop>(
    store: &mut Started<O, Arena>,
    ring: Ring,
    places: &mut Vec<Place>,
) -> Result<(), Trouble>
    requires ring { HasRing (state_of store.old) ring.2 ring.3 ring.1 }
    requires empty { places.old.items ≡ [] }
    ensures { OnOk result (All (HasRing (state_of store.new) ring.2 ring.3) places.new.items) }
{
    let mut last = ring;
    for n in 1..=VERSIONS {
        let next = next_version(store, last, n)?;
        match places.push(last.1) {
            Ok(()) => {}
            Err(_) => return Err(Trouble::Memory),
        }
        last = next;
    }
    match places.push(last.1) {
        Ok(()) => Ok(()),
        Err(_) => Err(Trouble::Memory),
    }
}

/// What the two items read at each place.
fn read_again<O: Order + Drop>(
    alloc: Global,
    store: &Started<O, Arena>,
    places: &[Place],
    ring: Ring,
) -> Result<Vec<(Reading, Reading)>, Trouble>
    requires { All (HasRing (state_of store.now) ring.2 ring.3) places.now }
{
    for _ in 0..TRIES {
        match readings(alloc, store, places, ring.2, ring.3) {
            Ok(read) => return Ok(read),
            Err(Trouble::Memory) => {}
            Err(other) => return Err(other),
        }
    }
    Err(Trouble::Memory)
}

/// Makes all versions of a ring in a store, and reads them.
fn try_store(
    alloc: Global,
    store: &mut Labelled,
    ring: Ring,
) -> Result<Vec<(Reading, Reading)>, Trouble>
    requires { HasRing (state_of store.old) ring.2 ring.3 ring.1 }
{
    let mut places = list_again(alloc)?;
    make_versions(store, ring, &mut places)?;
    read_again(alloc, store, places.as_slice(), ring)
}

#[test]
fn what_was_refused_and_called_again_reads_as_if_nothing_had_been(
    rt: HostRuntime,
) -> Result<(), Trouble> {
    let alloc = rt.alloc();
    let (mut store, ring) = start_again(alloc)?;
    let read = try_store(alloc, &mut store, ring)?;
    // The first item's number and what it holds, and the same of the second one, which holds the first one everywhere.
    assert_eq!(rt; read.len(), 7);
    for n in 0..7 {
        let held = if n % 2 == 0 { Some(SECOND) } else { None };
        let wanted = ((n as i64, held), (-(n as i64), Some(FIRST)));
        assert!(rt; read.get(n) == Some(&wanted));
    }
    assert_eq!(rt; store.count(), 8);
    assert!(rt; !store.pending());
    // The nodes of the root record, of the two items, and those of the splits.
    assert!(rt; store.node_count() > 3);
    Ok(())
}
