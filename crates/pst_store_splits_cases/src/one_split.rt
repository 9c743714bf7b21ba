//! The repair of a node that is far over its capacity, without any other beside it.

ghost use Rattle.std.specs.Prelude.{◌≡◌, ◌∷◌, [], All, IfOk};
ghost use Rattle.pst_store_meaning.specs.Store.{state_of};
ghost use Rattle.pst_store_splits_cases.specs.Rings.{HasRing, IsStamped};

use crate::making::{FIRST, SECOND, Trouble, VALUE, start_ring, type_of};
use crate::reading::{Reading, readings};
use pst_base::{Kind, NoMemory, NodeId, Shape, VersionNo};
use pst_order::Order;
use pst_store::{Started, Store};
use pst_store_arena::Arena;
use pst_store_meaning::place::Place;
use std::alloc::Global;

/// The number of forks at which the first item's number is written, which stamps two values each time.
const FORKS: u32 = 12;

/// The store before and after the repair.
#[derive(Drop)]
struct Trial {
    before: Vec<(Reading, Reading)>,
    after: Vec<(Reading, Reading)>,
    waited: [bool; 2],
    nodes: [u64; 2],
    potential: [u64; 2],
}

/// Forks the place of a version, and writes the number of an item at the fork, without repairs.
fn stamp<O: Order + Drop>(
    store: &mut Started<O, Arena>,
    version: VersionNo,
    from: Place,
    item: NodeId,
    n: i64,
) -> Result<Place, Trouble>
    requires { (state_of store.old).live from item }
    ensures { IfOk result (λ at. IsStamped (state_of store.old) from at (state_of store.new)) }
{
    store.whole();
    if store.place_of(version) != Some(from) || !store.has_room() {
        return Err(Trouble::Misfit);
    }
    let at = store.make_fork(from)?;
    if store.kind(at, item, VALUE) != Some(Kind::Int) || !store.has_room() {
        return Err(Trouble::Misfit);
    }
    store.stamp_number(at, item, VALUE, n)?;
    Ok(at)
}

/// A list of one place.
fn list_of(alloc: Global, place: Place) -> Result<Vec<Place>, NoMemory>
    ensures { IfOk result (λ places. places.items ≡ place ∷ []) }
{
    Ok(vec![in alloc; place]?)
}

/// Stamps the number of the first item at so many forks: 1, 2 and so on. It answers the version's place and then the forks.
fn stamp_all<O: Order + Drop>(
    alloc: Global,
    store: &mut Started<O, Arena>,
    version: VersionNo,
    from: Place,
    first: NodeId,
    second: NodeId,
) -> Result<Vec<Place>, Trouble>
    requires { HasRing (state_of store.old) first second from }
    ensures { IfOk result (λ places. All (HasRing (state_of store.new) first second) places.items) }
{
    let mut places = list_of(alloc, from)?;
    for n in 0..FORKS {
        let at = stamp(store, version, from, first, i64::from(n) + 1)?;
        match places.push(at) {
            Ok(()) => {}
            Err(_) => return Err(Trouble::Memory),
        }
    }
    Ok(places)
}

/// Stamps the first item of a ring at the forks of its version, and then splits what waits.
fn split<O: Order + Drop>(
    alloc: Global,
    store: &mut Started<O, Arena>,
    ring: (VersionNo, Place, NodeId, NodeId),
) -> Result<Trial, Trouble>
    requires { HasRing (state_of store.old) ring.2 ring.3 ring.1 }
{
    let places = stamp_all(alloc, store, ring.0, ring.1, ring.2, ring.3)?;
    let before = readings(alloc, store, places.as_slice(), ring.2, ring.3)?;
    let nodes = store.node_count();
    let potential = store.potential();
    let waited = store.pending();
    store.repair()?;
    let after = readings(alloc, store, places.as_slice(), ring.2, ring.3)?;
    Ok(Trial {
        before,
        after,
        waited: [waited, store.pending()],
        nodes: [nodes, store.node_count()],
        potential: [potential, store.potential()],
    })
}

/// The shape of a root record with a pointer, and of items with a number and a pointer: the capacity of an item's node is 10.
fn shape(alloc: Global) -> Result<Shape, NoMemory> {
    let root = type_of(alloc, 0, 1)?;
    let items = type_of(alloc, 1, 4)?;
    Ok(Shape::from_vec(vec![in alloc; root, items]?))
}

/// The same over a new store.
fn split_new(alloc: Global) -> Result<Trial, Trouble> {
    let shape = shape(alloc)?;
    let mut store = Store::empty();
    let ring = start_ring(alloc, &mut store, &shape)?;
    match store.into_started() {
        None => Err(Trouble::Misfit),
        Some(mut started) => split(alloc, &mut started, ring),
    }
}

#[test]
fn a_repair_keeps_what_a_ring_reads_at_a_version_and_its_forks(
    rt: HostRuntime,
) -> Result<(), Trouble> {
    let trial = split_new(rt.alloc())?;
    assert!(rt; trial.waited == [true, false]);
    assert!(rt; trial.before.as_slice() == trial.after.as_slice());
    // The first item's number is 0 at the version and 1 to 12 at its forks; the second one's is 0 everywhere.
    assert_eq!(rt; trial.after.len(), 13);
    for n in 0..13 {
        let wanted = ((n as i64, Some(SECOND)), (0, Some(FIRST)));
        assert!(rt; trial.after.get(n) == Some(&wanted));
    }
    // 24 values are stamped in the first item's node, whose capacity is 10: one split leaves more in one of its halves than that, so
    // that it takes two splits at least. 19 of them are above the half of the capacity, and each split lowers that by 1 at least.
    assert_eq!(rt; trial.nodes[0], 3);
    assert!(rt; trial.nodes[1] >= 5);
    assert_eq!(rt; trial.potential[0], 19);
    assert!(rt; trial.potential[1].saturating_add(trial.nodes[1].saturating_sub(3)) <= 19);
    Ok(())
}
