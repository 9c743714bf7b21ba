//! What a store that is started reads of a ring.

ghost use Rattle.std.specs.Prelude.{All};
ghost use Rattle.pst_store_meaning.specs.Store.{state_of};
ghost use Rattle.pst_store_splits_cases.specs.Rings.{HasRing};

use crate::making::{NEXT, Trouble, VALUE};
use pst_base::{Kind, Name, NodeId};
use pst_order::Order;
use pst_store::Started;
use pst_store_arena::Arena;
use pst_store_meaning::place::Place;
use std::alloc::Global;

/// What an item of the ring reads at a place: its number, and the name of the item after it.
pub type Reading = (i64, Option<Name>);

/// What an item reads at a place.
fn reading<O: Order + Drop>(
    store: &Started<O, Arena>,
    at: Place,
    item: NodeId,
) -> Result<Reading, Trouble>
    requires { (state_of store.now).live at item }
{
    match (store.kind(at, item, VALUE), store.kind(at, item, NEXT)) {
        (Some(Kind::Int), Some(Kind::Pointer(_))) => {
            let next = match store.pointer(at, item, NEXT) {
                None => None,
                Some(next) => Some(store.name(next)),
            };
            Ok((store.number(at, item, VALUE), next))
        }
        _ => Err(Trouble::Misfit),
    }
}

/// What the two items read at a place.
fn ring_reading<O: Order + Drop>(
    store: &Started<O, Arena>,
    at: Place,
    first: NodeId,
    second: NodeId,
) -> Result<(Reading, Reading), Trouble>
    requires { HasRing (state_of store.now) first second at }
{
    Ok((reading(store, at, first)?, reading(store, at, second)?))
}

/// What the two items read at each place.
pub fn readings<O: Order + Drop>(
    alloc: Global,
    store: &Started<O, Arena>,
    places: &[Place],
    first: NodeId,
    second: NodeId,
) -> Result<Vec<(Reading, Reading)>, Trouble>
    requires { All (HasRing (state_of store.now) first second) places.now }
{
    let mut readings = Vec::new(alloc);
    for at in places {
        match readings.push(ring_reading(store, *at, first, second)?) {
            Ok(()) => {}
            Err(_) => return Err(Trouble::Memory),
        }
    }
    Ok(readings)
}
