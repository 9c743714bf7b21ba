//! Lists of places that grow.

ghost use Rattle.std.specs.Prelude.{◌≡◌, ◌+◌, ◌^◌, ◌<◌, ◌≤◌, length, IfOk, OnOk, IfSome};
ghost use Rattle.pst_order.specs.Places.{IsIn};
ghost use Rattle.pst_rows_bed.specs.Beds.{AreIn};

use pst_base::NoMemory;
use pst_order::{Order, Pos};
use std::alloc::Global;

/// Inserts so many places, each directly behind the first one. Gives them, the last inserted last.
///
/// # Errors
/// Want of memory.
pub fn insert_behind_first<O: Order>(
    alloc: Global,
    order: &mut O,
    count: u32,
) -> Result<Vec<Pos>, NoMemory>
    requires few { length (O.places order.old) + count ≤ 2 ^ 30 }
    ensures known { IfOk result (λ places. AreIn (O.places order.new) places.items) }
    ensures count { IfOk result (λ places. length places.items ≡ count) }
{
    let mut places = Vec::new(alloc);
    for k in 0..count {
        let first = order.first();
        let place = order.insert_after(first)?;
        places.push(place)?;
    }
    Ok(places)
}

/// Inserts so many places, the first one directly behind a place and each other one behind the one before. Gives the last.
///
/// # Errors
/// Want of memory.
pub fn insert_behind<O: Order>(order: &mut O, place: Pos, count: u32) -> Result<Pos, NoMemory>
    requires place { IsIn (O.places order.old) place.0 }
    requires few { length (O.places order.old) + count ≤ 2 ^ 30 }
    ensures last { IfOk result (λ last. IsIn (O.places order.new) last.0) }
    ensures count { OnOk result (length (O.places order.new) ≡ length (O.places order.old) + count) }
{
    let mut last = place;
    for k in 0..count {
        last = order.insert_after(last)?;
    }
    Ok(last)
}

/// Inserts so many places in two orders of one place, each behind one that is picked at random. Gives them in the order in
/// which they then have to stand; nothing, where the orders ever differ in a place.
///
/// # Errors
/// Want of memory.
pub fn insert_at_random<A: Order, B: Order>(
    alloc: Global,
    plain: &mut A,
    quick: &mut B,
    count: u32,
) -> Result<Option<Vec<Pos>>, NoMemory>
    requires plain { length (A.places plain.old) + count ≤ 2 ^ 30 }
    requires quick { length (B.places quick.old) + count ≤ 2 ^ 30 }
    ensures plain { IfOk result (λ found. IfSome found (λ places. AreIn (A.places plain.new) places.items)) }
    ensures quick { IfOk result (λ found. IfSome found (λ places. AreIn (B.places quick.new) places.items)) }
{
    let first = plain.first();
    if quick.first().0 != first.0 {
        return Ok(None);
    }
    let mut places = Vec::new(alloc);
    places.push(first)?;
    let mut random: u64 = 1;
    for k in 0..count {
        random = next_random(random);
        let index = (random >> 33) as usize % places.len();
        let place = places[index];
        let new = plain.insert_after(place)?;
        let same = quick.insert_after(place)?;
        if new.0 != same.0 {
            return Ok(None);
        }
        places.insert(index + 1, new)?;
    }
    Ok(Some(places))
}

/// The next of a row of random numbers, by the linear congruence of Knuth's MMIX.
fn next_random(random: u64) -> u64 {
    random
        .wrapping_mul(6_364_136_223_846_793_005)
        .wrapping_add(1_442_695_040_888_963_407)
}

/// Whether each of some places stands directly behind the one before.
pub fn are_in_order<O: Order>(order: &O, places: &[Pos]) -> bool
    requires { AreIn (O.places order.now) places.now }
{
    for k in 1..places.len() {
        if !order.follows(places[k - 1], places[k]) {
            return false;
        }
    }
    true
}

/// Whether each of some places stands directly before the one before.
pub fn are_reversed<O: Order>(order: &O, places: &[Pos]) -> bool
    requires { AreIn (O.places order.now) places.now }
{
    for k in 1..places.len() {
        if !order.follows(places[k], places[k - 1]) {
            return false;
        }
    }
    true
}

/// Compares so many times two places that are some way apart, over and over from the begin to the end. Gives how often the
/// first of the two is the earlier one.
pub fn compare_many<O: Order>(order: &O, places: &[Pos], apart: usize, count: u32) -> u32
    requires known { AreIn (O.places order.now) places.now }
    requires some { 0 < length places.now }
{
    let mut earlier: u32 = 0;
    let mut index = 0;
    let mut last = places[0];
    for k in 0..count {
        index = if apart < places.len() - index {
            index + apart
        } else {
            0
        };
        let place = places[index];
        if order.before(last, place) {
            earlier = earlier.wrapping_add(1);
        }
        last = place;
    }
    earlier
}
