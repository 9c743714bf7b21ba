//! The positions of places in an order list.

ghost use Rattle.std.specs.Prelude.{◌≡◌, ◌<◌, ◌^◌, IfOk, length};
ghost use Rattle.pst_image_pack.specs.Positions.{ArePositions, position_in};

use pst_base::NoMemory;
use pst_order::{Pos, Walked};
use std::alloc::Global;

/// How many places an order list has.
fn count_of<O: Walked>(order: &O) -> u32
    requires few { length (O.places order.now) < 2 ^ 32 }
    ensures { result ≡ length (O.places order.now) }
{
    let mut count = 1;
    let mut place = order.first();
    while let Some(next) = order.next(place) {
        place = next;
        count += 1;
    }
    count
}

/// The position of each place in an order list, by the place's number. It takes time by the number of places.
///
/// # Errors
/// Where there was no memory.
pub fn positions_of<O: Walked>(alloc: Global, order: &O) -> Result<Vec<u32>, NoMemory>
    requires few { length (O.places order.now) < 2 ^ 32 }
    ensures { IfOk result (λ positions. ArePositions (O.places order.now) positions.items) }
{
    let count = count_of(order);
    order.numbered();
    let mut positions = vec![in alloc; count; count as usize]?;
    let mut place = order.first();
    for position in 0..count {
        positions[place.0 as usize] = position;
        if let Some(next) = order.next(place) {
            place = next;
        }
    }
    Ok(positions)
}

/// The position of a place.
pub fn position(positions: &[u32], place: Pos) -> u32
    requires few { length positions.now < 2 ^ 32 }
    ensures position { result ≡ position_in positions.now place.0 }
    ensures fits { result < 2 ^ 32 }
{
    match positions.get(place.0 as usize) {
        Some(position) => *position,
        None => positions.len() as u32,
    }
}

/// How many places a table of positions is of.
pub fn place_count(positions: &[u32]) -> u32
    requires few { length positions.now < 2 ^ 32 }
    ensures count { result ≡ length positions.now }
    ensures fits { result < 2 ^ 32 }
{
    positions.len() as u32
}
