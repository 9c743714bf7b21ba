//! Work on the lists of a row.

ghost use Rattle.std.specs.Prelude.{◌≡◌, ◌+◌, ◌^◌, ◌<◌, ◌≤◌, [], nat_lt, max, All, OnOk, length, get_or, filter};
ghost use Rattle.pst_order.specs.Places.{rank};
ghost use Rattle.pst_rows.specs.Steps.{places_of, AreRaised, IsMiddleFrom};
ghost use Rattle.pst_rows.specs.Values.{room_for};

use crate::cells::Cells;
use crate::content::Stamp;
use pst_base::{NoMemory, SlotNo};
use pst_order::{Order, PlaceList, Pos};
use std::cmp::Ordering;

/// The places of stamps.
#[derive(Drop)]
pub struct StampPlaces<'a> {
    pub stamps: &'a [Stamp],
}

impl<'a> PlaceList for StampPlaces<'a> {
    ghost numbers = { λ s. places_of s.stamps.now };

    #[inline]
    fn place(&self, index: usize) -> Pos {
        place_at(self.stamps, index)
    }
}

/// The place of a stamp.
#[inline]
fn place_at(stamps: &[Stamp], index: usize) -> Pos
    requires { index < length stamps.now }
    ensures { result.0 ≡ get_or (places_of stamps.now) index 0 }
{
    stamps[index].place()
}

/// Where a slot's stamps are, and of these the ones that are not after a place: those before `index`.
#[derive(Clone, Copy)]
pub struct Located {
    pub start: usize,
    pub index: usize,
    pub stop: usize,
}

/// Two places: between them lies what is looked for.
#[derive(Clone, Copy)]
pub struct Bounds {
    pub low: Pos,
    pub high: Pos,
}

/// Where the middle of the stamps lies as seen from a place: before it (`Less`) where more than half of them lie before it,
/// behind it (`Greater`) where more than half lie behind it, and else at the place. It compares each stamp once.
pub fn middle_from<O: Order>(order: &O, stamps: &[Stamp], at: Pos) -> Ordering
    requires all { All (λ e. rank (O.places order.now) e.place.0 < length (O.places order.now)) stamps.now }
    requires at { rank (O.places order.now) at.0 < length (O.places order.now) }
    ensures { IsMiddleFrom (rank (O.places order.now)) stamps.now (rank (O.places order.now) at.0) result }
{
    let mut before = 0;
    let mut after = 0;
    for stamp in stamps {
        let place = stamp.place();
        if order.before(place, at) {
            before += 1;
        } else if place != at {
            after += 1;
        }
    }
    let half = stamps.len() / 2;
    if before > half {
        Ordering::Less
    } else if after > half {
        Ordering::Greater
    } else {
        Ordering::Equal
    }
}

/// Puts the stamps after a place behind the others.
///
/// # Errors
/// Where there was no memory.
pub fn put_after<O: Order>(
    cells: &mut Cells,
    order: &O,
    stamps: &[Stamp],
    at: Pos,
) -> Result<(), NoMemory>
    requires all { All (λ e. rank (O.places order.now) e.place.0 < length (O.places order.now)) stamps.now }
    requires at { rank (O.places order.now) at.0 < length (O.places order.now) }
    requires none { cells.old.stamps ≡ [] }
    ensures slots { cells.new.slots ≡ cells.old.slots }
    ensures stamps { OnOk result (cells.new.stamps ≡ filter (λ e. nat_lt (rank (O.places order.now) at.0) (rank (O.places order.now) e.place.0)) stamps.now) }
    ensures room { OnOk result (cells.new.capacity ≤ max cells.old.capacity (room_for (length cells.new.slots) (length cells.new.stamps))) }
    ensures few { OnOk result (length cells.new.stamps ≤ length stamps.now) }
{
    for later in stamps {
        if order.before(at, later.place()) {
            cells.push(*later)?;
        }
    }
    Ok(())
}

/// Each slot behind one has so many stamps more before it.
pub fn raise_starts(cells: &mut Cells, slot: SlotNo, count: u32)
    requires few { All (λ s. s.start + count < 2 ^ 32) cells.old.slots }
    ensures slots { AreRaised cells.old.slots cells.new.slots slot.0 count }
    ensures stamps { cells.new.stamps ≡ cells.old.stamps }
    ensures capacity { cells.new.capacity ≡ cells.old.capacity }
{
    for later in usize::from(slot.0) + 1..cells.width() {
        let start = cells.start(later);
        cells.set_start(later, start + count);
    }
}
