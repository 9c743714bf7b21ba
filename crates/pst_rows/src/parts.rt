//! Slots and stamps that are made of their parts. One walk over the stamps counts those of each slot, and one over the slots adds
//! the counts up.

ghost use Rattle.std.specs.Prelude.{◌≡◌, ◌-◌, ◌^◌, ◌<◌, ◌≤◌, [], max, IfOk, OnOk, length, map, get_or};
ghost use Rattle.pst_rows.specs.Values.{no_slot, room_for};
ghost use Rattle.pst_rows.specs.Parts.{slots_from, bare_slot, AreCounted, AreBare, AreUncounted, IsCountedOnce};
ghost use Rattle.pst_rows.specs.Steps.{AreRecounted};

use crate::cells::Cells;
use crate::content::{Content, Stamp};
use pst_base::NoMemory;
use std::alloc::Global;

/// Slots with these contents, and these stamps. It takes a time that grows with the count of both.
///
/// # Errors
/// Where there was no memory.
pub fn cells_of(alloc: Global, bases: &[Content], stamps: &[Stamp]) -> Result<Cells, NoMemory>
    requires { length stamps.now < 2 ^ 32 }
    ensures slots { IfOk result (λ cells. cells.slots ≡ slots_from stamps.now 0 bases.now) }
    ensures stamps { IfOk result (λ cells. cells.stamps ≡ stamps.now) }
    ensures room { IfOk result (λ cells. cells.capacity ≤ room_for (length bases.now) (length stamps.now)) }
{
    let mut cells = Cells::with_capacity(alloc, bases.len() + stamps.len())?;
    put_bare(&mut cells, bases)?;
    put_stamps(&mut cells, stamps)?;
    recount(&mut cells);
    Ok(cells)
}

// Puts slots with these contents, and no stamp counted.
fn put_bare(cells: &mut Cells, bases: &[Content]) -> Result<(), NoMemory>
    requires slots { cells.old.slots ≡ [] }
    requires stamps { cells.old.stamps ≡ [] }
    ensures slots { OnOk result (cells.new.slots ≡ map bare_slot bases.now) }
    ensures stamps { OnOk result (cells.new.stamps ≡ []) }
    ensures room { OnOk result (cells.new.capacity ≤ max cells.old.capacity (length bases.now)) }
{
    for base in bases {
        cells.push_slot(*base)?;
    }
    Ok(())
}

// Puts these stamps.
fn put_stamps(cells: &mut Cells, stamps: &[Stamp]) -> Result<(), NoMemory>
    requires { cells.old.stamps ≡ [] }
    ensures slots { OnOk result (cells.new.slots ≡ cells.old.slots) }
    ensures stamps { OnOk result (cells.new.stamps ≡ stamps.now) }
    ensures room { OnOk result (cells.new.capacity ≤ max cells.old.capacity (room_for (length cells.old.slots) (length stamps.now))) }
{
    for stamp in stamps {
        cells.push(*stamp)?;
    }
    Ok(())
}

/// Forgets where the stamps of each slot begin: none is counted.
pub fn forget_starts(cells: &mut Cells)
    ensures slots { AreUncounted cells.old.slots cells.new.slots }
    ensures stamps { cells.new.stamps ≡ cells.old.stamps }
    ensures capacity { cells.new.capacity ≡ cells.old.capacity }
{
    for slot in 0..cells.width() {
        cells.set_start(slot, 0);
    }
}

/// Counts where the stamps of each slot begin, of which none is counted yet.
pub fn recount(cells: &mut Cells)
    requires { AreBare cells.old.slots }
    ensures slots { AreRecounted cells.old.slots cells.new.slots cells.old.stamps }
    ensures stamps { cells.new.stamps ≡ cells.old.stamps }
    ensures capacity { cells.new.capacity ≡ cells.old.capacity }
{
    count_own(cells);
    add_up(cells);
}

// Counts for each slot its own stamps.
fn count_own(cells: &mut Cells)
    requires { AreBare cells.old.slots }
    ensures slots { AreCounted cells.old.slots cells.new.slots cells.old.stamps }
    ensures stamps { cells.new.stamps ≡ cells.old.stamps }
    ensures capacity { cells.new.capacity ≡ cells.old.capacity }
{
    for index in 0..cells.len() {
        let slot = cells.stamps()[index].slot();
        count_one(cells, usize::from(slot.0));
    }
}

// Counts a stamp of a slot, if the slot is there.
fn count_one(cells: &mut Cells, slot: usize)
    requires { (get_or cells.old.slots slot no_slot).start < 2 ^ 32 - 1 }
    ensures slots { IsCountedOnce cells.old.slots cells.new.slots slot }
    ensures stamps { cells.new.stamps ≡ cells.old.stamps }
    ensures capacity { cells.new.capacity ≡ cells.old.capacity }
{
    if slot >= cells.width() {
        return;
    }
    let start = cells.start(slot);
    cells.set_start(slot, start + 1);
}

// From how many stamps each slot has, where they begin: behind those of the slots before it.
fn add_up(cells: &mut Cells)
    requires { AreCounted cells.old.slots cells.old.slots cells.old.stamps }
    ensures slots { AreRecounted cells.old.slots cells.new.slots cells.old.stamps }
    ensures stamps { cells.new.stamps ≡ cells.old.stamps }
    ensures capacity { cells.new.capacity ≡ cells.old.capacity }
{
    let _few = cells.len();
    let mut before = 0;
    for slot in 0..cells.width() {
        let own = cells.start(slot);
        cells.set_start(slot, before);
        before += own;
    }
}
