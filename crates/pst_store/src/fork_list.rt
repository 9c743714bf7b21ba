//! The forks of a store, in fewer bytes.

use pst_base::NoMemory;
use pst_store_meaning::place::{Fork, Place};
use std::alloc::Global;
use std::marker::Model;

/// A fork. Where it was made from is the place of the fork with a number, or one of the other places.
#[derive(Clone, Copy)]
struct ForkRow {
    place: Place,
    from: u32,
    of_fork: bool,
    published: bool,
}

/// The forks, in the order of their numbers. Almost each is made from the place of another fork, which bears that one's number, so
/// that the number stands for the place: a fork takes 20 bytes in place of 28.
#[derive(Drop)]
pub struct ForkList {
    rows: Vec<ForkRow>,
    // The other places that forks were made from: mostly the start of the store alone.
    others: Vec<Place>,
}

impl Model for ForkList {
    ghost use Rattle.std.specs.Prelude.{length, min, ◌-◌, vec_capacity};
    ghost use Rattle.pst_store.specs.ForkLists.{Held, forks_of, AreCoded};

    ghost Value = { Held };

    ghost view = { λ f. record { forks = forks_of f.rows.items f.others.items; room = min (vec_capacity f.rows - length f.rows.items) (vec_capacity f.others - length f.others.items) } };

    ghost invariant = { λ f. AreCoded f.rows.items f.others.items };
}

impl ForkList {
    ghost use Rattle.std.specs.Prelude.{◌≡◌, ◌+◌, ◌<◌, ◌≤◌, ◌^◌, [], ◌∷◌, ◌++◌, length, IfOk, OnOk};
    ghost use Rattle.pst_store.specs.ForkLists.{IsForkPublished};

    /// No forks, and no memory taken.
    pub fn new(alloc: Global) -> ForkList
        ensures { result.forks ≡ [] }
    {
        ForkList {
            rows: Vec::new(alloc),
            others: Vec::new(alloc),
        }
    }

    /// The forks of a list. `NoMemory` where there is none for them.
    ///
    /// # Errors
    /// Where there was no memory.
    pub fn of_list(alloc: Global, forks: &[Fork]) -> Result<ForkList, NoMemory>
        requires { length forks.now < 2 ^ 32 }
        ensures { IfOk result (λ list. list.forks ≡ forks.now) }
    {
        let mut list = ForkList::new(alloc);
        for fork in forks {
            list.reserve_one()?;
            list.push(*fork);
        }
        Ok(list)
    }

    /// How many forks there are.
    #[inline(always)]
    pub fn len(&self) -> usize
        ensures { result ≡ length self.now.forks }
    {
        self.rows.len()
    }

    /// Makes room for one fork more. After `NoMemory` there may be room for a part of it.
    ///
    /// # Errors
    /// Where there was no memory.
    #[inline(always)]
    pub fn reserve_one(&mut self) -> Result<(), NoMemory>
        ensures forks { self.new.forks ≡ self.old.forks }
        ensures room { OnOk result (1 ≤ self.new.room) }
    {
        self.rows.reserve(1)?;
        self.others.reserve(1)?;
        Ok(())
    }

    /// Puts a fork last, in the room that was made.
    #[inline(always)]
    pub fn push(&mut self, fork: Fork)
        requires room { 1 ≤ self.old.room }
        requires few { length self.old.forks < 2 ^ 32 }
        ensures { self.new.forks ≡ self.old.forks ++ fork ∷ [] }
    {
        let row = row_of(&self.rows, &mut self.others, fork);
        self.rows.push_reserved(row);
    }

    /// Marks a fork as published.
    #[inline(always)]
    pub fn mark_published(&mut self, number: u32)
        requires { number < length self.old.forks }
        ensures { IsForkPublished self.old.forks self.new.forks number }
    {
        self.rows[number as usize].published = true;
    }
}

ghost use Rattle.std.specs.Prelude.{◌≤◌, ◌<◌, ◌^◌, vec_len, vec_capacity, IsTrue};
ghost use Rattle.pst_store.specs.ForkLists.{places_of, IsPlaceFound, IsGrown, IsRowFor};

// The row of a fork behind others. Where it was made from may come in among the other places, in the room that was made.
#[inline(always)]
fn row_of(rows: &[ForkRow], others: &mut Vec<Place>, fork: Fork) -> ForkRow
    requires room { vec_len others.old < vec_capacity others.old }
    requires few { vec_len others.old < 2 ^ 32 }
    ensures { IsRowFor rows.now others.old.items others.new.items fork result }
{
    if is_place_of(rows, fork.from) {
        return ForkRow {
            place: fork.place,
            from: fork.from.number,
            of_fork: true,
            published: fork.published,
        };
    }
    let from = number_among(others, fork.from);
    ForkRow {
        place: fork.place,
        from,
        of_fork: false,
        published: fork.published,
    }
}

// Whether a place is that of the fork whose number it bears.
#[inline(always)]
fn is_place_of(rows: &[ForkRow], place: Place) -> bool
    ensures { IsTrue result → IsPlaceFound (places_of rows.now) place.number place }
{
    match rows.get(place.number as usize) {
        Some(row) => row.place == place,
        None => false,
    }
}

// The number of a place among the others: the last one, or else one that comes in behind them, in the room that was made.
#[inline(always)]
fn number_among(others: &mut Vec<Place>, place: Place) -> u32
    requires room { vec_len others.old < vec_capacity others.old }
    requires few { vec_len others.old < 2 ^ 32 }
    ensures found { IsPlaceFound others.new.items result place }
    ensures grown { IsGrown others.old.items others.new.items }
{
    let count = others.len();
    if count > 0 && others[count - 1] == place {
        return count as u32 - 1;
    }
    others.push_reserved(place);
    count as u32
}
