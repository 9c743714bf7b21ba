//! Places, what an order is, and what an insertion does to it.

ghost use Rattle.std.specs.Prelude.{◌≡◌, ℕ, suc, ◌+◌, ◌^◌, ◌<◌, ◌↔◌, List, [], ◌∷◌, length, slice_get, IsTrue, IfOk, OnErr};
ghost use Rattle.std.specs.Option.{option_map};
ghost use Rattle.pst_order.specs.Places.{rank, IsIn, AreDistinct, AreNumbered, IsInsertedAfter, RanksLaw, RanksRiseLaw};

use pst_base::NoMemory;
use std::alloc::Global;

/// A place of an order. Its number is a name, and tells nothing of where the place stands.
#[derive(Clone, Copy, Debug, PartialEq, Eq)]
pub struct Pos(pub u32);

/// A list of distinct places that only grows. Where a place stands is its rank in the list: 0 for the first one. A rank may
/// rise with an insertion, and a place keeps its number.
pub trait Order {
    /// The numbers of the places, in the order of the list.
    ghost places: { Self → List ℕ };

    /// A list of one place. `NoMemory` where there is no memory for it.
    fn new(alloc: Global) -> Result<Self, NoMemory>
    where
        Self: Sized,
        ensures { IfOk result (λ order. length (places order) ≡ 1) };

    /// The first place, which stays so: a new place comes in behind another.
    fn first(&self) -> Pos
        ensures in_list { IsIn (places self.now) result.0 }
        ensures first { rank (places self.now) result.0 ≡ 0 }
        ensures distinct { AreDistinct (places self.now) };

    /// Puts a new place directly behind another one, in a list of fewer than 2^30. `NoMemory` where there is no memory for
    /// it: then nothing changes.
    fn insert_after(&mut self, place: Pos) -> Result<Pos, NoMemory>
        requires in_list { IsIn (places self.old) place.0 }
        requires few { length (places self.old) < 2 ^ 30 }
        ensures ok { IfOk result (λ new. IsInsertedAfter (places self.old) (places self.new) place.0 new.0) }
        ensures err { OnErr result (self.new ≡ self.old) };

    /// Whether `a` stands earlier than `b`.
    fn before(&self, a: Pos, b: Pos) -> bool
        requires a_in { IsIn (places self.now) a.0 }
        requires b_in { IsIn (places self.now) b.0 }
        ensures { IsTrue result ↔ (rank (places self.now) a.0 < rank (places self.now) b.0) };

    /// Whether `b` stands directly behind `a`.
    fn follows(&self, a: Pos, b: Pos) -> bool
        requires a_in { IsIn (places self.now) a.0 }
        requires b_in { IsIn (places self.now) b.0 }
        ensures { IsTrue result ↔ (rank (places self.now) b.0 ≡ suc (rank (places self.now) a.0)) };
}

/// An order whose list can be walked from its first place to its last, for a layer that knows it by this trait alone.
pub trait Walked: Order {
    /// The place behind another one, or none behind the last.
    fn next(&self, place: Pos) -> Option<Pos>
        requires { IsIn (Self.places self.now) place.0 }
        ensures { option_map (λ (q : Pos). q.0) result ≡ slice_get (Self.places self.now) (suc (rank (Self.places self.now) place.0)) };

    /// The numbers of `n` places are those from 0 to `n - 1`, each once: they can index a table. It has no effect.
    fn numbered(&self)
        ensures { AreNumbered (Self.places self.now) };
}

/// What an insertion behind a place does to every rank: those up to the place's are kept, the new place has the next one,
/// and each later one rises by 1.
pub fn ranks()
    ensures { RanksLaw }
{}

/// An insertion keeps the order of the places that were there.
pub fn ranks_rise()
    ensures { RanksRiseLaw }
{}
