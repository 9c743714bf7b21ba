//! Comparisons of places that are counted, and a bisection with a bound on them.

ghost use Rattle.std.specs.Prelude.{◌≡◌, ℕ, ◌+◌, ◌-◌, ◌^◌, ◌<◌, ◌≤◌, ◌↔◌, List, length, get_or, IsTrue};
ghost use Rattle.pst_order.specs.Places.{rank, IsIn};
ghost use Rattle.pst_order.specs.Search.{AreRising, IsPartition, IsFewMore};

use crate::order::{Order, Pos};

/// Compares places of a list, and counts the comparisons. Whoever wants a bound on a call's comparisons hands one in.
pub trait Compare {
    /// The numbers of the places, in the order of the list.
    ghost list: { Self → List ℕ };

    /// How many comparisons were made.
    ghost calls: { Self → ℕ };

    /// Whether `a` stands earlier than `b`. It counts as one comparison.
    fn before(&mut self, a: Pos, b: Pos) -> bool
        requires a_in { IsIn (list self.old) a.0 }
        requires b_in { IsIn (list self.old) b.0 }
        requires few { calls self.old < 2 ^ 64 - 1 }
        ensures result { IsTrue result ↔ (rank (list self.old) a.0 < rank (list self.old) b.0) }
        ensures list { list self.new ≡ list self.old }
        ensures calls { calls self.new ≡ calls self.old + 1 };
}

/// Compares by an order that it borrows.
#[derive(Drop)]
pub struct Counting<'a, O> {
    order: &'a O,
    calls: u64,
}

impl<'a, O: Order> Counting<'a, O> {
    /// With no comparison made yet.
    #[inline]
    pub fn new(order: &'a O) -> Counting<'a, O>
        ensures order { O.places result.order.now ≡ O.places order.now }
        ensures calls { result.calls ≡ 0 }
    {
        Counting { order, calls: 0 }
    }
}

impl<'a, O: Order> Compare for Counting<'a, O> {
    ghost list = { λ s. O.places s.order.now };

    ghost calls = { λ s. s.calls };

    #[inline]
    fn before(&mut self, a: Pos, b: Pos) -> bool {
        self.calls += 1;
        self.order.before(a, b)
    }
}

/// Places by their index from 0, as those of a row's stamps: the bisection reads them one at a time.
pub trait PlaceList {
    /// The numbers of the places.
    ghost numbers: { Self → List ℕ };

    /// The place at an index.
    fn place(&self, index: usize) -> Pos
        requires { index < length (numbers self.now) }
        ensures { result.0 ≡ get_or (numbers self.now) index 0 };
}

/// Of the places with an index from `from` up to `to`, without `to`, which stand in their order, the index of the first one
/// that is after `at`; `to` where none is. It is found in at most `s` comparisons, where `2 ^ s` is at most `2 * n + 1` for
/// the `n` places.
#[inline]
pub fn partition<P: Compare, L: PlaceList>(
    compare: &mut P,
    places: &L,
    from: usize,
    to: usize,
    at: Pos,
) -> usize
    requires ordered { from ≤ to }
    requires rising { AreRising (P.list compare.old) (L.numbers places.now) from to }
    requires at { IsIn (P.list compare.old) at.0 }
    requires calls { P.calls compare.old ≤ 2 ^ 63 }
    ensures found { IsPartition (P.list compare.old) (L.numbers places.now) from to at.0 result }
    ensures list { P.list compare.new ≡ P.list compare.old }
    ensures calls { IsFewMore (to - from) (P.calls compare.old) (P.calls compare.new) }
{
    let mut low = from;
    let mut high = to;
    while low < high {
        let middle = low + (high - low) / 2;
        if compare.before(at, places.place(middle)) {
            high = middle;
        } else {
            low = middle + 1;
        }
    }
    low
}
