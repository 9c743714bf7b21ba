//! The order as a vector of places, to compare quicker ones with.

ghost use Rattle.std.specs.Prelude.{◌≡◌, ℕ, ◌<◌, length};
ghost use Rattle.pst_order.specs.Places.{rank, IsIn};

use crate::{Order, Pos, Walked};
use pst_base::NoMemory;
use std::alloc::Global;
use std::marker::Model;

/// The places in a vector, in order. Each call goes over it, so it takes a time that grows with their count.
#[derive(Drop)]
pub struct RowOrder {
    numbers: Vec<u32>,
}

impl Model for RowOrder {
    ghost use Rattle.std.specs.Prelude.{ℕ, List};
    ghost use Rattle.pst_order.specs.Places.{AreNumbered};

    ghost Value = { List ℕ };

    ghost view = { λ a. a.numbers.items };

    ghost invariant = { λ a. AreNumbered a.numbers.items };
}

impl RowOrder {
    // Where a place stands.
    fn rank(&self, place: Pos) -> usize
        requires { IsIn self.now place.0 }
        ensures { result ≡ rank self.now place.0 }
    {
        position(&self.numbers, place.0)
    }
}

impl Order for RowOrder {
    ghost places = { λ s. s };

    fn new(alloc: Global) -> Result<RowOrder, NoMemory> {
        let mut numbers = Vec::new(alloc);
        numbers.push(0)?;
        Ok(RowOrder { numbers })
    }

    fn first(&self) -> Pos {
        Pos(self.numbers[0])
    }

    fn insert_after(&mut self, place: Pos) -> Result<Pos, NoMemory> {
        let rank = self.rank(place);
        let fresh = self.numbers.len() as u32;
        self.numbers.insert(rank + 1, fresh)?;
        Ok(Pos(fresh))
    }

    fn before(&self, a: Pos, b: Pos) -> bool {
        self.rank(a) < self.rank(b)
    }

    fn follows(&self, a: Pos, b: Pos) -> bool {
        let a = self.rank(a);
        let b = self.rank(b);
        a < b && b - a == 1
    }
}

impl Walked for RowOrder {
    fn next(&self, place: Pos) -> Option<Pos> {
        let numbers = self.numbers.as_slice();
        let behind = self.rank(place) + 1;
        if behind < numbers.len() {
            Some(Pos(numbers[behind]))
        } else {
            None
        }
    }

    fn numbered(&self) {
        let _places = self.numbers.len();
    }
}

// Where a number stands first.
fn position(numbers: &[u32], number: u32) -> usize
    ensures { result ≡ rank numbers.now number }
{
    for (i, x) in numbers.iter().enumerate() {
        if *x == number {
            return i;
        }
    }
    numbers.len()
}
