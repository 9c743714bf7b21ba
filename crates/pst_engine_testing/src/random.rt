//! Numbers that look random, the same in each run.

ghost use Rattle.std.specs.Prelude.{◌<◌};

/// A row of numbers that look random (a linear congruential generator with Knuth's multiplier, of which the upper bits are
/// taken).
#[derive(Clone, Copy, PartialEq, Eq)]
pub struct Random {
    state: u64,
}

impl Random {
    /// The row that begins with this seed.
    pub fn new(seed: u64) -> Random {
        Random { state: seed }
    }

    /// The next number of the row, brought below this one.
    pub fn below(&mut self, end: u32) -> u32
        requires { 0 < end }
        ensures { result < end }
    {
        self.state = self
            .state
            .wrapping_mul(6_364_136_223_846_793_005)
            .wrapping_add(1_442_695_040_888_963_407);
        ((self.state >> 33) % u64::from(end)) as u32
    }
}
