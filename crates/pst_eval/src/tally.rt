//! What a run keeps beside its heap.

ghost use Rattle.std.specs.Prelude.{◌≡◌, ◌≢◌, ◌-◌, true, false};

use pst_base::{Counts, Name, RunNo, TrapKind};
use pst_program::Value;

/// What all active calls of a run share beside the heap: the charges left, the numbers printed, the run's number, how
/// many records it made, and what it counted.
#[derive(Drop)]
pub struct Tally {
    pub charges: u32,
    pub printed: Vec<i64>,
    pub run: RunNo,
    pub made: u32,
    pub counts: Counts,
}

impl Tally {
    /// Takes a charge, if one is left.
    pub fn charge(&mut self) -> bool
        ensures taken { result ≡ true → (self.old.charges ≢ 0) × (self.new ≡ record self.old { charges = self.old.charges - 1 }) }
        ensures none { result ≡ false → (self.old.charges ≡ 0) × (self.new ≡ self.old) }
    {
        if self.charges == 0 {
            return false;
        }
        self.charges -= 1;
        true
    }

    /// The name that the next record of the run gets.
    pub fn next_name(&self) -> Name
        ensures { result ≡ record { run = self.now.run; ordinal = self.now.made } }
    {
        Name {
            run: self.run,
            ordinal: self.made,
        }
    }
}

/// How statements end.
#[derive(Clone, Copy, PartialEq, Eq)]
pub enum End {
    Normal,
    Return(Option<Value>),
    Trap(TrapKind, u32),
    /// A charge was due at this line, and none was left.
    Spent(u32),
}
