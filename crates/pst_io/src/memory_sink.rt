// A sink over memory, that fails when it is told to.
ghost use Rattle.std.specs.Prelude.{◌≡◌, ◌≤◌, ◌<◌, ◌-◌, ◌⊎◌, ◌↔◌, [], ◌∷◌, length, min, IfOk, IsErr, Contains, Some};
ghost use Rattle.std.specs.Io.{WritesAtMost};
ghost use Rattle.std.specs.Io.KnownBytes.{WriteAppends};
ghost use Rattle.pst_io.specs.Causes.{HasCause};
ghost use Rattle.pst_io.specs.Memory.{one_more, after_write};

use crate::traits::{Failed, Sink};
use std::alloc::{AllocError, Global};
use std::marker::Model;

/// A sink over memory, which fails when it is told to and where it is full. Its calls are numbered
/// from 1, and a number stays at 2^64 - 1 once it has reached it. No write takes memory.
#[derive(Drop)]
pub struct MemSink {
    bytes: Vec<u8>,
    room: usize,
    most: usize,
    failing: Vec<u64>,
    calls: u64,
    faults: u64,
}

impl Model for MemSink {
    ghost use Rattle.std.specs.Prelude.{◌≤◌, vec_len, vec_capacity};
    ghost use Rattle.pst_io.specs.Memory.{SinkState};

    ghost Value = { SinkState };

    ghost view = { λ s. record {
      taken = s.bytes.items;
      room = s.room;
      most = s.most;
      failing = s.failing.items;
      calls = s.calls;
      faults = s.faults;
    } };

    ghost invariant = { λ s. (vec_len s.bytes ≤ s.room) × (s.room ≤ vec_capacity s.bytes) × (1 ≤ s.most) };
}

impl MemSink {
    /// Takes at most `room` bytes in all and at most `most` a write. It fails exactly at the calls with
    /// the numbers in `failing`, and where `room` bytes were taken and the piece is not empty. Its count
    /// of faults begins at 0, and rises exactly where it fails. Errs only for want of the memory for
    /// `room` bytes.
    ///
    /// # Errors
    /// Where there was no memory.
    pub fn new(
        alloc: Global,
        room: usize,
        most: usize,
        failing: Vec<u64>,
    ) -> Result<MemSink, AllocError>
        requires { 1 ≤ most }
        ensures { IfOk result (λ sink. sink ≡ record {
          taken = [];
          room = room;
          most = most;
          failing = failing.items;
          calls = 0;
          faults = 0;
        }) }
    {
        let bytes = Vec::with_capacity(alloc, room)?;
        Ok(MemSink {
            bytes,
            room,
            most,
            failing,
            calls: 0,
            faults: 0,
        })
    }

    /// The bytes that it took.
    pub fn taken(&self) -> &[u8]
        ensures { result.now ≡ self.now.taken }
    {
        &self.bytes
    }
}

impl Sink for MemSink {
    ghost taken = { λ s. Some s.taken };

    ghost faults = { λ s. s.faults };

    fn write(&mut self, piece: &[u8]) -> Result<usize, Failed>
        ensures bound { WritesAtMost result piece.now }
        ensures some { 0 < length piece.now → IfOk result (λ count. 0 < count) }
        ensures bytes { WriteAppends (Some self.old.taken) (Some self.new.taken) result piece.now }
        ensures cause { HasCause self.old.faults self.new.faults result }

        ensures fails { IsErr result ↔ (Contains self.old.failing (one_more self.old.calls)
            ⊎ ((0 < length piece.now) × (self.old.room ≤ length self.old.taken))) }
        ensures count { IfOk result (λ n. n ≡
            min (length piece.now) (min self.old.most (self.old.room - length self.old.taken))) }
        ensures state { self.new ≡ after_write self.old piece.now result }
    {
        self.calls = self.calls.saturating_add(1);
        let free = self.room - self.bytes.len();
        if self.failing.contains(&self.calls) || (free == 0 && !piece.is_empty()) {
            self.faults = self.faults.saturating_add(1);
            return Err(Failed);
        }
        let count = piece.len().min(self.most.min(free));
        self.bytes.extend_from_slice(&piece[..count]).unwrap();
        Ok(count)
    }
}
