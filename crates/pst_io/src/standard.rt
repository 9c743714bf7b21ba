// The standard streams. They tell nothing of what they give and take.
ghost use Rattle.std.specs.Prelude.{◌≡◌, None, IsErr};
ghost use Rattle.pst_io.specs.Causes.{HasCause};

use crate::traits::{Failed, Sink, Source};
use std::io::{Read, Stdin, Stdout, Write};
use std::marker::Model;

/// Standard input as a source. It tells nothing of its bytes; its count of faults begins at 0 and
/// rises at each read that fails.
#[derive(Drop)]
pub struct StdSource {
    input: Stdin,
    faults: u64,
}

impl Model for StdSource {
    ghost use Rattle.std.specs.Prelude.{ℕ};

    ghost Value = { ℕ };

    ghost view = { λ s. s.faults };
}

impl StdSource {
    /// Standard input, with no fault so far.
    pub fn new(input: Stdin) -> StdSource
        ensures { result ≡ 0 }
    {
        StdSource { input, faults: 0 }
    }
}

impl Source for StdSource {
    ghost left = { λ s. None };

    ghost faults = { λ s. s };

    fn read(&mut self, buf: &mut [u8]) -> Result<usize, Failed> {
        match self.input.read(buf) {
            Ok(count) => Ok(count),
            Err(_) => {
                self.faults = self.faults.saturating_add(1);
                Err(Failed)
            }
        }
    }
}

/// Standard output as a sink, which is flushed after each write. It tells nothing of its bytes; its
/// count of faults begins at 0 and rises at each write or flush that fails, and where a write takes
/// nothing of a piece that is not empty.
#[derive(Drop)]
pub struct StdSink {
    output: Stdout,
    faults: u64,
}

impl Model for StdSink {
    ghost use Rattle.std.specs.Prelude.{ℕ};

    ghost Value = { ℕ };

    ghost view = { λ s. s.faults };
}

impl StdSink {
    /// Standard output, with no fault so far.
    pub fn new(output: Stdout) -> StdSink
        ensures { result ≡ 0 }
    {
        StdSink { output, faults: 0 }
    }

    // Counts a fault, and answers it.
    fn fault(&mut self) -> Result<usize, Failed>
        ensures err { IsErr result }
        ensures cause { HasCause self.old self.new result }
    {
        self.faults = self.faults.saturating_add(1);
        Err(Failed)
    }
}

impl Sink for StdSink {
    ghost taken = { λ s. None };

    ghost faults = { λ s. s };

    fn write(&mut self, piece: &[u8]) -> Result<usize, Failed> {
        match self.output.write(piece) {
            Ok(count) if count > 0 || piece.is_empty() => match self.output.flush() {
                Ok(()) => Ok(count),
                Err(_) => self.fault(),
            },
            _ => self.fault(),
        }
    }
}
