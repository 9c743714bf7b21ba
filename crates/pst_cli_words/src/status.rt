//! How a call ends.

ghost use Rattle.std.specs.Prelude.{◌≡◌};
ghost use Rattle.pst_cli_words.specs.Jobs.{number_of};

/// How a call of the program ends.
#[derive(Clone, Copy, PartialEq, Eq)]
pub enum Status {
    /// The input was read, as far as the job needs it, and all output was written.
    Done,
    /// A read failed.
    ReadFault,
    /// A write failed.
    WriteFault,
    /// The words ask for nothing that the program does.
    Usage,
    /// The program has a fault, and its line was written.
    Refused,
    /// The input has more than 67,108,864 bytes or, for `serve` and `repack`, more than 2^62, and more of it was needed.
    TooLong,
    /// There was no memory.
    Memory,
}

/// The status as a number from 0 to 6, in the order above.
pub fn number(status: Status) -> u8
    ensures { result ≡ number_of status }
{
    status as u8
}
