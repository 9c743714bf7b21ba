//! Groups of bytes in a file, each on the disk before it counts.
//!
//! Model: a text is groups, each with an end of its own (`IsGroup`), and zeros behind them. It stands for the whole groups before the
//! first zero (`whole`), and behind them may be what a crash left (`IsTornEnd`).
//!
//! Contract: `append` writes a group over zeros that are on the disk already, and syncs. Whatever moment the machine stops at, the file
//! has the whole group or nothing of it: a crash leaves each byte of such a write old or new, and a zero ends the text. One zero always
//! stays. `clear` takes away what a crash left, and may be cut short too. Each call says what a crash leaves at any of its returns, over
//! any `Disk` of the kit. A disk that does not say that it mixes so is refused before a byte is written.
#![tactic(auto)]

mod error;
mod place;
mod read;
mod text;
mod write;

pub use error::DiskError;
pub use place::Place;
pub use read::read_all;
pub use text::{END, is_torn_end, whole_len, zeros};
pub use write::{append, clear, write_synced};
