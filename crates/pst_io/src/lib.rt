//! A source and a sink of bytes, over memory and over the standard streams, and a reader that hands out the lines of a source.
//!
//! Model: a source has the bytes left, where it tells them, and a count of faults; a sink the bytes taken and a count of
//! faults. `Lines` holds at most one read beyond the line that it handed out.
//!
//! Contract: `put` writes a piece whole, or a proper prefix with a fault that the sink counted. `Lines::next` hands out exactly
//! the next line, and `Lines::hand` exactly the next bytes, so many as it is asked for; both answer the end, an input that is
//! longer than the reader's limit and a fault exactly where they come.
//!
//!     let mut lines = Lines::new(alloc);
//!     while lines.next(&mut source)? {
//!         carry_out(lines.line());
//!     }
#![tactic(auto)]

mod fault;
mod feed;
mod input;
mod lines;
mod memory_sink;
mod memory_source;
mod room;
mod standard;
mod traits;

pub use fault::LinesFault;
pub use lines::Lines;
pub use memory_sink::MemSink;
pub use memory_source::MemSource;
pub use room::{MOST_INPUT, MOST_READ, MOST_SERVED, limits_in_digits};
pub use standard::{StdSink, StdSource};
pub use traits::{Failed, Sink, Source, put};
