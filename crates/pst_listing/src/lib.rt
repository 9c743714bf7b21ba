//! The listing of code: a text that shows every procedure with its registers and instructions.
//!
//! The model is `listed`, a function from the parts of a code and the names of record types to a text. `listing` gives exactly
//! that text, or finds no memory.
//!
//! For example a procedure `add` that gives the sum of its two parameters is listed so:
//!
//! ```text
//! proc add args 2 gives int regs int int int
//! 0 charge 1
//! 1 add r2 r0 r1
//! 2 return r2
//! ```
#![tactic(auto)]

mod instructions;
mod operands;
mod procedures;

pub use procedures::listing;
