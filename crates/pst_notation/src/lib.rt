//! The canonical text of a program, and that it reads as that program.
//!
//! The model is the text as a function of the tree: an expression with one space round an operator and none elsewhere, one
//! statement a line, a block two spaces further from the left than what holds it, one space between words, and first the line
//! `language 2` if the program is of that language. [`print_program`] gives that text; `put_number`, `put_line` and `put_block` put
//! exactly their part of it behind what stands there, or find no memory. Laws say that the text reads as the tree, lines apart,
//! so that to print, to read and to print again changes nothing.
//!
//! ```text
//! query q(){print -  1;}      prints as      query q() {
//!                                              print -1;
//!                                            }
//! ```
#![tactic(auto)]

mod declarations;
mod expressions;
mod laws;
mod statements;

pub use declarations::print_program;
pub use laws::{canonical_text_keeps_what_was_read, canonical_text_reads_as_its_tree};
