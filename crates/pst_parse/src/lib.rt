//! The parser: from the text of a program to its tree, or to the exact place of its first fault.
//!
//! The model is the grammar as a spelling, of `pst_grammar`: each tree of the grammar spells one list of tokens, and tokens have
//! at most one tree. [`parse`] takes the tokens of a text as they come, and keeps those of one declaration at a time; it gives
//! the tree that spells the tokens of the text, where it is within the limits of depth; and else the line of the first token with
//! which no program goes on, or only programs that are too deep.
//!
//! ```text
//! let tree = parse(alloc, b"root a: int;")?;
//! parse(alloc, b"root a:\n;")        // Err(ParseFault::Unexpected { line: 2 })
//! ```
#![tactic(auto)]

mod fault;
mod program;
mod window;

pub use fault::ParseFault;
pub use program::parse;
