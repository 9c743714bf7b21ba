//! Reading statements and blocks from the front of tokens.
//!
//! Model: the reading of `pst_grammar`, over the tokens that a slice holds: what was read, with the tokens behind it, or a fault
//! with the tokens from its place on.
//!
//! Contract: [`block`] gives what that reading gives of as many statements as stand there, in a language, within limits of height
//! and nesting, or stops for want of memory.
//!
//! ```text
//! let (body, rest) = block(alloc, 1, tokens, 63, 15)?;     // of `print 1; return; }` the two statements, and `}`
//! ```
#![tactic(auto)]

mod statements;

pub use statements::block;
