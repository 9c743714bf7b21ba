//! Reading from the front of tokens: single tokens, and expressions.
//!
//! Model: the reading of `pst_grammar`, over the tokens that a slice holds: what was read, with the tokens behind it, or a fault
//! with the tokens from its place on. A token at hand is an [`Atom`]: what it is and its line, without its place in the text.
//!
//! Contract: each function gives what that reading gives, or stops for want of memory: [`operand`] an expression of a rank and
//! within a limit of height, [`more`] what goes on behind one; [`expect`], [`name`], [`number`] and [`type_name`] a token that
//! has to come; [`after`] what stands behind a sign, if it stands there; and [`peek`] the first token.
//!
//! ```text
//! let (sum, height, rest) = operand(alloc, 1, tokens, 0, 63)?;     // of `1 + 2;` the sum, of height 1, and `;`
//! let rest = expect(rest, Sign::Semicolon)?;
//! ```
#![tactic(auto)]

mod expression;
mod lexeme;
mod stop;
mod token;

pub use expression::{more, operand};
pub use lexeme::{Atom, Lexeme, peek};
pub use stop::Stop;
pub use token::{after, expect, name, number, type_name};
