//! Reading declarations from the front of tokens.
//!
//! Model: the reading of `pst_grammar`, over the tokens that a slice holds: what was read, with the tokens behind it, or a fault
//! with the tokens from its place on.
//!
//! Contract: [`declaration`] gives what that reading gives of a declaration in a language, within limits of height and nesting, or
//! stops for want of memory; [`behind_word`] and [`behind_two`] give what stands behind the word and the number that a program of
//! language 2 begins with; [`is_token`] whether any token is left.
//!
//! ```text
//! let (root, rest) = declaration(alloc, 1, tokens, 63, 15)?;     // of `root a: int; root b: int;` the first, and the second
//! ```
#![tactic(auto)]

mod declarations;

pub use declarations::{behind_two, behind_word, declaration, is_token};
