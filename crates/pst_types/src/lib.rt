//! Typing: the first fault of a program's tree, or the typed program.
//!
//! The model is a function of the tree by two walks, `checked` of `pst_typing`: the first notes the names that are declared,
//! the second judges each declaration with its statements. [`check`] gives its answer: the first fault with its line, or the
//! program with names turned into numbers, which is well typed where the tree is within the limits of depth. It lets the tree
//! go as it types it. [`approve`] gives the verdict alone, and the tree stays.
//!
//! ```text
//! check(alloc, tree)          // of `query q() { print true; }`: Err(TypeFault::Unknown { line: 1 })
//! ```
#![tactic(auto)]

mod walks;

pub use walks::{approve, check};
