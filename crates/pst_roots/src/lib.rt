//! The index of the root record's nodes: which of them covers a place.
//!
//! Model: the list of the numbers of the nodes that are held, in the order of where they begin, and how many more there is room
//! for. (Inside, the list stands in pieces of at most 1,024 nodes, beside the index at which each piece starts.)
//!
//! Contract: `at` gives the last held node that does not begin after a place; `at_with` finds it in at most `s` comparisons,
//! where `2 ^ s` is at most `2 * n + 1` for the `n` nodes held. `add` puts a node directly behind the last one that does
//! not begin after it, without taking memory; it moves the nodes of one piece. Where the caller guesses which one that is, it is
//! found among the nodes with which pieces begin, and in one piece. (A bisection over one list, with its comparisons
//! where pieces start as far as the bound leaves that open, so that most searches look at the same nodes first; the root of each
//! version in the paper of Driscoll, Sarnak, Sleator and Tarjan.)
//!
//!     roots.reserve(1)?;
//!     roots.add(&order, &nodes, near, right);
//!     let node = roots.at(&order, &nodes, place);
#![tactic(auto)]

mod piece;
mod pieces;
mod roots;

pub use roots::RootIndex;
