//! Splits: one of a node with its partner segments, and the cascade that ends when no node is over its capacity.
//!
//! Model: the chart of the nodes, their lives, the list of the queue, and the potential of the nodes.
//!
//! Contract: no record's content changes at any place. `split` keeps the mirror rule, adds one node and lowers the potential by at
//! least 1; it takes all its memory before the first change, and a refusal changes nothing. `repair` makes at most as many splits as
//! the potential at entry; afterwards the queue is empty and every node within its capacity. After a refusal the node that could not
//! be split waits again, and the call can be made again. By laws: a split of the arena is a
//! step of a store's repair, a slot that was set to a number is a number that was written, and a pair that was put in or taken away
//! is a pointer that was, each with the stamped values that it adds. (Node splitting, the cascade and its potential are those of
//! Driscoll, Sarnak, Sleator and Tarjan; the rule for the stamp of a split is this project's own.)
//!
//!     let splits = repair(&order, &shape, &mut nodes, &mut queue)?;
#![tactic(auto)]

mod cuts;
mod joint;
pub mod load;
mod renames;
pub mod repair;
mod room;
mod split;

pub use joint::{numbers_are_set, pairs_are_seen, seen_charts, splits_are_steps};
