//! The arena of fat nodes with its repair queue and its root index, in the words of a store.
//!
//! Model: the list of nodes as a store sees them, and what is noted beside them: which wait to be split, which nodes of the root
//! record are held.
//!
//! Contract: `FatNodes`, which `Arena` meets, and `Listed`, by which it is read whole and made of a list. Each call is exact by
//! the arena at the places of the order that is handed in; a write takes all its memory first; the nodes over their capacity wait,
//! and no others.
//!
//!     let node = arena.cover(&order, &shape, id, at);
//!     arena.set_number(&order, &shape, node, field, place, 7)?;
//!     arena.repair(&order, &shape)?;
#![tactic(auto)]

mod adding;
mod arena;
mod fat_nodes;
mod listed;
mod near;
mod potential;
mod repairing;
mod writes;

pub use arena::Arena;
pub use fat_nodes::FatNodes;
pub use listed::Listed;
