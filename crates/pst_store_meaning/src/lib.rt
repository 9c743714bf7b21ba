//! What a store of fat nodes means, and the laws of its changes. The functions have no code.
//!
//! Model: a store as lists: the places in their order, the nodes with their rows, the versions, the forks and the counts. It
//! means the heap of each place (`state_of`), which is that of the nodes that live where the place begins.
//!
//! Contract: laws alone. A store that keeps what it has to is a sound versioned heap; a fork, a publication, a new record, a
//! write and a split each do to the heaps what the call of that name promises, and keep what a store keeps. (Full
//! persistence by fat nodes, after Driscoll, Sarnak, Sleator and Tarjan.)
//!
//!     changes();
//!     steps();
#![tactic(auto)]

pub mod laws;
pub mod place;
