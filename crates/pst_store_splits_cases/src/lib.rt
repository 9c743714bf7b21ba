//! The store, empty and started, with what no clause says: that the calls which take memory succeed, that a repair keeps what is
//! read, that a call which was refused can be made again and a node which waits is split then, and that the clauses mean what is
//! meant.
//!
//! The tests share a ring of two records, published in a store: `start_ring` starts an empty store, and answers a place where both
//! records are live (`HasRing`); `readings` wants them to be live at each place that it reads.
#![tactic(auto)]

mod making;
#[cfg(test)]
mod one_split;
mod reading;
#[cfg(test)]
mod repeated;
#[cfg(test)]
mod tests;
