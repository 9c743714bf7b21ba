//! The store: a fully persistent heap of fat nodes over any order list and any arena of nodes.
//!
//! Model: nothing, or the lists of `Stored` of pst_store_meaning: the places in their order, the nodes with their rows and what is noted
//! beside them, the versions, the forks and the counts. It means the heap of each place (`state_in`; of a store that is started,
//! `state_of`).
//!
//! Contract: that of a heap at many places which are forked and published, exact for each place. A write is a repair, what it writes,
//! and a repair again; a repair splits the nodes that wait and changes no heap. At all times, also where memory ran out, the nodes over
//! their capacity wait and no others (`IsKept`), and there are no more nodes and potential than one for each record that was made, six
//! for each pointer that was written and two for each number; nothing waits after a write, but where memory ran out. (Full persistence
//! by node splitting, after Driscoll, Sarnak, Sleator and Tarjan.)
//!
//!     let mut store = Store::empty();
//!     store.start(alloc, &shape)?;
//!     let at = store.fork(from)?;
//!     store.store_value(at, store.root(at), field, 7)?;
//!
//! [`Started`] is the store with version 0 at least, [`StoreOf`] nothing or such a store.
#![tactic(auto)]

mod fork_list;
mod forking;
mod started;
mod store;
mod store_heap;
mod types;

pub use started::{Parts, Started};
pub use store::{Store, StoreOf};
