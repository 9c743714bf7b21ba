//! The store of a linear history, in which only the newest version is written, by one run at a time.
//!
//! Model: what a store holds (`specs/Store`): the line of nodes, the versions as stretches of node numbers, the open run, the counts.
//!
//! Contract: a `LineStore` is a heap at many places (`HeapAt`), whose open run is published as the next version, or undone
//! (`LineCalls`): for that, each field that the run has written stands in its undo list once, however often it was written. After
//! want of memory in a write every version reads as before. The laws say what each change of nodes means for the heaps of the
//! versions. A version keeps the node of its root, so that reads at it walk over no copies of the root record. (Node copying, after
//! Driscoll, Sarnak, Sleator and Tarjan.)
//!
//!     let at = store.begin();
//!     store.store_value(at, r, field, 7)?;
//!     let version = store.publish(run)?;
#![tactic(auto)]

pub mod calls;
mod inner;
pub mod laws;
mod line_heap;
pub mod line_nodes;
pub mod line_store;
mod node_list;
pub mod place;
mod undo_list;
mod undo_run;
mod writes;
