//! The arena of nodes: reading and changing one slot, links between nodes, the walk to the node that covers a place, and the queue
//! of the nodes that wait to be split.
//!
//! Model: the list of nodes, each with its name, type, next node and row; their chart by positions; the queue's list.
//!
//! Contract: each call is exact by the chart and changes one field or inverse slot over one stretch; `link` and `unlink` keep the
//! mirror rule and take exactly the room that they say. A node stands in the queue at most once; the queue's links stand in the
//! nodes themselves, so it takes no memory, and its calls change nothing else of them. (After Driscoll, Sarnak, Sleator and Tarjan.)
//!
//!     let node = nodes.cover(&order, id, at);
//!     nodes.link(&order, from, to, x, field, y, slot);
//!     queue.push(&mut nodes, node);
#![tactic(auto)]

pub mod access;
pub mod header;
pub mod links;
pub mod node;
pub mod pairs;
pub mod queue;
pub mod slots;
