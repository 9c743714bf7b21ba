//! The nodes of a linear history: of a history in which only the newest version is written. A node that has got as many stamped
//! values as it may have is copied, and each newest pointer to it is redirected to the copy, which may copy more nodes. (The node
//! copying of Driscoll, Sarnak, Sleator and Tarjan, with limits and inverse pointers as this project has them.)
//!
//! Model: the list of nodes as contracts see them (`specs/Seen`), and the line that they are (`specs/Line`): what each field holds
//! at each stamp, and the ordinary heap at each stamp.
//!
//! Contract: each write is exact by the line, and a refusal changes no heap. `make_room` leaves no pointer to a copied node and all
//! heaps as they were. The laws say what each change does to the heaps, to the rules and to the load, which bounds the nodes.
//!
//!     let x = nodes.make_room(&shape, x, field, stamp)?;
//!     nodes.set(x, field, stamp, Content::Number(7))?;
#![tactic(auto)]

pub mod content;
pub mod copies;
pub mod fields;
pub mod laws;
pub mod node;
pub mod nodes;
pub mod redirect;
