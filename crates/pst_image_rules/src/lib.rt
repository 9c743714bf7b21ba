//! The rules of an image, one after the other.
//!
//! Model: the parts of an image (`pst_image_form`), and the shape of its text's program (`pst_base`), which is valid. A node is its number,
//! a version its row with a stretch of places, a place its position in the list of places, from 0. A segment of a slot begins at the
//! begin of the node's life or at a stamp, and ends where the slot's next one begins or the life ends. A `Rule` says what an image has to
//! meet, and has a number; a rule rests on those of lower numbers.
//!
//! Contract: [`first_failed`] gives the first rule that fails of those that are asked of the parts, or nothing where all hold, by one
//! definition by cases (`Holds`); `Rule::number` gives a rule's number. Each rule has a function that says exactly whether it holds:
//! `is_in_range`, `are_nested` (a version tree whose stretches are nested, a later child before an earlier one), `are_nodes`, `are_chained`
//! (the nodes of each record in one chain), `are_pointers_entered` and `are_entries_pointed` (each pointer segment has just one entry in
//! the node that it leads to, and each entry its pointer), `are_within_capacity` and `is_bounded`. `order_of_runs` lists nested versions
//! in the order in which their runs were opened, and `chains_of` the chains by their heads and last nodes. Each takes time by what it
//! goes over, `are_chained` the time to sort the names. (This project's own rules, after the version list, the inverse pointers and the
//! node splitting of Driscoll, Sarnak, Sleator and Tarjan.)
//!
//! For example where slot 1 of node 0 holds node 2 from place 5 up to place 9, just one inverse slot of node 2 has a segment from 5 up
//! to 9 with the content `(0 + 1) * 128 + 1`.
//!
//!     match first_failed(alloc, &shape, &image.parts)? {
//!         Some(rule) => refuse(rule.number()),
//!         None => rebuild(&image.parts),
//!     }
#![tactic(auto)]

mod capacity;
mod chains;
mod contents;
mod ends;
mod heads;
mod judge;
mod laws_nodes;
mod links;
mod mirror;
mod nested;
mod nodes;
mod ranges;
mod rule;
mod segments;
mod sides;

pub use chains::are_chained;
pub use ends::{Chain, chains_of};
pub use judge::first_failed;
pub use laws_nodes::chains_are_in_order;
pub use mirror::segments_follow;
pub use nested::{are_nested, order_of_runs};
pub use nodes::are_nodes;
pub use ranges::is_in_range;
pub use rule::Rule;
