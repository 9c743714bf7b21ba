//! Rows of stamped values: what the slots of a node hold, at each place of the node's life.
//!
//! Model: what a row shows (`shown`): its life, a base for each slot, and the stamped values in the order of slot and then place.
//!
//! Contract: each call says which stretch of positions changes and that nothing else does, how many stamped values are added and
//! what room is left; a read keeps the bound of a bisection; a row is made of its parts, and shows them. (The fat node of Driscoll, Sarnak, Sleator and Tarjan.)
//!
//!     row.reserve(2)?;
//!     row.set_over(&order, slot, from, to, Content::Number(7));
#![tactic(auto)]

mod cells;
mod content;
mod laws;
mod parts;
mod row;
mod stamps;

pub use content::{Content, Segment, Stamp};
pub use laws::{
    cuts_hold, insertions_keep_rows, parts_hold, replacements_hold, rows_are_inside,
    rows_are_steady, sets_hold, splits_hold,
};
pub use row::Row;
