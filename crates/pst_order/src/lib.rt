//! The order of places: a list in which a new place may come in directly behind another, and comparisons of places that
//! are counted.
//!
//! Model: the list of the places' numbers; the position of a place is its rank there. [`LabelOrder`] also has the label of each
//! place (below 2^62).
//!
//! Contract: each call is exact by that list, and a refusal changes nothing. `partition` finds a place among `n` in at most `s`
//! comparisons, where `2^s` is at most `2 * n + 1`. After each insertion the labels of [`LabelOrder`] are exactly those of the rule,
//! and it refuses none for want of labels. (The order list of Dietz and Sleator, with a label rule of this project; `RowOrder` is
//! the same as a plain vector.)
//!
//!     let place = order.insert_after(order.first())?;
//!     order.before(order.first(), place)
#![tactic(auto)]

mod compare;
mod labels;
mod order;
mod row;

pub use compare::{Compare, Counting, PlaceList, partition};
pub use labels::{LabelOrder, rule};
pub use order::{Order, Pos, Walked, ranks, ranks_rise};
pub use row::RowOrder;
