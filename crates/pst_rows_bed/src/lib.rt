//! A row over an order with the same stamped values beside it in a plain list, its reads, and lists of places that grow: what
//! is timed and tried of orders and of rows.
//!
//! Model: those of the order and of the row. A bed is ready for an order (`IsReady`) where its row is one over the order's list
//! and its places are in the row's life.
//!
//! Contract: a bed stays ready where it is stamped or gets a place, and places that were inserted are in the order's list
//! (`AreIn`). That reads of the row and of the plain list are the same, and in which order places stand, no clause says:
//! `pst_rows_times` compares and prints it.
//!
//!     let mut bed = Bed::new(alloc, &mut order)?;
//!     bed.stamp(&mut order, SlotNo(0), Content::Number(7))?;
#![tactic(auto)]

mod bed;
mod orders;
mod reads;

pub use bed::{Bed, Written};
pub use orders::{
    are_in_order, are_reversed, compare_many, insert_at_random, insert_behind, insert_behind_first,
};
pub use reads::{filled, find_splits, read_rows, scan_rows};
