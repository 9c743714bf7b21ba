//! Engines and images: an engine leaves a store which an image can be made of, and takes up a store which is made of an image.
//!
//! Model: a store (`pst_store_meaning`), a history for which an engine and the store stand, and a heap that an engine opens on.
//!
//! Contract, by laws: an engine that stands for a history over a store leaves one of which an image can be made (`an_engine_leaves`).
//! Where the forks of a store stand in the order of runs, its versions are nested as an image asks it (`orders`). A
//! history counts at most 1,000,000,000 for each run number that was taken, and as much for the root record, where its opening did so, as
//! that of version 0 alone does; and that is at most 2^50 (`counts`). A store that keeps what a store keeps, with records and versions of
//! runs below the next one, and whose forks are its versions, is a heap over which an engine with that next run stands for the opening
//! that the heap has (`opened`).
#![tactic(auto)]

mod leaving;
mod opening;

pub use leaving::{an_engine_leaves, counts, orders};
pub use opening::opened;
