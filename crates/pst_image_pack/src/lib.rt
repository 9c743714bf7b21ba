//! The image of a store.
//!
//! Model: a store is the lists of `Stored` (`pst_store_meaning`), and an image is the bytes of its parts (`pst_image_form`, `pst_image_meaning`).
//!
//! Contract: `pack` gives the image of a store at rest that an engine left, with a text, the number of the next run and a budget. The
//! image keeps all rules of one, and denotes the nodes of the store at each position (`pst_image_meaning`).
//!
//!     let image = pack(alloc, &store, text, session.next_run(), session.budget())?;
#![tactic(auto)]

mod image;
mod nodes;
mod positions;
mod versions;

pub use image::pack;
