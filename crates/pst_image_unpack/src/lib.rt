//! Reading an image that nobody has to trust, and the store that is made of it.
//!
//! Model: bytes begin with an image that keeps all rules (`IsAccepted`), or one rule is the first that fails (`FailsFirst`). The store of
//! the parts of an image is `IsRebuilt` of `pst_image_meaning`.
//!
//! Contract: [`unpack`] gives the program of an image, the store that it tells of, and how long it is, exactly where all rules hold; else
//! it says which rule fails first. By the laws of `accepted_or_refused` never both are so, and no two rules fail first; by those of
//! `packed_and_taken` a store that was taken is packed as the same bytes again, and what is packed of any store is accepted. [`rebuild`] makes the store: the order list
//! by insertions behind the last place, the nodes with their rows, the versions, their forks in the order of the runs, and for each
//! record the place over which it lives. It shows the parts again, and has the heap at each position that the parts denote. All takes
//! time by the length of the image. Want of memory is the one free answer. (This project's own form of keeping a store of fat nodes.)
//!
//!     let unpacked: Unpacked<LabelOrder, Arena> = unpack(alloc, bytes)?;
//!     let script = &bytes[unpacked.length..];
#![tactic(auto)]

mod building;
mod contents;
mod fault;
mod laws;
mod nodes;
mod order;
mod records;
mod taking;
mod versions;

pub use fault::ImageFault;
pub use laws::{accepted_or_refused, packed_and_taken};
pub use taking::{Unpacked, unpack};
