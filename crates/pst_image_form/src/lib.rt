//! The form of an image: a program's text, a few numbers of its history and a store, as bytes.
//!
//! Model: the parts of an image are a record of numbers and lists (`ImageParts`), and its bytes are a function of the parts
//! (`image_bytes`): numbers of eight bytes, most significant first, one behind the other. A place is its position in the list of
//! places, from 0; a node or a version is its number. (This project's own form.)
//!
//! Contract: `write_image` gives the bytes of the parts. `read_image` gives the parts whose bytes stand at the front of a list of
//! bytes, and says `Form` exactly where there are none; `form_is_one` is the law that there are no two. Whether the parts are those
//! of a store is not asked here.
//!
//!     let image = read_image(alloc, bytes)?;
//!     let script = &bytes[image.length..];
#![tactic(auto)]

mod fault;
mod laws;
mod parts;
mod read;
mod write;

pub use fault::FormFault;
pub use laws::{entry_slots_in_digits, form_is_one};
pub use parts::{ENTRY_SLOTS, Image, ImageParts, NodePart, StampPart, VersionPart};
pub use read::read_image;
pub use write::write_image;
