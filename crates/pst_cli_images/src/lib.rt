//! Images on the command line: `pack` writes the image of the store that a script leaves, `resume` answers the script behind an image,
//! and `repack` writes the next image.
//!
//! Model: a history of a program, after lines of its script, and an image: the bytes of the parts that a store shows
//! (`pst_image_meaning`). Where an input begins with an image, the bytes behind it are a script, and the image is the opening of its history
//! (`opening_in`): its versions, the heaps that its nodes denote, its counts, the number of its next run and its budget. The tables
//! (`PackRow`, `ResumeRow`, `RepackRow`) say by the status how far the input was read, what is written, and what the store is left in.
//!
//! Contract: [`pack_input`] reads a program and its script, carries the script out as `run` does, writes no reply, and then writes the
//! image of the store, with the program's canonical text, as one piece, or the line of the program's fault. The image denotes the heaps
//! of the store (`IsImage`), and keeps the rules of one. [`resume_input`] reads an input to its end, judges the image at its front, and
//! answers the script behind it over a store that is made of the image, each line as `run` answers it in a history that begins with
//! that opening; or it writes the line of the first rule that fails. Until the image is accepted the store is as it was handed in.
//! [`repack_input`] does the same, but writes no reply, and then the image of the store that is left; or the line of a rule that fails: of
//! the image that it was given, or, where more was counted than an image can hold, of the one that it would write. (This project's
//! own form of keeping a store of fat nodes.)
//!
//! Laws: `resumed`, of an input of which the image is written (`IsPacked`), and that image with a second script behind it (`IsResumed`).
//! Such an image is accepted, whatever stands behind it, and is the opening that is taken up from the history of the script that was
//! packed (`PackedIsAcceptedLaw`), so it is never refused (`NeverRefusedLaw`). What is written behind it are the replies that the second
//! script has behind the first one, with its open runs dropped, under the program that the canonical text is (`ResumedLaw`). An image
//! keeps a history (`KeepsHistory`) where it is the opening that is taken up from it: by `day_after_day` an image which is packed keeps
//! the history of its script, and one that is packed again behind a script keeps the history that both scripts leave, with the open
//! runs dropped between them.
//!
//!     let mut store: Store = Store::empty();
//!     let status = resume_input(alloc, source, sink, &mut store);
#![tactic(auto)]

mod pack;
mod packing;
mod repack;
mod repacking;
mod resuming;

pub use pack::scripts;
pub use packing::pack_input;
pub use repack::{day_after_day, resumed};
pub use repacking::repack_input;
pub use resuming::{refuse_image, resume_input};
