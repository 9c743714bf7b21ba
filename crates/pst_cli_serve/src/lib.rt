//! `serve`: the script behind an image, line by line.
//!
//! Model: a history of a program that begins with an image as its opening (`opening_in` of `pst_cli_images`). A line is answered on it by a
//! relation (`Says`): a question about the versions by the answer that the word of its name gives, a dump with the line `ok` behind it, or
//! else as a command of a script. A question changes nothing. The table (`ServeRow`) says by the status how far the input was read, which
//! lines are answered, and what the store is left in.
//!
//! Contract: [`serve_input`] reads the image at the front of an input as far as its own sizes tell (`promised`), and less than one read
//! beyond, and judges it. Then each line is carried out and answered before the next one is waited for, over a store that is made of the
//! image; or the line of the first rule that fails is written. Where a read or a write fails, or there is no memory, the lines before are
//! answered, and the store is left after them.
//!
//! Laws: where no line asks a question, what is written is what `resume` writes where it answers all lines, and both judge an image alike
//! (`served_as_resumed`). Behind an image that was packed, and behind one that keeps a history, commands have the replies that they have
//! behind the script of which it is the image, or on that history; and such an image is never refused, whatever its size (`served_behind`).
//!
//!     let mut store: Store = Store::empty();
//!     let status = serve_input(alloc, source, sink, &mut store);
#![tactic(auto)]

mod answer;
mod laws;
mod script;
mod serving;

pub use laws::{served_as_resumed, served_behind};
pub use serving::serve_input;
