//! The image at the front of an input: how far its own sizes tell that it reaches, and reading it so far.
//!
//! Model: a promise says of bytes how many of them are spoken of by the sizes at their front, as far as these sizes are there
//! (`promised`): the count of a text's bytes, of versions, of nodes, and of what each node holds. (This project's own form.)
//!
//! Contract: [`read_front`] reads the bytes that the sizes promise to the end of a text, and less than one read beyond, or all of an input
//! that ends before. Memory is taken as bytes come, and never for what is only promised. By law an image promises just itself.
//!
//!     let mut lines = Lines::up_to(alloc, MOST_SERVED);
//!     let mut bytes = Vec::new(alloc);
//!     read_front(&mut lines, source, &mut bytes)?;
#![tactic(auto)]

mod front;
mod laws;

pub use front::read_front;
pub use laws::image_is_promised;
