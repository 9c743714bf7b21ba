//! How an input is read, and how a script is answered, a line at a time, by whatever answers its commands.
//!
//! Model: an input is a program's text, a separator line and the lines of a script (`cut_of`). A session, with what is held
//! beside it, stands for histories of its program; each line of the script has a reply or none on a history, and makes the
//! history after it (`script_of`).
//!
//! Contract: [`read_text`] reads the program's text and no line behind the separator. [`answer_script`] answers the lines that
//! are left by any [`Session`]: for every history that it stands for, what is written are the replies in order, each line is
//! read when the one before it is answered, and where it stops, what is held is what is left in the history after the lines so
//! far. [`read_all`] reads an input to its end, and [`answer_text`] answers the lines of a text that is in memory, as if it were a
//! script.
//!
//!     let text = read_text(alloc, &mut lines, source)?;
//!     let mut session = X::begin(alloc, program, held)?;
//!     answer_script(alloc, &mut session, held, &mut lines, source, sink)?;
#![tactic(auto)]

mod answer;
mod program;
mod script;
mod session;
mod stop;
mod text;
mod whole;

pub use answer::{answer_line, reply_to, say};
pub use program::read_text;
pub use script::answer_script;
pub use session::Session;
pub use stop::Stop;
pub use text::{answer_text, split_line};
pub use whole::read_all;
