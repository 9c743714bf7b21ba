//! What the words of a call ask for, and with which status it ends.
//!
//! Model: words are lists of bytes. They ask for a job with an input, for the bench with a number, for an answer to a question
//! about the versions of a script, for an image of the store that a script leaves, for the replies to a script behind an image, as a whole or
//! line by line, for the image of the store that such a script leaves, or for nothing that there is. A line of a script may ask a question, too.
//! A status is one of seven.
//!
//! Contract: [`task_of`] gives exactly what the words ask for, with numbers as a script writes them, and [`path_in`] the path of
//! a question among them. [`question_in`] gives exactly the question that a line asks, and [`questions_by_hand`] says what that is for short
//! ones. [`number`] gives the number with which the program ends.
//!
//!     match task_of(words) {
//!         None => Status::Usage,
//!         Some(Task::Input(job)) => carry_out(job, source, sink),
//!         Some(Task::Ask(question)) => ask(question, path_in(words), source, sink),
//!         Some(Task::Bench(number)) => bench(number, sink),
//!         Some(Task::Pack) => pack_input(source, sink),
//!         Some(Task::Resume) => resume_input(source, sink),
//!         Some(Task::Serve) => serve_input(source, sink),
//!         Some(Task::Repack) => repack_input(source, sink),
//!     }
#![tactic(auto)]

mod asked;
mod job;
mod status;
mod worked;

pub use asked::{Asked, question_in};
pub use job::{Job, Question, Task, path_in, task_of};
pub use status::{Status, number};
pub use worked::questions_by_hand;
