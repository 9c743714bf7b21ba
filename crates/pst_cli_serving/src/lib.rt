//! The text of a program served: its script answered by one of three sessions, a page of it written, or the line of its fault; and
//! the table of how much was read, written and held under each status.
//!
//! Model: the output of an input for a job is a list of pieces (`pieces`): the replies to its script, or one page, or the line
//! of the program's fault alone. The table (`Row`) says by the status how far the input was read, which of the pieces are
//! written, and what is held then. A session, with what is held beside it, stands for histories of its program (the trait
//! [`Session`](pst_cli_scripts::Session)).
//!
//! Contract: [`serve`] answers the script behind a program by a session that is begun for it, [`print`] writes a page, and both write
//! the line of the fault of a text that is no program's, as [`refuse`] does. What they come to is a row of the table, by the lemmas of
//! this crate. By law an input has at most one output for a job. [`Running`] answers by the engine over a store of fat nodes,
//! [`Replaying`] by executing each version's runs again, and both give the replies of a tree of versions; [`Lining`] answers by the
//! store of a linear history, where only the newest version may be written. What is held is left with every version of the
//! history, within the bound of its store.
//!
//!     let text = read_text(alloc, &mut lines, source)?;
//!     let status = serve::<Replaying, S, K>(alloc, text, &mut (), &mut lines, source, sink);
#![tactic(auto)]

mod laws;
mod lining;
mod replaying;
mod running;
mod stopped;
mod text;

pub use laws::input_has_one_output;
pub use lining::Lining;
pub use replaying::Replaying;
pub use running::Running;
pub use stopped::status_of;
pub use text::{print, refuse, serve};
