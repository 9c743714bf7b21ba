//! The replies to a script from its history alone: the plain program that the session engine is compared with.
//!
//! Its model is the history of a script, with the opening in which version 0 is alone. A [`Replayer`] keeps the budget that
//! stands and the runs and versions since, and no heap. [`Replayer::apply`] gives the reply to a command, and keeps the
//! history after it: for a version's heap it executes the runs on the path from version 0 again, each with its whole budget,
//! and then the run that is asked for under the charges granted to it. So a line costs what the runs on one path cost, and
//! `stats` costs that for each run so far. A procedure is looked up by its name where a line names it, and kept by its number
//! beside the history, so that no run on a path asks for it again. `refused` gives the refusal of a command by the order of
//! `pst_history`'s `refusal`, or none where it is to be answered; it takes no memory, executes nothing and changes nothing.
//!
//! ```text
//! run 0 add 5      version 1            executes add 5
//! open 1           run 2                executes nothing
//! call 2 add 7     run 2 running        executes add 5, and add 7 up to its first charge
//! close 2          version 2            executes add 5 and add 7
//! run 7 add 5      refused version      executes nothing: there are versions 0 to 2
//! ```
#![tactic(auto)]

mod answer;
mod arguments;
mod history;
mod path;
mod program;
mod refusal;
mod replayer;
mod runs;

pub use history::{NumberedHistory, RunCalls};
pub use replayer::Replayer;
