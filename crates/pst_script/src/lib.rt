//! The lines of a script: the commands that they are, and the texts that answer them.
//!
//! A line is a list of bytes, and its words are what stands between blanks. `read_line` gives the one command that the
//! words write, nothing for a line that has no reply, or why they write none: their form is judged first, then the
//! ranges of their numbers. `written_one_way` is the law that each command is written in one way but for the blanks.
//! `reply_text` gives the text of a reply, whose lines each end with a line feed, and `put_reply` puts it into a list that is used again.
//!
//! `open 3 add 7` is `OpenRun` with version 3, procedure `add` and the argument 7; `open 3` is `OpenEmpty`; the reply
//! to either is `Opened`, and its text `run 1` where 1 is the number of the new run.
#![tactic(auto)]

mod call;
mod command;
mod laws;
mod numerals;
mod read;
mod reply;
mod text;
mod verb;
mod words;

pub use command::{Call, Command, LineFault};
pub use laws::{most_charges_in_digits, written_one_way};
pub use numerals::{MOST_CHARGES, is_numeral, number};
pub use read::read_line;
pub use reply::{Parents, Refusal, Reply};
pub use text::{put_reply, reply_text};
pub use words::{is_separator, split_word};
