//! A session in a host's own memory: lines and calls answered, questions, and the image.
//!
//! Model: a session with its store stands for histories of its program (`StandsFor`). What it answered last is kept: the typed reply, and the
//! bytes that were made last.
//!
//! Contract: [`Live::open`] makes the session of a program's text, which stands for its first history, and [`Live::resume`] that of an image,
//! which stands for the image as the opening. [`Live::line`] carries a line of a script out, and [`Live::run`] and [`Live::query`] a call that is
//! given by a procedure's name and arguments. For each history that the session stood for, the reply that is kept is the one of the history,
//! and the session stands for the history after it. [`Live::dump`] and [`Live::changed`] answer questions about the versions, and [`Live::image`]
//! gives the image: they change nothing but what is kept. Want of memory is the one free answer.
//!
//!     let mut live = Live::open(alloc, text)?;
//!     live.line(alloc, b"run 0 add 5")?;
//!     live.said();
#![tactic(auto)]

mod arguments;
mod kept;
mod live;
mod opening;
mod questions;

pub use live::Live;
