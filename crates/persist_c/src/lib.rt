//! The library for C: a session in the host's own memory.
//!
//! Model: a host keeps a `persist` ([`Handle`]), which it begins as zero, and hands to these functions and to no other. A handle holds a session
//! or none; a session stands for a history of its program (`persist_live`).
//!
//! Contract: each function says what comes of the session that the handle held, in the terms of `persist_live`: what is kept of a line or call
//! is the reply on each history that the session stood for, and the session stands for the history after it. A function that finds no session
//! answers `CLOSED` and changes nothing. After `NO_MEMORY` of a line or call the handle holds none.
//!
//!     persist p = {0};
//!     persist_open(&p, text, length, fault, sizeof fault, &fault_length);
//!     persist_line(&p, line, length, &reply);
//!     persist_text(&p, 0, out, reply.length);
//!     persist_close(&p);
#![tactic(auto)]

mod copy;
mod exports;
mod handle;
mod summary;

pub use handle::Handle;
pub use summary::Summary;
