//! Texts judged: a text is that of a typed program, or it has one first fault.
//!
//! Model: the verdict on a text (`Judged`): its tree and its typed program, or its first fault with the line. A lexical fault
//! anywhere comes before a fault of the grammar, and that before one of typing.
//!
//! Contract: [`program_of`] gives the typed program of a text, or its fault; want of memory is the one free answer. [`page_of`]
//! gives the canonical text of the program or the listing of its code, or the same fault, whose line [`fault_text`] writes;
//! [`canonical_program`] gives the program and its canonical text. By law a text has at most one verdict.
//!
//!     match program_of(alloc, text) {
//!         Ok(program) => run(program),
//!         Err(NoProgram::Fault(fault)) => fault_text(alloc, fault),
//!         Err(NoProgram::Memory) => Err(NoMemory),
//!     }
#![tactic(auto)]

mod fault;
mod judge;
mod laws;
mod page;

pub use fault::{Fault, FaultKind, fault_text};
pub use judge::{NoProgram, program_of};
pub use laws::text_has_one_verdict;
pub use page::{Page, canonical_program, page_of};
