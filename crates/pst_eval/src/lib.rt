//! Runs of a typed program on an ordinary heap, by its direct meaning.
//!
//! Model: the outcome of a list of calls, and the values and answers of the direct meaning (`pst_program`). Beside the heap a run keeps
//! a [`Tally`]; the two together are the world of the definitions, and an [`End`] with them is an ending.
//!
//! Contract: [`evaluate`] gives the outcome and leaves its heap, for every heap of the program's shape in which no record has the
//! run's number. It asks for no typing. The list of calls goes on under one budget, one list of printed numbers and one
//! numbering of records. Its parts: [`value`] gives what an expression gives, or the kind of its first trap from left to right;
//! [`arguments`] and [`first_env`] the values that a call begins with; [`write`] does what a write of a field does, and takes no
//! charge: it asks for a tally of which one charge was taken that nothing was done for, and leaves one from which the run may go on.
//!
//!     let outcome = evaluate(alloc, &program, &mut heap, &spec)?;
#![tactic(auto)]

mod call;
mod calls;
mod locals;
mod run;
mod steps;
mod tally;
mod values;
mod whole;
mod work;
mod writes;

pub use whole::{Outcome, RunSpec, evaluate};
