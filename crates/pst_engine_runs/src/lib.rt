//! The runs of an engine: what code means by its machine, runs as they are asked for, and the open runs of a session.
//!
//! *Code with a meaning.* The model is a relation of definitions, `IsMeaningOf`: a meaning, as histories need one, is that of a code
//! where each outcome of work is the one to which the machine comes on that code. It is this project's own, and needs no bound on steps.
//! Code with such a meaning is `Meant`. All valid code has one, `by_machine`, defined from the machine alone, and no second one
//! (`BareCode`). The laws: the code of a well-typed program has the program's meaning (`Compiled` holds such a program and its code);
//! that meaning is lawful, and queries write nothing in it; so all that is said of histories of a program holds of those of its code.
//!
//! *Runs.* The model is the work of a run, the charges granted, the heap that it began on and what it counted (`Runs`, `runs_of`). A
//! run of code whose meaning is known stands, after each slice, where its work stands with the charges granted so far: it has that
//! outcome's heap, printed numbers, end and counts, whatever other runs did meanwhile at other places.
//!
//! *Open runs.* The model is a history of which the entries of the open runs and a heap are the present state (`StandsFor`): the heap has
//! the versions of the history, each with its heap; each open run has one entry, at its own fork, where its work stands under the
//! charges granted so far. [`refused`] gives the first refusal of a command by what entries and heap hold, and [`index_of`] the entry of
//! an open run. For every history for which they stand, [`step`], [`call`] and [`query`] answer as it says, and they stand for the
//! history after that; a query leaves it as it is. Each version keeps its row, its place and its heap.
//!
//!     let mut run = bare(code, alloc, place, RunNo(1), 1_000_000)?;
//!     add(code, &mut run, &procedure, &arguments)?;
//!     let end = advance(code, &mut run, &mut heap, 100)?;
//!     let at = index_of(&active, run);
//!     let reply = step(&code, &mut heap, &mut active.items, at, run, 100)?;
#![tactic(auto)]

mod bare_code;
mod calls;
mod compiled;
mod entry;
mod laws;
mod meant;
mod reading;
mod refusal;
mod runs;
mod slices;

pub use bare_code::BareCode;
pub use compiled::Compiled;
pub use entry::{Activations, OpenEntry};
pub use laws::{code_has_one_meaning, compiled_code_means_the_program, valid_code_has_a_meaning};
pub use meant::Meant;
pub use reading::{copy_of, place_at, query};
pub use refusal::{index_of, refused};
pub use runs::{add, advance, bare, known, refusal_of_procedure, refusal_of_query};
pub use slices::{call, step};
