//! What tests of engines share.
//!
//! Model: none of its own; texts, programs and heaps have those of the crates that they come from.
//!
//! Contract: [`program_of`] and [`compiled`] give the typed program of a text, and that with its code; [`forest_for`] gives a forest
//! as it is started for a program, by the law of [`a_new_forest_is_started`] one with which a new engine stands for the opening.
//! [`Random`] makes numbers up, the same in each run, and [`Trouble`] is why a test comes to no answer.
//!
//!     let code = compiled(alloc, b"root a: int;")?;
//!     let forest = forest_for(alloc, &code)?;
#![tactic(auto)]

mod laws;
mod programs;
mod random;
mod trouble;

pub use laws::a_new_forest_is_started;
pub use programs::{compiled, forest_for, program_of};
pub use random::Random;
pub use trouble::Trouble;
