//! What typing is, and what holds of it.
//!
//! The model is a function of a program's tree, `checked`, by two walks: the first notes the names that are declared, the
//! second judges each declaration with its statements, where all these names are known. Each walk goes in the order of the
//! text, an expression from its operands to itself, and the first check that fails is the answer, with its line. Without one
//! the answer is the program with names turned into numbers. The order of the checks is this project's own.
//!
//! The laws: a program that is accepted is well typed, where its text keeps the limits of depth; what is typed of a text
//! without arrays has none. Small programs show each fault, and what slots, locals and nulls become.
//!
//! For example `record N 2 { ptr next: N; val key: int; }` has its number in slot 0 and its pointer in slot 1, and in
//! `n.next != null` the null is one of the type `N`.
#![tactic(auto)]

mod fault;
mod laws;

pub use fault::TypeFault;
pub use laws::{
    a_list_is_typed, accepted_programs_are_typed, arrays_are_typed, first_faults_of_arrays,
    first_faults_of_small_programs, texts_without_arrays_stay_so,
};
