//! The type check of one procedure, and what a declaration adds to the declared names.
//!
//! The model is that of `pst_typing`: `procedure` is the first fault of a procedure with its line, or the typed procedure, in
//! the scope of all declared names; `noted` is that scope with one more declaration, or why it may not stand there. A procedure
//! is seen as its head, a [`ProcedureHead`], and its body, so that the body can be let go before the head is; [`as_procedure`]
//! gives the two.
//!
//! [`judge_procedure`] gives the answer of `procedure`, [`approve_procedure`] its verdict alone, and [`note`] the answer of `noted`,
//! which no body changes. Statements are judged by `pst_types_statements`. Want of memory is the one free answer.
//!
//! ```text
//! judge_procedure(alloc, &scope, &head, body)     // of `proc p(a: int, a: int) { }` in line 2: Err(TypeFault::Duplicate { line: 2 })
//! ```
#![tactic(auto)]

mod declaration;
mod procedure;

pub use declaration::note;
pub use procedure::{ProcedureHead, approve_procedure, as_procedure, judge_procedure};
