//! The types of statements.
//!
//! The model is `block` of `pst_typing`: of statements in a setting, that is where they stand in a procedure, the first fault
//! with its line, or the typed statements in order. [`judge_block`] gives it, and [`approve_block`] its verdict alone; the
//! expressions in them are judged by `pst_types_expressions`. Want of memory is the one free answer.
//!
//! ```text
//! judge_block(alloc, &setting, &statements)   // of `root = 1;` in line 2 of a query: Err(TypeFault::QueryWrites { line: 2 })
//! ```
#![tactic(auto)]

mod statement;

pub use statement::{approve_block, judge_block};
