//! What the names of a program stand for, as typing looks them up.
//!
//! The model is that of `pst_typing`: lists of names with what they stand for, in the order of declaration. A [`Scope`] has
//! the declared names, a [`Setting`] those inside a procedure too, and [`Members`] are the fields of a record type.
//!
//! Each look-up gives what the list has, in constant time. [`lay_out`] gives the fields of a record type as the first walk
//! notes them, and [`judge_fields`] those that the second walk accepts, or their first fault; [`shape_of`] and [`names_of`]
//! give a record type as a typed program has it. Want of memory is the one free answer.
//!
//! ```text
//! judge_fields(alloc, &scope, fields)     // of `val a: int * 17;` in line 2: Err(TypeFault::Limit { line: 2 })
//! ```
#![tactic(auto)]

mod fields;
mod names;

pub use fields::{judge_fields, lay_out, names_of, shape_of};
pub use names::{
    Member, Members, RecordType, Scope, Setting, Signature, Slot, Target, Variable, Word,
};
