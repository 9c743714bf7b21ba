//! The types of expressions.
//!
//! The model is `judged` of `pst_typing`: of an expression in a setting the first fault, or a null that waits for its type, or
//! the typed expression with its sort. [`judge`] gives it, [`fit`] what fits a type, and [`of_sort`] a number or a truth;
//! [`plain_field`] and [`array_field`] give a field by its name, as it is read and written. Want of memory is the one free
//! answer.
//!
//! ```text
//! judge(alloc, &setting, 3, &expression)      // of `null + 1`: Err(TypeFault::Mismatch { line: 3 })
//! ```
#![tactic(auto)]

mod expression;

pub use expression::{
    Array, Judged, Object, Sort, array_field, as_object, fit, judge, of_sort, plain_field,
};
