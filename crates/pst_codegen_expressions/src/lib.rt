//! The first pass of the compiler, which finds the temporary registers of a procedure, and the code of expressions and conditions.
//!
//! The model is `table_of`, `expr_code` and `test_code` of `pst_translation`. A [`Table`] is a list of levels and kinds in the order in
//! which the code first needs them, and knows the index of each; `table_of` gives that of a procedure whose expressions are operands
//! and conditions of levels that fit 16 bits, as those of a well-typed program are. A [`Layout`] has the registers: the parameters and
//! locals of a procedure first, then its temporary ones. [`emit_expr`] adds exactly the code of an operand and answers the register
//! that holds its value, and [`emit_test`] adds that of a condition, as a jump to where it comes out as wanted.
//!
//! A jump is known before it is added: [`test_len`] is how many instructions a condition takes, wherever it stands. Want of memory
//! is the one free answer, also where an index would not fit 32 bits.
//!
//! For example the code of `x = x + 1` needs two temporary registers: the number of level 1, into which the 1 is loaded, and that of
//! level 0, for the sum. `x < 5`, to be left for index 7 where it does not hold, is `const r1 5`, `jumpge r0 r1 7`.
#![tactic(auto)]

mod conditions;
mod expressions;
mod layout;
mod needs;
mod table;

pub use conditions::{after, emit_test, test_len};
pub use expressions::{emit_expr, put};
pub use layout::Layout;
pub use needs::table_of;
