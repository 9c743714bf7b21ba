//! The compiler: from a typed program to its code.
//!
//! The model is `code_of` of `pst_translation`, a function from the routines of a program to the parts of a code. `compile` gives
//! exactly those parts for a well-typed program, or finds no memory; a procedure whose code would have more than 4,294,967,295
//! instructions counts as want of memory.
//!
//! Each procedure takes two passes: the first notes which temporary registers its code needs, one for each level and kind, and
//! the second adds the instructions, a statement at a time. Jumps are known before they are added, since the length of a condition
//! does not depend on where it stands (`pst_codegen_expressions`). A nested block is made as a list of its own: [`emit_guarded`] and
//! [`emit_choice`] add the code of blocks behind the test, with jumps to the indices that they are given.
//!
//! For example `print x` in line 1 is `charge 1`, `print r0`, and `while x < 5` with a body of three instructions is `charge 1`,
//! `const r1 5`, `jumpge r0 r1 7`, the body, `jump 0`.
#![tactic(auto)]

mod blocks;
mod choices;
mod compiler;
mod ends;
mod statements;

pub use compiler::compile;
