//! The bench: a large script over the program of a ring (`pst_samples::ring`), carried out and summed up.
//!
//! Model: the script is a list of bytes, a function of the number of versions on its path and of the bench's number
//! (`specs/Script`); its lines (`bench_lines`), the history of a program after them, and the numbers that the replies say were printed
//! (`printed_from`). The table of the bench (`BenchRow`) says by the status what is written of the summary, and what the store is left in.
//!
//! Contract: `bench_script` gives exactly the script for a path of 20,000 versions, or finds no memory; `scripts_by_hand` says what the
//! definition gives for short paths. [`bench`] carries the script out for the program with a text, over a store, and writes the
//! summary as one piece: how many versions there are, what `stats` answers, how many nodes the store has, and the sum of what was
//! printed; or the line of the program's fault. Nothing is read.
//!
//!     let mut store: Store = Store::empty();
//!     let status = bench(alloc, ring().as_bytes(), 1, sink, &mut store);
#![tactic(auto)]

mod lines;
mod script;
mod summary;
mod worked;

pub use script::{SIZE, bench_script};
pub use summary::bench;
pub use worked::scripts_by_hand;
