//! The frames of one call, run from one charge that is due to the next, or to the end, over any heap at many places.
//!
//! Model: where a run stands is a frame, those that wait for it and a world of the machine's definition (`current_of`,
//! `waiting_of`, `world_of`); a part of a run is a way between two of these (`Ran`).
//!
//! Contract: a run of valid code that stands soundly, with numbers and room for all that its charges pay for, comes by the steps
//! of the definition to a charge that is due, to the end of its call or to a trap, and answers which. It can go on from a charge
//! that is due. Other places keep their heaps, also after want of memory; then a place that can't be written keeps its own too.
//! What a single instruction does to a frame is pst_machine_steps'; the calls of a run one after another, and how many charges they are
//! granted, are pst_machine's.
//!
//!     let step = run(&mut standing, &code, &mut heap)?;
#![tactic(auto)]

mod running;

pub use running::run;
