//! The instructions of the machine, one by one: what each does to a frame of registers, over any heap at many places.
//!
//! Model: a frame as the machine's definition has it, by what its registers hold, where pointers are names (`frame_of`); where a
//! run stands, as its place, charges, frames and printed numbers (`Standing`).
//!
//! Contract: an instruction, whose registers the frame has, leaves the frame that one step of the definition leaves, and answers
//! whether the run goes on, waits, ends or traps; one that reads changes no heap, and one that writes changes that of its own place
//! alone. Calls keep the frame that waits, and returns go back to it. A reference that is brought up to date (`renew`) stands for the
//! same record. Where a run goes is said above: here nothing is repeated, and no code is looked up but the procedure that is called.
//!
//!     let step = apply(&mut frame, Op::Add, sum, left, right);
//!     let step = load(&heap, at, &mut frame, kinds, d, object, slot);
#![tactic(auto)]

mod calls;
mod fields;
mod frame;
mod plain;
mod register;
mod standing;

pub use calls::{call, fill, leave, let_go};
pub use fields::{Element, load, load_element, make, renew, root, set_root, store, store_element};
pub use frame::{held, operand, read, set};
pub use plain::{apply, bound, check, copy, jump, jump_at_most, jump_less, negate, take_charge};
pub use register::{Register, same};
pub use standing::{CallFrame, Seen, Standing, Step, Top, Waiting};
