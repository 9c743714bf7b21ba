//! The session over any heap of versions: each command is answered by what engine and heap hold, and no history is kept.
//!
//! Model: a history of which engine and heap are the present state (`EngineStands`): the heap has the versions of the history,
//! each with its heap; each open run has one entry, at its own fork, where its work stands under the charges granted so far.
//!
//! Contract: [`Engine::apply`] gives, for every history for which engine and heap stand, its reply to the command, and they stand
//! for the history after it. So it answers as the replayer of `pst_replay` does, but a version is not made again to be read.
//!
//!     let mut engine = Engine::new(alloc);
//!     let reply = engine.apply(alloc, &code, &mut heap, &command)?;
#![tactic(auto)]

mod answer;
mod closing;
mod engine;
mod laws;
mod lines;
mod opening;

pub use engine::Engine;
pub use laws::{a_new_engine_stands, an_opening_stands};
