//! The session over a store of a linear history: only the newest version is written, by one run at a time, which is carried to its
//! end at once. Each command is answered by what session and store hold, and no history is kept.
//!
//! Model: a history of which session and store are the present state (`SessionStands`): the store has the versions of the history,
//! each with its heap, and no run is open.
//!
//! Contract: [`LineSession::apply`] gives, for every history for which session and store stand, the reply of a linear history to
//! the command (`line_reply`), and they stand for the history after it. A run that has trapped is undone.
//!
//!     let mut session = LineSession::new();
//!     let reply = session.apply(alloc, &code, &mut store, &command)?;
#![tactic(auto)]

mod answer;
mod carrying;
mod laws;
mod lines;
mod refusal;
mod session;
mod worked;

pub use laws::a_new_session_stands;
pub use session::LineSession;
pub use worked::a_linear_history_by_hand;
