//! The engine over the store beside the engine over the forest.
//!
//! Model: a program's engine with its heap of versions, `session::Session`, which is given the lines of a script.
//!
//! A session can answer each line, and dump each version: that is proved. That the replies and the dumps are the same over each
//! heap, and how many nodes a store has, is what the tests show, as they run.
#![tactic(auto)]

#[cfg(test)]
mod made_up;
#[cfg(test)]
mod measured;
#[cfg(test)]
mod session;
#[cfg(test)]
mod starting;
#[cfg(test)]
mod tests;
