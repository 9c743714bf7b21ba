//! The engine over any heap of versions beside the replayer of the definitions, and over code that no program has.
//!
//! Model: a program, an engine with its heap, and a replayer, `twins::Twins`, which are given the same lines.
//!
//! Both can answer each line: that is proved. That the replies are equal is what the tests show, as they run.
#![tactic(auto)]

#[cfg(test)]
mod bare;
#[cfg(test)]
mod driving;
#[cfg(test)]
mod forms;
#[cfg(test)]
mod lines;
#[cfg(test)]
mod tests;
#[cfg(test)]
mod twins;
