//! The store of a linear history with what no clause says: that the calls which take memory succeed, and that the clauses mean what
//! is meant.
#![tactic(auto)]

#[cfg(test)]
mod runs;
