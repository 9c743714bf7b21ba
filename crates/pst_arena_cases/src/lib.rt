//! What no clause says of rows and nodes: that a row which is made of its parts shows them, that the calls which take memory
//! succeed, and how large a node is.
#![tactic(auto)]

#[cfg(test)]
mod nodes;
#[cfg(test)]
mod rows;
