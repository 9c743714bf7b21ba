//! The ordinary heap, the forest, versions, paths and dumps with what no clause says: that the calls which take memory succeed, and
//! that the clauses mean what is meant, beside texts that are worked by hand.
#![tactic(auto)]

#[cfg(test)]
mod built;
#[cfg(test)]
mod dumps;
#[cfg(test)]
mod forks;
#[cfg(test)]
mod paths;
#[cfg(test)]
mod versions;
#[cfg(test)]
mod writes;
