//! Code that is made by hand, since no program has it: which is valid, and how it is listed; and a run of several calls, in slices,
//! over the forest, with values worked out by hand.
#![tactic(auto)]

#[cfg(test)]
mod arrays;
#[cfg(test)]
mod listings;
#[cfg(test)]
mod made;
#[cfg(test)]
mod runs;
#[cfg(test)]
mod samples;
#[cfg(test)]
mod session;
#[cfg(test)]
mod speed;
#[cfg(test)]
mod validity;
