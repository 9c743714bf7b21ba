//! Images that are worked by hand: what they are read as, and which rule fails first; and images taken and packed again, with what
//! no clause says: that the calls which take memory succeed.
#![tactic(auto)]

#[cfg(test)]
mod forms;
#[cfg(test)]
mod images;
#[cfg(test)]
mod lists;
#[cfg(test)]
mod rules;
#[cfg(test)]
mod tests;
