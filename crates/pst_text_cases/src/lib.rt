//! What no clause says of texts: canonical texts of trees, also of one that no text gives; replies that no script brings about;
//! where tokens stand and how large they are; that bytes of a source come once whatever the pieces, with lines at the borders of
//! pieces; shapes, lists and words; the texts of the samples; and that the calls which take memory succeed.
#![tactic(auto)]

#[cfg(test)]
mod devices;
#[cfg(test)]
mod lines;
#[cfg(test)]
mod lists;
#[cfg(test)]
mod replies;
#[cfg(test)]
mod samples;
#[cfg(test)]
mod shapes;
#[cfg(test)]
mod tokens;
#[cfg(test)]
mod trees;
