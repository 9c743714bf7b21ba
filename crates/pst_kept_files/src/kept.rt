//! What a session knows of its two files.

use crate::Role;
use pst_kept_text::Place;

/// What a session knows of its two files: which one counts, where the text stands in it, its generation, and the check of its last group.
#[derive(Clone, Copy, Debug)]
pub struct Kept {
    pub(crate) role: Role,
    pub(crate) place: Place,
    pub(crate) generation: u64,
    pub(crate) check: [u8; 16],
}
