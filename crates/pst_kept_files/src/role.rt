//! Which of two files counts.

/// Which of two files counts.
#[derive(Clone, Copy, Debug, PartialEq, Eq)]
pub enum Role {
    First,
    Second,
}
