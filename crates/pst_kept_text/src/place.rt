//! Where a text stands in a file.

/// Where the text of a file begins, where its whole groups end, and up to where zeros stand behind them: offsets in bytes from the
/// start of the file, `base <= end < room`.
#[derive(Clone, Copy, Debug, PartialEq, Eq)]
pub struct Place {
    pub base: usize,
    pub end: usize,
    pub room: usize,
}
