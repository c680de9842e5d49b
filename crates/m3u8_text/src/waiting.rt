//! A duration that waits for its URI.

/// A duration in microseconds, and the number of its line.
#[derive(Clone, Copy, Debug, PartialEq, Eq)]
pub(crate) struct Waiting {
    pub(crate) micros: u64,
    pub(crate) line: u32,
}
