//! How much of a blob is asked for at once.

/// A whole blob is read by calls that each ask for at most this many bytes.
pub const PART_LIMIT: usize = 65_536;
