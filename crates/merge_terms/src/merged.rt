//! Findings over pairs.

use desk_terms::AccusedList;

/// What the desk finds over pairs.
#[derive(Debug, Drop)]
pub struct Merged {
    /// How many pairs there are.
    pub pairs: u32,
    /// The size of the largest coalition that the trace allows for.
    pub bound: u32,
    /// Who fits enough of the pairs.
    pub accused: AccusedList,
}
