//! How far apart the codewords of a code are, and that a copy made by a coalition accuses members of it alone.
#![tactic(auto)]

mod laws;

pub use laws::{
    coalitions_are_traced, codewords_are_far_apart, merged_coalitions_are_traced,
    values_tell_polynomials, worked_examples,
};
