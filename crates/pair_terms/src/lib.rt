//! Pairs of a place and a symbol, of which several may share a place, and what list recovery finds of them.
#![tactic(auto)]

mod laws;

pub use laws::{pairs_are_told, recovered_is_told, words_are_pairs, worked_examples};
