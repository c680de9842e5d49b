//! What the tracing desk finds over pairs of a place and a symbol.
#![tactic(auto)]

mod laws;
mod merged;

pub use laws::{words_are_merged, worked_examples};
pub use merged::Merged;
