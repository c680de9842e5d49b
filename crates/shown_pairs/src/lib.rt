//! The pairs of a word, and where a message fits pairs.
#![tactic(auto)]

mod fitting;
mod walk;
mod word_pairs;

pub use fitting::{fitting_count, fitting_places};
pub use word_pairs::pairs_of;
