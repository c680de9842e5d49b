//! A plain check of findings, which shares nothing with the decoder.
#![tactic(auto)]

mod checking;
mod listed;
mod missing;
mod places;
mod rows;
mod slots;

pub use checking::check;
pub use report_terms::Verdict;
