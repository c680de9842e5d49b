//! What list decoding finds, and how many products it may take.
#![tactic(auto)]

mod laws;

pub use laws::{decoded_is_told, worked_examples};
