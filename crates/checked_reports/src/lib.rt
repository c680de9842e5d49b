//! What a verdict on a report says of who is accused.
#![tactic(auto)]

mod laws;

pub use laws::{found_is_right, right_is_exact};
