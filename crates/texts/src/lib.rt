//! The small texts that every format is made of: names and whole numbers.
#![tactic(auto)]

mod names;
mod numbers;

pub use names::{is_name, is_plain};
pub use numbers::{number_text, read_number};
