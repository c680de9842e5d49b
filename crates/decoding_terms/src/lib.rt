//! Parameters of a list decoder: what they are, that they exist wherever there are enough points, and how small they are.
#![tactic(auto)]

mod laws;

pub use laws::{parameters_exist, parameters_suffice, worked_examples};
