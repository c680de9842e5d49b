//! What the search for y-roots finds, and what its steps are.
#![tactic(auto)]

mod laws;

pub use laws::{laws_of_bounds, laws_of_constants, laws_of_numbers, laws_of_orders};
