//! Curves by linear algebra.
#![tactic(auto)]

mod costs;
mod equations;
mod linear;

pub use costs::linear_cost;
pub use linear::Linear;
