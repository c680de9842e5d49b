//! Curves as lists of coefficients, their derivatives, and the steps of Koetter's interpolation.
#![tactic(auto)]

mod laws;

pub use laws::{laws_of_order, laws_of_steps};
