//! Linear systems over a field: a vector that every row of a matrix sends to zero, and the rank, by elimination in place.
#![tactic(auto)]

mod elimination;
mod matrix;
mod pivot;
mod solution;

pub use matrix::Matrix;
