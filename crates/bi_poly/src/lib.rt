//! Polynomials in two variables over a field: their degrees, Hasse derivatives, substitutions and shifts, and multiples that
//! are added in place.
#![tactic(auto)]

mod bivariate;
mod degrees;
mod derivatives;
mod laws;
mod multiples;
mod row;
mod rows;
mod shifting;
mod stripping;
mod substitution;

pub use bivariate::BiPoly;
pub use laws::{degrees_of_shifts, laws_of_maps};
