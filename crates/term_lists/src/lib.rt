//! Terms x^i y^j in order of weight, polynomials from lists of their coefficients, and tables of powers.
#![tactic(auto)]

mod exponents;
mod polynomials;
mod tables;

pub use exponents::{Exponents, terms_below};
pub use polynomials::polynomial_of;
pub use tables::{power_derivative, powers};
