//! The y-roots of a polynomial in two variables: all polynomials f of low degree with Q(x, f(x)) = 0.
#![tactic(auto)]

mod branches;
mod numbers;
mod roots;
mod search;

pub use roots::poly_roots;
