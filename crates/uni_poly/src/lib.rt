//! Polynomials in one variable over a field, as lists of coefficients: sums, products, values, division by x + a, and roots.
#![tactic(auto)]

mod arithmetic;
mod poly;
mod root_search;
mod values;

pub use arithmetic::add_shifted;
use lists::Items;
pub use poly::{Poly, trimmed};

/// A list of polynomials over the field `F`.
pub type PolyList<F> = Items<Poly<F>>;
