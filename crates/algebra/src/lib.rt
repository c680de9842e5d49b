//! Rings and fields of characteristic two on any type, and what holds of polynomials over them.
#![tactic(auto)]

mod laws;

pub use laws::{
    laws_of_binomials, laws_of_derivatives, laws_of_division, laws_of_lists, laws_of_products,
    laws_of_roots, laws_of_shifts, laws_of_sums, laws_of_values, no_divisors_of_zero,
};
