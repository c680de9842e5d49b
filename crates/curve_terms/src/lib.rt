//! Curves Q(x, y) that are zero at some points with a given multiplicity, and the polynomials that go through many of the points.
#![tactic(auto)]

mod laws;

pub use laws::{agreement_makes_a_root, counted_agreement};
