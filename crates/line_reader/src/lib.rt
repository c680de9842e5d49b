//! A text read line by line, by the forms of `form_terms`.
#![tactic(auto)]

mod cutting;
mod lines;
mod words;

pub use form_terms::{LineFault, RowKinds};
pub use lines::Lines;
