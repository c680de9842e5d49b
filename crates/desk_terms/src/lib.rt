//! What the tracing desk finds, and how a report of it is spelled.
#![tactic(auto)]

mod findings;
mod laws;

pub use findings::{Accused, AccusedList, Findings, Places};
pub use laws::{registers_have_rolls, worked_bounds, worked_examples};
