//! Curves by Koetter's interpolation.
#![tactic(auto)]

mod cancelling;
mod conditions;
mod costs;
mod curve;
mod derivatives;
mod expanding;
mod frame;
mod koetter;
mod points;
mod raising;

pub use costs::koetter_cost;
pub use koetter::Koetter;
