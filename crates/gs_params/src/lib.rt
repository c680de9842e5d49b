//! The numbers with which a curve is looked for, and what everything that finds one promises.
#![tactic(auto)]

mod choice;
mod interpolate;
mod parameters;

pub use choice::params;
pub use interpolate::Interpolate;
pub use parameters::{ParamError, Params};
