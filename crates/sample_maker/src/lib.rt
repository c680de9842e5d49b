//! A large valid input that is made from a number, and whom the desk accuses in it.
#![tactic(auto)]

mod copying;
mod error;
mod holding;
mod numbers;
mod playlists;
mod register;
mod sampling;
mod source;
mod summary;
mod titling;
mod tracing;

pub use error::SampleError;
pub use sampling::sample;
