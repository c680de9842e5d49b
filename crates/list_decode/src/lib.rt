//! List decoding of Reed-Solomon codes: the messages that fit at least a c-th part of some pairs of a place and a symbol, or
//! that agree with at least a c-th part of a word's readable places.
#![tactic(auto)]

mod candidates;
mod decode_error;
mod decoder;
mod laws;
mod points;

pub use decode_error::DecodeError;
pub use decoder::{decode, recover};
pub use laws::agreement_makes_a_root;
