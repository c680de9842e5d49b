//! What several commands read and write: the bytes of a blob, the register that a blob holds, and a text under a name.
#![tactic(auto)]

mod field;
mod reading;
mod writing;

pub use reading::{bytes_under, register_under};
pub use writing::{Done, write_text};
