//! The command that makes a sample: what it puts out.
#![tactic(auto)]

mod sample_command;

pub use sample_command::sample_text;
