//! The commands that trace: what each reads, and the report that it puts out.
#![tactic(auto)]

mod accuse_command;
mod desk_call;
mod reporting;
mod trace_command;
mod word;

pub use accuse_command::accuse;
pub use trace_command::trace;
