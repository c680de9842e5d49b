//! The command that checks a report: what it reads, and what it puts out.
#![tactic(auto)]

mod check_command;
mod judging;
mod report;

pub use check_command::check;
