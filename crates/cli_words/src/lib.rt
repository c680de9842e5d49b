//! The words of the command line, the statuses and the error lines.
#![tactic(auto)]

mod command;
mod commands;
mod errors;
mod lines;
mod usage;

pub use command::{Command, CommandName};
pub use commands::read_words;
pub use errors::error_line;
pub use lines::{refusal_line, refusal_status};
pub use outcome_terms::Status;
pub use usage::Usage;
