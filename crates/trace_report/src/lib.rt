//! Reports: written as JSON, and read again.
#![tactic(auto)]

mod errors;
mod reading;
mod writing;

pub use errors::ReportError;
pub use reading::report_read;
pub use writing::report_text;
