//! What the bytes of a report say, and the verdict on a report.
#![tactic(auto)]

mod laws;
mod verdict;

pub use laws::{findings_are_reportable, reports_are_read_again, worked_readings, worked_verdicts};
pub use verdict::Verdict;
