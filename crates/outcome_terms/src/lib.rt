//! What the program promises for each list of words: commands as readings, statuses, error lines and the outcome over blobs.
#![tactic(auto)]

mod fault;
mod laws;
mod packaging;
mod refusal;
mod status;

pub use fault::Fault;
pub use laws::{readings_compose, worked_details, worked_examples};
pub use packaging::{
    done_packaging, packages_end, packaging_reads, readings_go_along, titles_are_made, titles_end,
};
pub use refusal::Refusal;
pub use status::Status;
