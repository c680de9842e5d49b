//! What the sample of a number is: a register, a title and a copy that three licensees put together, and the line that sums up
//! whom the desk accuses.
#![tactic(auto)]

mod laws;

pub use laws::{copies_are_read, worked_numbers};
