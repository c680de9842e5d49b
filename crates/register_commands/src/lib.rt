//! The commands that make and change registers: what each writes.
#![tactic(auto)]

mod enrol;
mod make;
mod withdraw;

pub use enrol::enrolled_text;
pub use make::register_text;
pub use withdraw::withdrawn_text;
