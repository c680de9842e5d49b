//! Registers of licensees: who is enrolled, who was withdrawn, and which message each licensee's copies carry.
//!
//! A register belongs to a code, and has a rule that gives each serial its message. It is kept as a text, which `read` and
//! `write` tell one from another exactly. Its entries are seen by counted look-ups alone.
#![tactic(auto)]

mod enrolling;
mod errors;
mod finding;
mod licensee;
mod looking;
mod reading;
mod register;
mod rule;
mod writing;

pub use errors::{EnrolError, RegisterReadError, WithdrawError};
pub use licensee::Licensee;
pub use register::Register;
pub use register_terms::{NameRefusal, RegisterError, RegisterFault, RegisterKind};
