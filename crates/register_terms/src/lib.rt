//! What a register of licensees is, the text that it is kept as, and the laws of both, as contracts cite them.
//!
//! A register gives each licensee a message by a rule of two numbers. The definitions stand in `specs/`: `Enrolment` says
//! what a register is and when it is valid, `RegisterText` what its text is and which fault any other text has.
#![tactic(auto)]

mod edition;
mod fault;
mod laws;
mod refusal;

pub use edition::Edition;
pub use fault::{RegisterFault, RegisterKind};
pub use laws::{
    faults_are_first, messages_differ, names_tell_serials, texts_are_registers, worked_examples,
};
pub use refusal::{MOST_LICENSEES, NameRefusal, RegisterError};
