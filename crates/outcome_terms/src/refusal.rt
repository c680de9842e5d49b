//! Why a command was refused, with what its error line says.

ghost use Rattle.std.specs.Prelude.{◌≡◌};
ghost use Rattle.outcome_terms.specs.declared.refusal.Refusal.TheVariants as refusals;

use crate::fault::Fault;
use lists::{Memory, Text};

/// A refusal of a command before anything was put out.
#[derive(Debug, Drop)]
pub enum Refusal {
    /// There was not enough memory.
    Memory,
    /// The words are no command.
    BadWords,
    /// This blob is not there.
    Missing(Text),
    /// Reading this blob failed.
    ReadFault(Text),
    /// Writing this blob failed.
    WriteFault(Text),
    /// This blob is longer than the limit.
    TooLong(Text),
    /// What the words say, or the blobs that were read.
    Content(Fault),
}

impl From<Memory> for Refusal {
    ghost from_gives = { λ _ e. e ≡ refusals.Memory };

    fn from(_error: Memory) -> Refusal {
        Refusal::Memory
    }
}
