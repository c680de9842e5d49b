//! Why the desk answers nothing.

ghost use Rattle.std.specs.Prelude.{◌≡◌};
ghost use Rattle.trace_desk.specs.Refusals.{refused_as};
ghost use Rattle.trace_desk.specs.declared.desk_error.DeskError.TheVariants as refusal;

use list_decode::DecodeError;
use lists::Memory;
use std::alloc::AllocError;

/// Why the desk answers nothing.
#[derive(Debug, Clone, Copy, PartialEq, Eq)]
pub enum DeskError {
    /// Codes of this dimension don't allow for coalitions of so many.
    BadBound,
    /// There are too few readable places: so many.
    TooFew(u32),
    /// There was not enough memory.
    Memory,
}

impl From<DecodeError> for DeskError {
    ghost from_gives = { λ error result. result ≡ refused_as error };

    fn from(error: DecodeError) -> DeskError {
        match error {
            DecodeError::BadBound => DeskError::BadBound,
            DecodeError::TooFew(readable) => DeskError::TooFew(readable),
            DecodeError::Memory => DeskError::Memory,
        }
    }
}

impl From<Memory> for DeskError {
    ghost from_gives = { λ _ result. result ≡ refusal.Memory };

    fn from(_error: Memory) -> DeskError {
        DeskError::Memory
    }
}

impl From<AllocError> for DeskError {
    ghost from_gives = { λ _ result. result ≡ refusal.Memory };

    fn from(_error: AllocError) -> DeskError {
        DeskError::Memory
    }
}
