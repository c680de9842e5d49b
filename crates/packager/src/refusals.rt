//! Why no title is made, as a command is refused.

ghost use Rattle.std.specs.Prelude.{◌≡◌};
ghost use Rattle.packager.specs.Refusals.{refusal_of};

use crate::errors::PackError;
use outcome_terms::{Fault, Refusal};

impl From<PackError> for Refusal {
    ghost from_gives = { λ error result. result ≡ refusal_of error };

    fn from(error: PackError) -> Refusal {
        match error {
            PackError::NoSegment(segment) => Refusal::Content(Fault::NoSegment(segment)),
            PackError::Missing(name) => Refusal::Missing(name),
            PackError::Fault(name) => Refusal::ReadFault(name),
            PackError::TooLong(name) => Refusal::TooLong(name),
            PackError::Duplicate {
                place,
                symbol,
                again_place,
                again_symbol,
            } => Refusal::Content(Fault::Duplicate {
                place,
                symbol,
                again_place,
                again_symbol,
            }),
            PackError::Memory => Refusal::Memory,
        }
    }
}
