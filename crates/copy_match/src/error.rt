//! Why a copy has no word.

ghost use Rattle.std.specs.Prelude.{◌≡◌};
ghost use Rattle.copy_match.specs.declared.error.MatchError.TheVariants as match_errors;

use lists::Memory;

/// Why a copy was not read to its end. A number is that of the segment at which the read was refused, counted from 0.
#[derive(Clone, Copy, Debug, PartialEq, Eq)]
pub enum MatchError {
    /// No blob has the segment's name.
    Missing(u32),
    /// The store failed while it read the segment.
    Fault(u32),
    /// The segment's blob is longer than the limit.
    TooLong(u32),
    /// There was not enough memory.
    Memory,
}

impl From<Memory> for MatchError {
    ghost from_gives = { λ _ e. e ≡ match_errors.Memory };

    fn from(_error: Memory) -> MatchError {
        MatchError::Memory
    }
}
