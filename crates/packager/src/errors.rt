//! Why no title and no playlist is made.

ghost use Rattle.std.specs.Prelude.{◌≡◌};
ghost use Rattle.packager.specs.declared.errors.PackError.TheVariants as errors;
ghost use Rattle.packager.specs.declared.errors.PlaylistFailure.TheVariants as failures;

use lists::{Memory, Text};

/// Why no title is made.
#[derive(Debug, Drop)]
pub enum PackError {
    /// The first marked number for which the list has no segment.
    NoSegment(u32),
    /// The blob of this variant is not there.
    Missing(Text),
    /// Reading the blob of this variant failed.
    Fault(Text),
    /// The blob of this variant is longer than the limit.
    TooLong(Text),
    /// Two variants have one digest.
    Duplicate {
        /// The place of the earlier one.
        place: u32,
        /// The symbol of the earlier one.
        symbol: u8,
        /// The place of the later one, the first in order that is like an earlier one.
        again_place: u32,
        /// The symbol of the later one.
        again_symbol: u8,
    },
    /// There was not enough memory.
    Memory,
}

impl From<Memory> for PackError {
    ghost from_gives = { λ _ e. e ≡ errors.Memory };

    fn from(_error: Memory) -> PackError {
        PackError::Memory
    }
}

/// Why a licensee gets no playlist: the first of these that applies, or want of memory.
#[derive(Clone, Copy, Debug, PartialEq, Eq)]
pub enum PlaylistFailure {
    /// Nobody has the serial.
    NoSuchSerial,
    /// The licensee with this serial is withdrawn.
    Withdrawn,
    /// There was not enough memory.
    Memory,
}

impl From<Memory> for PlaylistFailure {
    ghost from_gives = { λ _ e. e ≡ failures.Memory };

    fn from(_error: Memory) -> PlaylistFailure {
        PlaylistFailure::Memory
    }
}
