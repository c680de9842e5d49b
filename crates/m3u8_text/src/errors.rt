//! Why a call on playlists is refused.

ghost use Rattle.std.specs.Prelude.{◌≡◌};
ghost use Rattle.playlist_terms.specs.Reading.{at_line};

use lists::Memory;
use playlist_terms::{LineFault, PlaylistFault};
use std::alloc::{AllocError, AllocFailed};

/// Why a segment is not made.
#[derive(Clone, Copy, Debug, PartialEq, Eq)]
pub enum SegmentError {
    /// The text is no name of a blob, or as a line it would be blank, a comment or a tag.
    BadUri,
    /// The duration is 10^16 microseconds or more.
    LongDuration,
    /// There was not enough memory.
    Memory,
}

/// Why a list is not made.
#[derive(Clone, Copy, Debug, PartialEq, Eq)]
pub enum ListError {
    /// The version is not 1 to 65,535.
    BadVersion,
}

/// Why a segment is not added.
#[derive(Clone, Copy, Debug, PartialEq, Eq)]
pub enum PushError {
    /// The list already has 100,000 segments.
    Full,
    /// There was not enough memory.
    Memory,
}

/// Why a text is not read as a playlist.
#[derive(Clone, Copy, Debug, PartialEq, Eq)]
pub enum PlaylistError {
    /// The first fault of the text.
    Line {
        /// The line that has it, counted from 1; 0 where it belongs to no line.
        number: u32,
        /// What is wrong there.
        fault: PlaylistFault,
    },
    /// There was not enough memory.
    Memory,
}

/// Why a line is not taken.
#[derive(Clone, Copy, Debug, PartialEq, Eq)]
pub(crate) enum LineError {
    /// The line has this fault.
    Faulty(PlaylistFault),
    /// There was not enough memory.
    Memory,
}

impl From<Memory> for SegmentError {
    ghost use Rattle.m3u8_text.specs.declared.errors.SegmentError.TheVariants.{Memory};

    ghost from_gives = { λ _ e. e ≡ Memory };

    fn from(_error: Memory) -> SegmentError {
        SegmentError::Memory
    }
}

impl<T: Drop> From<AllocFailed<T>> for PushError {
    ghost use Rattle.m3u8_text.specs.declared.errors.PushError.TheVariants.{Memory};

    ghost from_gives = { λ _ e. e ≡ Memory };

    fn from(_error: AllocFailed<T>) -> PushError {
        PushError::Memory
    }
}

impl From<LineFault> for PlaylistError {
    ghost use Rattle.m3u8_text.specs.Answers.{error_of};

    ghost from_gives = { λ found e. e ≡ error_of found };

    fn from(found: LineFault) -> PlaylistError {
        PlaylistError::Line {
            number: found.line,
            fault: found.fault,
        }
    }
}

impl From<Memory> for PlaylistError {
    ghost use Rattle.m3u8_text.specs.declared.errors.PlaylistError.TheVariants.{Memory};

    ghost from_gives = { λ _ e. e ≡ Memory };

    fn from(_error: Memory) -> PlaylistError {
        PlaylistError::Memory
    }
}

impl From<PlaylistFault> for LineError {
    ghost use Rattle.m3u8_text.specs.declared.errors.LineError.TheVariants.{Faulty};

    ghost from_gives = { λ fault e. e ≡ Faulty fault };

    fn from(fault: PlaylistFault) -> LineError {
        LineError::Faulty(fault)
    }
}

impl From<Memory> for LineError {
    ghost use Rattle.m3u8_text.specs.declared.errors.LineError.TheVariants.{Memory};

    ghost from_gives = { λ _ e. e ≡ Memory };

    fn from(_error: Memory) -> LineError {
        LineError::Memory
    }
}

impl From<AllocError> for LineError {
    ghost use Rattle.m3u8_text.specs.declared.errors.LineError.TheVariants.{Memory};

    ghost from_gives = { λ _ e. e ≡ Memory };

    fn from(_error: AllocError) -> LineError {
        LineError::Memory
    }
}
