//! Why a title is not begun, added to or read.

ghost use Rattle.std.specs.Prelude.{◌≡◌};
ghost use Rattle.title_store.specs.declared.errors.BuildError.TheVariants as build_errors;
ghost use Rattle.title_store.specs.declared.errors.TitleReadError.TheVariants as read_errors;

use lists::Memory;
use std::alloc::{AllocError, AllocFailed};
use title_terms::TitleFault;

/// Why no title is begun.
#[derive(Clone, Copy, Debug, PartialEq, Eq)]
pub enum BuildError {
    /// The first marked number for which the list has no segment.
    NoSegment(u32),
    /// There was not enough memory.
    Memory,
}

impl From<Memory> for BuildError {
    ghost from_gives = { λ _ e. e ≡ build_errors.Memory };

    fn from(_error: Memory) -> BuildError {
        BuildError::Memory
    }
}

/// Why a digest is not added: the first of these that applies, or want of memory.
#[derive(Clone, Copy, Debug, PartialEq, Eq)]
pub enum AddError {
    /// The variant has a digest already.
    Twice,
    /// Another variant has the same digest.
    Duplicate {
        /// The place of that variant.
        place: u32,
        /// Its symbol.
        symbol: u8,
    },
    /// There was not enough memory.
    Memory,
}

/// Why no title was read.
#[derive(Clone, Copy, Debug, PartialEq, Eq)]
pub enum TitleReadError {
    /// The bytes are no title's text: the first line that breaks the form.
    NotTitle(TitleFault),
    /// There was not enough memory.
    Memory,
}

impl From<AllocError> for TitleReadError {
    ghost from_gives = { λ _ e. e ≡ read_errors.Memory };

    fn from(_error: AllocError) -> TitleReadError {
        TitleReadError::Memory
    }
}

impl<T: Drop> From<AllocFailed<T>> for TitleReadError {
    ghost from_gives = { λ _ e. e ≡ read_errors.Memory };

    fn from(_error: AllocFailed<T>) -> TitleReadError {
        TitleReadError::Memory
    }
}

impl From<TitleFault> for TitleReadError {
    ghost from_gives = { λ fault e. e ≡ read_errors.NotTitle fault };

    fn from(fault: TitleFault) -> TitleReadError {
        TitleReadError::NotTitle(fault)
    }
}
