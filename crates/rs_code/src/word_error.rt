//! Why no word was read.

ghost use Rattle.std.specs.Prelude.{◌≡◌};
ghost use Rattle.rs_code.specs.declared.word_error.WordError.TheVariants.{Memory};

use code_terms::WordFault;
use std::alloc::{AllocError, AllocFailed};

/// Why a text was not read as a word.
#[derive(Clone, Copy, Debug, PartialEq, Eq)]
pub enum WordError {
    /// The text spells no word, and this is its first fault.
    NotWord(WordFault),
    /// There was not enough memory.
    Memory,
}

impl From<AllocError> for WordError {
    ghost from_gives = { λ _ e. e ≡ Memory };

    fn from(_error: AllocError) -> WordError {
        WordError::Memory
    }
}

impl<T: Drop> From<AllocFailed<T>> for WordError {
    ghost from_gives = { λ _ e. e ≡ Memory };

    fn from(_error: AllocFailed<T>) -> WordError {
        WordError::Memory
    }
}
