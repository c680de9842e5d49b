//! Why a word is not decoded.

ghost use Rattle.std.specs.Prelude.{◌≡◌};
ghost use Rattle.list_decode.specs.Refusals.{refused_as};
ghost use Rattle.list_decode.specs.declared.decode_error.DecodeError.TheVariants as refusal;

use gs_params::ParamError;
use lists::Memory;

/// Why a word is not decoded.
#[derive(Debug, Clone, Copy, PartialEq, Eq)]
pub enum DecodeError {
    /// Codes of this dimension don't allow for coalitions of so many.
    BadBound,
    /// There are too few readable places: so many.
    TooFew(u32),
    /// There was not enough memory.
    Memory,
}

impl From<ParamError> for DecodeError {
    ghost from_gives = { λ error result. result ≡ refused_as error };

    fn from(error: ParamError) -> DecodeError {
        match error {
            ParamError::BadBound => DecodeError::BadBound,
            ParamError::TooFew(readable) => DecodeError::TooFew(readable),
        }
    }
}

impl From<Memory> for DecodeError {
    ghost from_gives = { λ _ result. result ≡ refusal.Memory };

    fn from(_error: Memory) -> DecodeError {
        DecodeError::Memory
    }
}
