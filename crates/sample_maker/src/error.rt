//! Why there is no summary.

ghost use Rattle.std.specs.Prelude.{◌≡◌};
ghost use Rattle.sample_maker.specs.declared.error.SampleError.TheVariants as errors;

use lists::Memory;

/// Why there is no summary.
#[derive(Clone, Copy, Debug, PartialEq, Eq)]
pub enum SampleError {
    /// Two variants of the sample have one digest: these are the first two.
    Duplicate {
        /// The place of the earlier one.
        place: u32,
        /// Its symbol.
        symbol: u8,
        /// The place of the later one.
        again_place: u32,
        /// Its symbol.
        again_symbol: u8,
    },
    /// There was not enough memory.
    Memory,
}

impl From<Memory> for SampleError {
    ghost from_gives = { λ _ e. e ≡ errors.Memory };

    fn from(_error: Memory) -> SampleError {
        SampleError::Memory
    }
}
