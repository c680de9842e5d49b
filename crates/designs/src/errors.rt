//! Why there is no design.

ghost use Rattle.std.specs.Prelude.{◌≡◌};
ghost use Rattle.designs.specs.declared.errors.DesignError.TheVariants as errors;

use lists::Memory;
use std::alloc::{AllocError, AllocFailed};
use title_terms::DesignFault;

/// Why no design was made or read.
#[derive(Clone, Copy, Debug, PartialEq, Eq)]
pub enum DesignError {
    /// The first thing that is wrong with the document or the values.
    NotDesign(DesignFault),
    /// There was not enough memory.
    Memory,
}

impl From<DesignFault> for DesignError {
    ghost from_gives = { λ fault e. e ≡ errors.NotDesign fault };

    fn from(fault: DesignFault) -> DesignError {
        DesignError::NotDesign(fault)
    }
}

impl From<AllocError> for DesignError {
    ghost from_gives = { λ _ e. e ≡ errors.Memory };

    fn from(_error: AllocError) -> DesignError {
        DesignError::Memory
    }
}

impl From<Memory> for DesignError {
    ghost from_gives = { λ _ e. e ≡ errors.Memory };

    fn from(_error: Memory) -> DesignError {
        DesignError::Memory
    }
}

impl<T: Drop> From<AllocFailed<T>> for DesignError {
    ghost from_gives = { λ _ e. e ≡ errors.Memory };

    fn from(_error: AllocFailed<T>) -> DesignError {
        DesignError::Memory
    }
}
