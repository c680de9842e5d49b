//! Why there are no findings.

ghost use Rattle.std.specs.Prelude.{◌≡◌};
ghost use Rattle.trace_report.specs.declared.errors.ReportError.TheVariants as errors;

use lists::Memory;
use std::alloc::{AllocError, AllocFailed};

/// Why a report was not read.
#[derive(Clone, Copy, Debug, PartialEq, Eq)]
pub enum ReportError {
    /// The bytes are no report.
    NotReport,
    /// There was not enough memory.
    Memory,
}

impl From<AllocError> for ReportError {
    ghost from_gives = { λ _ e. e ≡ errors.Memory };

    fn from(_error: AllocError) -> ReportError {
        ReportError::Memory
    }
}

impl From<Memory> for ReportError {
    ghost from_gives = { λ _ e. e ≡ errors.Memory };

    fn from(_error: Memory) -> ReportError {
        ReportError::Memory
    }
}

impl<T: Drop> From<AllocFailed<T>> for ReportError {
    ghost from_gives = { λ _ e. e ≡ errors.Memory };

    fn from(_error: AllocFailed<T>) -> ReportError {
        ReportError::Memory
    }
}
