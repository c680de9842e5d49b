//! Why a register can't be made, read or added to.

ghost use Rattle.std.specs.Prelude.{◌≡◌};
ghost use Rattle.lic_register.specs.declared.errors.EnrolError.TheVariants as enrol_errors;
ghost use Rattle.lic_register.specs.declared.errors.RegisterReadError.TheVariants as read_errors;

use lists::Memory;
use register_terms::RegisterFault;
use std::alloc::{AllocError, AllocFailed};

/// Why a name was not enrolled: the first of these that applies, or want of memory.
#[derive(Clone, Copy, Debug, PartialEq, Eq)]
pub enum EnrolError {
    /// The name is not plain.
    BadName,
    /// The licensee of this serial has the name.
    NameTaken(u32),
    /// The register holds so many licensees, and can hold no more.
    Full(u32),
    /// There was not enough memory.
    Memory,
}

impl From<AllocError> for EnrolError {
    ghost from_gives = { λ _ e. e ≡ enrol_errors.Memory };

    fn from(_error: AllocError) -> EnrolError {
        EnrolError::Memory
    }
}

impl From<Memory> for EnrolError {
    ghost from_gives = { λ _ e. e ≡ enrol_errors.Memory };

    fn from(_error: Memory) -> EnrolError {
        EnrolError::Memory
    }
}

impl<T: Drop> From<AllocFailed<T>> for EnrolError {
    ghost from_gives = { λ _ e. e ≡ enrol_errors.Memory };

    fn from(_error: AllocFailed<T>) -> EnrolError {
        EnrolError::Memory
    }
}

/// Why nobody was withdrawn: the first of these that applies.
#[derive(Clone, Copy, Debug, PartialEq, Eq)]
pub enum WithdrawError {
    /// No licensee has the name.
    Unknown,
    /// The licensee of this serial, who has the name, is withdrawn.
    Already(u32),
}

/// Why no register was read.
#[derive(Clone, Copy, Debug, PartialEq, Eq)]
pub enum RegisterReadError {
    /// The bytes are no register's text: the first line that breaks the form.
    NotRegister(RegisterFault),
    /// There was not enough memory.
    Memory,
}

impl From<AllocError> for RegisterReadError {
    ghost from_gives = { λ _ e. e ≡ read_errors.Memory };

    fn from(_error: AllocError) -> RegisterReadError {
        RegisterReadError::Memory
    }
}

impl<T: Drop> From<AllocFailed<T>> for RegisterReadError {
    ghost from_gives = { λ _ e. e ≡ read_errors.Memory };

    fn from(_error: AllocFailed<T>) -> RegisterReadError {
        RegisterReadError::Memory
    }
}

impl From<RegisterFault> for RegisterReadError {
    ghost from_gives = { λ fault e. e ≡ read_errors.NotRegister fault };

    fn from(fault: RegisterFault) -> RegisterReadError {
        RegisterReadError::NotRegister(fault)
    }
}
