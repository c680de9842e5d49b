//! The register of a sample.

ghost use Rattle.std.specs.Prelude.{◌≡◌, ◌%◌, ◌^◌, ◌+◌, ◌<◌, IfOk, OnOk};
ghost use Rattle.register_terms.specs.Rules.{empty_register};
ghost use Rattle.sample_terms.specs.Inputs.{licensee_name, register_of, register_with};

use crate::numbers::{multiplier, shift};
use lic_register::{EnrolError, Register};
use lists::{Memory, Text};
use std::alloc::Global;

/// The register of a number, with the licensees `lic0` to `lic999`.
pub(crate) fn register_of(alloc: Global, number: u64) -> Result<Register, Memory>
    ensures { IfOk result (λ register. register ≡ register_of number) }
{
    let mut register = no_licensees(alloc, number);
    for serial in 0..1000 {
        enrol_next(alloc, &mut register, number, serial)?;
    }
    Ok(register)
}

/// The register before anybody is enrolled.
#[tactic(auto, unfolding(sample_terms::specs::Inputs::register_with))]
fn no_licensees(alloc: Global, number: u64) -> Register
    ensures { result ≡ register_with 0 number }
{
    empty_register(alloc, multiplier(number), shift(number))
}

/// A register over codewords of three symbols of eight bits.
fn empty_register(alloc: Global, a: u32, b: u32) -> Register
    requires odd { a % 2 ≡ 1 }
    requires multiplier { a < 2 ^ 24 }
    requires shift { b < 2 ^ 24 }
    ensures { result ≡ empty_register 8 3 a b }
{
    Register::new(alloc, 8, 3, u128::from(a), u128::from(b)).unwrap()
}

/// Enrols the next licensee, whose name is plain and new, and for whom there is room.
fn enrol_next(
    alloc: Global,
    register: &mut Register,
    number: u64,
    serial: u32,
) -> Result<(), Memory>
    requires before { register.old ≡ register_with serial number }
    requires small { serial < 1000 }
    ensures { OnOk result (register.new ≡ register_with (serial + 1) number) }
{
    let name = licensee_name(alloc, serial)?;
    match register.enrol(name.as_str()) {
        Ok(_) => Ok(()),
        Err(error) => Err(want_of_memory(error)),
    }
}

/// The only error that comes where no name is refused.
fn want_of_memory(_error: EnrolError) -> Memory
    requires { _error ≡ EnrolError.Memory }
{
    Memory
}

/// The name of a licensee.
fn licensee_name(alloc: Global, serial: u32) -> Result<Text, Memory>
    ensures { IfOk result (λ name. name ≡ licensee_name serial) }
{
    Ok(Text::over(format!(in alloc; "lic{serial}")?))
}
