//! `register`: a register without licensees.

ghost use Rattle.std.specs.Prelude.{◌≡◌, min};
ghost use Rattle.outcome_terms.specs.RegisterCommand.{make};
ghost use Rattle.outcome_terms.specs.Stores.{Exactly, Settles, seen};

use lic_register::Register;
use outcome_terms::{Fault, Refusal};
use std::alloc::Global;
use steps::{Looks, Steps};

/// The text of a register without licensees. A number past 32 bits breaks the rule on it like any other.
#[tactic(auto, unfolding(outcome_terms::specs::RegisterCommand::make))]
pub fn register_text<Q: Looks>(
    alloc: Global,
    m: u128,
    k: u128,
    a: u128,
    b: u128,
    looks: &mut Steps<Q>,
) -> Result<Vec<u8>, Refusal>
    ensures { Settles (seen (λ text. Exactly text.items) result) (make m k a b) }
{
    match Register::new(alloc, small(m), small(k), a, b) {
        Ok(register) => Ok(register.write(looks)?),
        Err(rule) => Err(Refusal::Content(Fault::BadParameters(rule))),
    }
}

/// The number, or where it has more than 32 bits the greatest that has not.
fn small(number: u128) -> u32
    ensures { result ≡ min number 4294967295 }
{
    u32::try_from(number).unwrap_or(u32::MAX)
}
