//! `withdraw`: a register with a licensee withdrawn.

ghost use Rattle.std.specs.Prelude.{◌≡◌, IsTrue};
ghost use Rattle.text_terms.specs.Names.{is_name};
ghost use Rattle.outcome_terms.specs.WithdrawCommand.{withdraw, withdrawn};
ghost use Rattle.outcome_terms.specs.Stores.{Exactly, Follows, Settles, seen};

use command_io::register_under;
use lic_register::{Register, WithdrawError};
use lists::Text;
use outcome_terms::{Fault, Refusal};
use shelf_io::Shelf;
use std::alloc::Global;
use steps::{Looks, Steps};

/// The text of the register with the licensee withdrawn.
#[tactic(auto, using(outcome_terms::proofs::Readings::reading_rules), unfolding(outcome_terms::specs::WithdrawCommand::withdraw))]
pub fn withdrawn_text<S: Shelf, Q: Looks>(
    alloc: Global,
    shelf: &mut S,
    register: &str,
    name: &str,
    out: &str,
    looks: &mut Steps<Q>,
) -> Result<Vec<u8>, Refusal>
    requires { IsTrue (is_name register.now) }
    ensures { Follows (withdraw register.now name.now out.now) (S.store shelf.old)
        (S.store shelf.new)
        (seen (λ text. Exactly text.items) result) }
{
    if out == register {
        return Err(Refusal::Content(Fault::SameName(Text::of(alloc, out)?)));
    }
    let mut register = register_under(alloc, shelf, register)?;
    withdraw(alloc, &mut register, name, looks)?;
    Ok(register.write(looks)?)
}

/// Withdraws the licensee of this name.
#[tactic(auto, unfolding(outcome_terms::specs::WithdrawCommand::withdrawn))]
fn withdraw<Q: Looks>(
    alloc: Global,
    register: &mut Register,
    name: &str,
    looks: &mut Steps<Q>,
) -> Result<(), Refusal>
    ensures { Settles (seen (λ _. register.new) result) (withdrawn register.old name.now) }
{
    match register.withdraw(name, looks) {
        Ok(_) => Ok(()),
        Err(WithdrawError::Unknown) => Err(Refusal::Content(Fault::Unknown(Text::of(
            alloc, name,
        )?))),
        Err(WithdrawError::Already(_)) => Err(Refusal::Content(Fault::Withdrawn(Text::of(
            alloc, name,
        )?))),
    }
}
