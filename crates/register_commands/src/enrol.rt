//! `enrol`: a register with one more licensee.

ghost use Rattle.std.specs.Prelude.{◌≡◌, IsTrue};
ghost use Rattle.text_terms.specs.Names.{is_name};
ghost use Rattle.outcome_terms.specs.EnrolCommand.{enrol, enrolled};
ghost use Rattle.outcome_terms.specs.Stores.{Exactly, Follows, Settles, seen};

use command_io::register_under;
use lic_register::{EnrolError, NameRefusal, Register};
use lists::Text;
use outcome_terms::{Fault, Refusal};
use shelf_io::Shelf;
use std::alloc::Global;
use steps::{Looks, Steps};

/// The text of the register with one more licensee.
#[tactic(auto, using(outcome_terms::proofs::Readings::reading_rules), unfolding(outcome_terms::specs::EnrolCommand::enrol))]
pub fn enrolled_text<S: Shelf, Q: Looks>(
    alloc: Global,
    shelf: &mut S,
    register: &str,
    name: &str,
    out: &str,
    looks: &mut Steps<Q>,
) -> Result<Vec<u8>, Refusal>
    requires { IsTrue (is_name register.now) }
    ensures { Follows (enrol register.now name.now out.now) (S.store shelf.old)
        (S.store shelf.new)
        (seen (λ text. Exactly text.items) result) }
{
    if out == register {
        return Err(Refusal::Content(Fault::SameName(Text::of(alloc, out)?)));
    }
    let mut register = register_under(alloc, shelf, register)?;
    enrol(&mut register, name)?;
    Ok(register.write(looks)?)
}

/// Enrols the name.
#[tactic(auto, using(crate::proofs::Enrolments::was_enrolled, crate::proofs::Enrolments::was_refused))]
fn enrol(register: &mut Register, name: &str) -> Result<(), Refusal>
    ensures { Settles (seen (λ _. register.new) result) (enrolled register.old name.now) }
{
    match register.enrol(name) {
        Ok(_) => Ok(()),
        Err(EnrolError::BadName) => Err(refused(NameRefusal::BadName)),
        Err(EnrolError::NameTaken(serial)) => Err(refused(NameRefusal::NameTaken(serial))),
        Err(EnrolError::Full(licensees)) => Err(refused(NameRefusal::Full(licensees))),
        Err(EnrolError::Memory) => Err(Refusal::Memory),
    }
}

/// The refusal of a name that is not enrolled.
fn refused(why: NameRefusal) -> Refusal
    ensures { result ≡ Refusal.Content (Fault.NotEnrolled why) }
{
    Refusal::Content(Fault::NotEnrolled(why))
}
