//! `check`: whether a report says what the desk finds.

ghost use Rattle.std.specs.Prelude.{◌≡◌, true, IsTrue};
ghost use Rattle.text_terms.specs.Names.{is_name};
ghost use Rattle.packaging_terms.specs.Licensees.{fits};
ghost use Rattle.outcome_terms.specs.CheckCommand.{check};
ghost use Rattle.outcome_terms.specs.Stores.{Follows, seen};
ghost use Rattle.check_commands.specs.Checks.{checked};

use crate::judging::judged;
use crate::report::findings_under;
use command_io::register_under;
use copy_io::{fits, is_served, mismatch, word_shown};
use lic_register::Register;
use outcome_terms::{Fault, Refusal};
use shelf_io::Shelf;
use std::alloc::Global;
use steps::{Looks, Products, Steps};
use title_io::title_under;
use title_store::Title;

/// The answer to the report, for the title, the register and the copy.
#[tactic(auto, using(outcome_terms::proofs::Readings::reading_rules), unfolding(outcome_terms::specs::CheckCommand::check, crate::specs::Checks::checked))]
pub fn check<S: Shelf, P: Products, Q: Looks>(
    alloc: Global,
    shelf: &mut S,
    title: &str,
    register: &str,
    copy: &str,
    report: &str,
    prods: &mut Steps<P>,
    looks: &mut Steps<Q>,
) -> Result<Vec<u8>, Refusal>
    requires title { IsTrue (is_name title.now) }
    requires register { IsTrue (is_name register.now) }
    requires copy { IsTrue (is_name copy.now) }
    requires report { IsTrue (is_name report.now) }
    ensures { Follows (check title.now register.now copy.now report.now)
        (S.store shelf.old) (S.store shelf.new)
        (seen (λ text. text.items) result) }
{
    let title = title_under(alloc, shelf, title)?;
    let register = register_under(alloc, shelf, register)?;
    if !fits(&title, &register) {
        return Err(Refusal::Content(mismatch(&title, &register)));
    }
    checked(alloc, shelf, &title, &register, copy, report, prods, looks)
}

/// The answer to the report, for a title and a register of one code.
#[tactic(auto, using(outcome_terms::proofs::Readings::reading_rules), unfolding(crate::specs::Checks::checked))]
fn checked<S: Shelf, P: Products, Q: Looks>(
    alloc: Global,
    shelf: &mut S,
    title: &Title,
    register: &Register,
    copy: &str,
    report: &str,
    prods: &mut Steps<P>,
    looks: &mut Steps<Q>,
) -> Result<Vec<u8>, Refusal>
    requires same_code { fits title.now register.now ≡ true }
    requires copy { IsTrue (is_name copy.now) }
    requires report { IsTrue (is_name report.now) }
    ensures { Follows (checked title.now register.now copy.now report.now)
        (S.store shelf.old) (S.store shelf.new)
        (seen (λ text. text.items) result) }
{
    let findings = findings_under(alloc, shelf, report)?;
    if !is_served(title, u128::from(findings.bound)) {
        return Err(Refusal::Content(Fault::BadBound(u128::from(findings.bound))));
    }
    let word = word_shown(alloc, shelf, title, copy)?;
    judged(alloc, title, register, &word, &findings, prods, looks)
}
