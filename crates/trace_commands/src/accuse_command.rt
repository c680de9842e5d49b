//! `accuse`: who agrees with a word.

ghost use Rattle.std.specs.Prelude.{◌≡◌, true, IfOk, IsTrue};
ghost use Rattle.text_terms.specs.Names.{is_name};
ghost use Rattle.decoding_terms.specs.Parameters.{is_allowed_bound};
ghost use Rattle.outcome_terms.specs.AccuseCommand.{accuse, accuse_trace, allowed};
ghost use Rattle.outcome_terms.specs.Spending.{Spends};
ghost use Rattle.outcome_terms.specs.Stores.{Follows, Settles, seen};
ghost use Rattle.trace_costs.specs.Costs.{curve_costs};

use crate::reporting::report_on;
use crate::word::word_under;
use command_io::register_under;
use gs_params::Interpolate;
use lic_register::Register;
use outcome_terms::{Fault, Refusal};
use shelf_io::Shelf;
use std::alloc::Global;
use steps::{Looks, Products, Steps};

/// The report for the register, the word and the bound.
#[tactic(auto, using(outcome_terms::proofs::Readings::reading_rules), unfolding(outcome_terms::specs::AccuseCommand::accuse))]
pub fn accuse<S: Shelf, I: Interpolate, P: Products, Q: Looks>(
    alloc: Global,
    shelf: &mut S,
    register: &str,
    word: &str,
    c: u128,
    by: &I,
    prods: &mut Steps<P>,
    looks: &mut Steps<Q>,
) -> Result<Vec<u8>, Refusal>
    requires register { IsTrue (is_name register.now) }
    requires word { IsTrue (is_name word.now) }
    ensures report { Follows (accuse register.now word.now c) (S.store shelf.old)
        (S.store shelf.new)
        (seen (λ text. text.items) result) }
    ensures steps { Spends (curve_costs I.cost) (accuse_trace register.now word.now c)
        (S.store shelf.old) (S.store shelf.new)
        (record { products = prods.old; looks = looks.old })
        (record { products = prods.new; looks = looks.new }) }
{
    let register = register_under(alloc, shelf, register)?;
    let bound = allowed(&register, c)?;
    let word = word_under(alloc, shelf, word, &register)?;
    report_on(alloc, &register, &word, bound, by, prods, looks)
}

/// The bound, where the codes of the register allow it.
#[tactic(auto, unfolding(outcome_terms::specs::AccuseCommand::allowed))]
fn allowed(register: &Register, c: u128) -> Result<u32, Refusal>
    ensures bound { Settles result (allowed register.now.dimension c) }
    ensures allowed { IfOk result (λ bound. is_allowed_bound register.now.dimension bound ≡ true) }
{
    let k = register.dimension();
    if (1..=8).contains(&c) && c as u32 * (k - 1) <= 12 {
        Ok(c as u32)
    } else {
        Err(Refusal::Content(Fault::BadBound(c)))
    }
}
