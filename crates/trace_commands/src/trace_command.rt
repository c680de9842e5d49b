//! `trace`: who agrees with the word of a copy.

ghost use Rattle.std.specs.Prelude.{◌≡◌, length, true, IsTrue};
ghost use Rattle.text_terms.specs.Names.{is_name};
ghost use Rattle.code_terms.specs.Words.{HasSymbolsBelow};
ghost use Rattle.title_terms.specs.Designs.{places, symbols};
ghost use Rattle.packaging_terms.specs.Licensees.{fits};
ghost use Rattle.outcome_terms.specs.AccuseCommand.{report};
ghost use Rattle.outcome_terms.specs.Spending.{Spends};
ghost use Rattle.outcome_terms.specs.Stores.{Follows, Settles, seen};
ghost use Rattle.outcome_terms.specs.TraceCommand.{is_served, trace, trace_trace};
ghost use Rattle.outcome_terms.specs.Traces.{IsWithin, trace_at};
ghost use Rattle.trace_costs.specs.Costs.{curve_costs};

use crate::reporting::report_on;
use command_io::register_under;
use copy_io::{demanded, word_shown};
use gs_params::Interpolate;
use lic_register::Register;
use outcome_terms::Refusal;
use rs_code::Word;
use shelf_io::Shelf;
use std::alloc::Global;
use steps::{Looks, Products, Steps};
use title_io::title_under;
use title_store::Title;

/// The report for the title, the register, the copy and the bound.
#[tactic(auto, using(outcome_terms::proofs::Readings::reading_rules), unfolding(outcome_terms::specs::TraceCommand::trace))]
pub fn trace<S: Shelf, I: Interpolate, P: Products, Q: Looks>(
    alloc: Global,
    shelf: &mut S,
    title: &str,
    register: &str,
    copy: &str,
    c: u128,
    by: &I,
    prods: &mut Steps<P>,
    looks: &mut Steps<Q>,
) -> Result<Vec<u8>, Refusal>
    requires title { IsTrue (is_name title.now) }
    requires register { IsTrue (is_name register.now) }
    requires copy { IsTrue (is_name copy.now) }
    ensures report { Follows (trace title.now register.now copy.now c)
        (S.store shelf.old)
        (S.store shelf.new)
        (seen (λ text. text.items) result) }
    ensures steps { Spends (curve_costs I.cost) (trace_trace title.now register.now copy.now c)
        (S.store shelf.old) (S.store shelf.new)
        (record { products = prods.old; looks = looks.old })
        (record { products = prods.new; looks = looks.new }) }
{
    let title = title_under(alloc, shelf, title)?;
    let register = register_under(alloc, shelf, register)?;
    let bound = match demanded(&title, &register, c) {
        Ok(bound) => bound,
        Err(refusal) => return Err(refusal),
    };
    let word = match word_shown(alloc, shelf, &title, copy) {
        Ok(word) => word,
        Err(refusal) => return Err(refusal),
    };
    report(alloc, &title, &register, &word, bound, by, prods, looks)
}

/// The report of a word that a copy shows of the title, unless too few of its places can be read.
fn report<I: Interpolate, P: Products, Q: Looks>(
    alloc: Global,
    title: &Title,
    register: &Register,
    word: &Word,
    bound: u32,
    by: &I,
    prods: &mut Steps<P>,
    looks: &mut Steps<Q>,
) -> Result<Vec<u8>, Refusal>
    requires same_code { fits title.now register.now ≡ true }
    requires served { is_served title.now bound ≡ true }
    requires places { length word.now ≡ places title.now.design }
    requires symbols { HasSymbolsBelow (symbols title.now.design) word.now }
    ensures report { Settles (seen (λ text. text.items) result)
        (report register.now word.now bound) }
    ensures steps { IsWithin (curve_costs I.cost) (trace_at register.now.dimension word.now bound)
        (record { products = prods.old; looks = looks.old })
        (record { products = prods.new; looks = looks.new }) }
{
    let _places = title.places();
    report_on(alloc, register, word, bound, by, prods, looks)
}
