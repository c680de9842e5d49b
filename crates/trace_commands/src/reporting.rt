//! The report on a word, for every command that traces.

ghost use Rattle.std.specs.Prelude.{◌≡◌, ◌^◌, ◌≤◌, length, true};
ghost use Rattle.code_terms.specs.Words.{HasSymbolsBelow};
ghost use Rattle.decoding_terms.specs.Parameters.{is_allowed_bound};
ghost use Rattle.outcome_terms.specs.AccuseCommand.{report};
ghost use Rattle.outcome_terms.specs.Stores.{Settles, seen};
ghost use Rattle.outcome_terms.specs.Traces.{IsWithin, trace_at};
ghost use Rattle.trace_costs.specs.Costs.{curve_costs};
ghost use Rattle.trace_commands.specs.Refusals.{refused_as};

use crate::desk_call::desk_answer;
use gs_params::Interpolate;
use lic_register::Register;
use outcome_terms::{Fault, Refusal};
use rs_code::Word;
use std::alloc::Global;
use steps::{Looks, Products, Steps};
use trace_desk::DeskError;
use trace_report::report_text;

/// The report of a word, unless too few of its places can be read.
pub fn report_on<I: Interpolate, P: Products, Q: Looks>(
    alloc: Global,
    register: &Register,
    word: &Word,
    bound: u32,
    by: &I,
    prods: &mut Steps<P>,
    looks: &mut Steps<Q>,
) -> Result<Vec<u8>, Refusal>
    requires least { 1 ≤ length word.now }
    requires most { length word.now ≤ 2 ^ register.now.bits }
    requires symbols { HasSymbolsBelow (2 ^ register.now.bits) word.now }
    requires bound { is_allowed_bound register.now.dimension bound ≡ true }
    ensures report { Settles (seen (λ text. text.items) result)
        (report register.now word.now bound) }
    ensures steps { IsWithin (curve_costs I.cost) (trace_at register.now.dimension word.now bound)
        (record { products = prods.old; looks = looks.old })
        (record { products = prods.new; looks = looks.new }) }
{
    let _licensees = register.len();
    match desk_answer(alloc, register, word, bound, by, prods, looks) {
        Ok(findings) => Ok(report_text(alloc, &findings)?),
        Err(error) => Err(refusal(register, bound, error)),
    }
}

/// What the command is refused with, where the desk refused.
fn refusal(register: &Register, bound: u32, error: DeskError) -> Refusal
    requires { bound ≤ 8 }
    ensures { result ≡ refused_as register.now.dimension bound error }
{
    match error {
        DeskError::BadBound => Refusal::Content(Fault::BadBound(u128::from(bound))),
        DeskError::TooFew(readable) => Refusal::Content(Fault::TooFew {
            readable,
            not_enough: bound * bound * (register.dimension() - 1),
        }),
        DeskError::Memory => Refusal::Memory,
    }
}
