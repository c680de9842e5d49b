//! The verdict on a report, and how it is told.

ghost use Rattle.std.specs.Prelude.{◌≡◌, ◌≤◌, ◌^◌, length, true};
ghost use Rattle.code_terms.specs.Words.{HasSymbolsBelow};
ghost use Rattle.decoding_terms.specs.Parameters.{is_allowed_bound};
ghost use Rattle.decoder_terms.specs.Decoding.{not_enough};
ghost use Rattle.desk_terms.specs.Roll.{roll_of};
ghost use Rattle.report_terms.specs.Verdicts.{verdict};
ghost use Rattle.title_terms.specs.Designs.{places, symbols};
ghost use Rattle.packaging_terms.specs.Licensees.{fits};
ghost use Rattle.outcome_terms.specs.CheckCommand.{judged, told_verdict};
ghost use Rattle.outcome_terms.specs.Stores.{Settles, seen};
ghost use Rattle.outcome_terms.specs.TraceCommand.{is_served};

use command_io::over_field;
use desk_terms::Findings;
use gf2m::{Field, Gf};
use lic_register::Register;
use outcome_terms::{Fault, Refusal};
use report_check::{Verdict, check};
use rs_code::{Code, Word};
use std::alloc::Global;
use steps::{Looks, Products, Steps};
use title_store::Title;

/// What is put out for a report that is right.
const RIGHT: &[u8] = b"right\n";

/// The answer to findings in a word that a copy shows of the title.
pub(crate) fn judged<P: Products, Q: Looks>(
    alloc: Global,
    title: &Title,
    register: &Register,
    word: &Word,
    findings: &Findings,
    prods: &mut Steps<P>,
    looks: &mut Steps<Q>,
) -> Result<Vec<u8>, Refusal>
    requires same_code { fits title.now register.now ≡ true }
    requires served { is_served title.now findings.now.bound ≡ true }
    requires places { length word.now ≡ places title.now.design }
    requires symbols { HasSymbolsBelow (symbols title.now.design) word.now }
    ensures { Settles (seen (λ text. text.items) result)
        (judged register.now word.now findings.now) }
{
    let _places = title.places();
    judged_word(alloc, register, word, findings, prods, looks)
}

/// The answer to findings in a word.
#[tactic(auto, unfolding(outcome_terms::specs::CheckCommand::judged))]
fn judged_word<P: Products, Q: Looks>(
    alloc: Global,
    register: &Register,
    word: &Word,
    findings: &Findings,
    prods: &mut Steps<P>,
    looks: &mut Steps<Q>,
) -> Result<Vec<u8>, Refusal>
    requires least { 1 ≤ length word.now }
    requires most { length word.now ≤ 2 ^ register.now.bits }
    requires symbols { HasSymbolsBelow (2 ^ register.now.bits) word.now }
    requires bound { is_allowed_bound register.now.dimension findings.now.bound ≡ true }
    ensures { Settles (seen (λ text. text.items) result)
        (judged register.now word.now findings.now) }
{
    let bound = findings.bound;
    let needed = bound * bound * (register.dimension() - 1);
    let verdict = verdict_on(register, word, findings, prods, looks);
    told(alloc, needed, verdict)
}

/// How a verdict is told, where more places than this have to be readable.
fn told(alloc: Global, needed: u32, verdict: Verdict) -> Result<Vec<u8>, Refusal>
    ensures { Settles (seen (λ text. text.items) result) (told_verdict needed verdict) }
{
    match verdict {
        Verdict::Right => match Vec::from_slice(alloc, RIGHT) {
            Ok(text) => Ok(text),
            Err(_) => Err(Refusal::Memory),
        },
        Verdict::TooFew(readable) => Err(Refusal::Content(Fault::TooFew {
            readable,
            not_enough: needed,
        })),
        wrong => Err(Refusal::Content(Fault::Differs(wrong))),
    }
}

/// The verdict on findings in a word, over the field of the register.
fn verdict_on<P: Products, Q: Looks>(
    register: &Register,
    word: &Word,
    findings: &Findings,
    prods: &mut Steps<P>,
    looks: &mut Steps<Q>,
) -> Verdict
    requires least { 1 ≤ length word.now }
    requires most { length word.now ≤ 2 ^ register.now.bits }
    requires symbols { HasSymbolsBelow (2 ^ register.now.bits) word.now }
    requires bound { is_allowed_bound register.now.dimension findings.now.bound ≡ true }
    ensures { result ≡ verdict (roll_of register.now) word.now findings.now }
{
    over_field!(
        register.bits(),
        verdict_over,
        [P, Q],
        (register, word, findings, prods, looks)
    )
}

/// The same over this field.
fn verdict_over<F: Field, P: Products, Q: Looks>(
    register: &Register,
    word: &Word,
    findings: &Findings,
    prods: &mut Steps<P>,
    looks: &mut Steps<Q>,
) -> Verdict
    requires field { F.BITS ≡ register.now.bits }
    requires least { 1 ≤ length word.now }
    requires most { length word.now ≤ 2 ^ register.now.bits }
    requires bound { is_allowed_bound register.now.dimension findings.now.bound ≡ true }
    ensures { result ≡ verdict (roll_of register.now) word.now findings.now }
{
    let code = Code::<F>::new(word.len(), register.dimension()).unwrap();
    check(findings, register, &code, word, prods, looks)
}
