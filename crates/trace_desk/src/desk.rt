//! The desk.

ghost use Rattle.std.specs.Prelude.{◌≡◌, ◌≢◌, ℕ, ◌+◌, ◌*◌, ◌^◌, ◌<◌, ◌≤◌, List, [], ◌∷◌, ◌++◌, All, AllPairs, Contains, IfOk, OnOk, length};
ghost use Rattle.std.specs.List.Sorted.{IsNonDecreasingBy, IsPermutation};
ghost use Rattle.code_terms.specs.Words.{HasSymbolsBelow, readable};
ghost use Rattle.pair_terms.specs.Pairs.{ArePairs, HaveSymbolsBelow, fitting_places};
ghost use Rattle.merge_terms.specs.Bounds.{merged_bound, merged_look_bound};
ghost use Rattle.desk_terms.specs.Bounds.{look_bound, tracing_bound};
ghost use Rattle.list_decode.specs.Answers.{CostsAtMost};
ghost use Rattle.trace_desk.specs.Answers.{AccusesAs, TracesAs, accusing, tracing};
ghost use Rattle.trace_desk.specs.Known.{AreKnown};

use crate::book::Book;
use crate::desk_error::DeskError;
use desk_terms::{Accused, AccusedList, Findings};
use gf2m::Field;
use gs_params::Interpolate;
use list_decode::recover;
use lists::{Memory, Text};
use rs_code::{Code, Message, Word};
use shown_pairs::{fitting_places, pairs_of};
use std::alloc::Global;
use steps::{Looks, Products, Steps};

/// Everyone in the book who agrees with at least a c-th part of the word's readable places, in order of serial, each with name
/// and places. Refused, in this order, are a bound that codes of this dimension don't allow, and c² (k - 1) readable places or
/// fewer; the only other error is want of memory.
///
/// The products are at most `tracing_bound`, where the curve costs no more than `curve`, and the looks at most `look_bound`.
pub fn accuse<F: Field, B: Book, I: Interpolate, P: Products, Q: Looks>(
    alloc: Global,
    book: &B,
    code: &Code<F>,
    word: &Word,
    c: u32,
    by: &I,
    prods: &mut Steps<P>,
    looks: &mut Steps<Q>,
) -> Result<Findings, DeskError>
    requires bits { F.BITS ≡ (B.roll book.now).bits }
    requires dimension { code.now.dimension ≡ (B.roll book.now).dimension }
    requires length { length word.now ≡ code.now.places }
    requires symbols { HasSymbolsBelow F.Q word.now }
    ensures findings { TracesAs result (tracing (B.roll book.now) word.now c) }
    ensures products { (curve : ℕ)
        → CostsAtMost I.cost code.now.dimension c (readable word.now) curve
        → prods.new ≤ prods.old + tracing_bound curve code.now.places code.now.dimension c }
    ensures looks { looks.new ≤ looks.old + look_bound code.now.places c }
{
    let _places = code.n();
    let pairs = pairs_of(alloc, word)?;
    match accused_by(alloc, book, code, pairs.as_slice(), c, by, prods, looks) {
        Ok(list) => Ok(Findings {
            readable: word.readable(),
            bound: c,
            accused: list,
        }),
        Err(error) => Err(error),
    }
}

/// Everyone in the book who fits at least a c-th part of these pairs, in order of serial, each with name and places. Refused,
/// in this order, are a bound that codes of this dimension don't allow, and c² (k - 1) pairs or fewer; the only other error is
/// want of memory.
///
/// The pairs are at most 1024, in order of place and then of symbol. The products are at most `merged_bound`, where the
/// curve costs no more than `curve`, and the looks at most `merged_look_bound`.
pub fn accused_by<F: Field, B: Book, I: Interpolate, P: Products, Q: Looks>(
    alloc: Global,
    book: &B,
    code: &Code<F>,
    pairs: &[(u32, u8)],
    c: u32,
    by: &I,
    prods: &mut Steps<P>,
    looks: &mut Steps<Q>,
) -> Result<AccusedList, DeskError>
    requires bits { F.BITS ≡ (B.roll book.now).bits }
    requires dimension { code.now.dimension ≡ (B.roll book.now).dimension }
    requires pairs { ArePairs code.now.places pairs.now }
    requires symbols { HaveSymbolsBelow F.Q pairs.now }
    requires few { length pairs.now ≤ 1024 }
    ensures accused { AccusesAs result (accusing (B.roll book.now) pairs.now c) }
    ensures products { (curve : ℕ)
        → CostsAtMost I.cost code.now.dimension c (length pairs.now) curve
        → prods.new ≤ prods.old + merged_bound curve (length pairs.now) code.now.places code.now.dimension c }
    ensures looks { looks.new ≤ looks.old + merged_look_bound (length pairs.now) c }
{
    let _bits = book.bits();
    let _places = code.n();
    let messages = recover(alloc, code, pairs, c, by, prods)?;
    let mut accused = known(alloc, book, code, pairs, messages.as_slice(), prods, looks)?;
    sort_by_serial(&mut accused)?;
    Ok(AccusedList::over(accused))
}

/// Puts them in order of serial.
fn sort_by_serial(accused: &mut Vec<Accused>) -> Result<(), Memory>
    ensures permutation { IsPermutation accused.old.items accused.new.items }
    ensures sorted { OnOk result (IsNonDecreasingBy (λ one. one.serial) accused.new.items) }
{
    accused.sort_by_key(|one| one.serial)?;
    Ok(())
}

/// What is said of those in the book who have one of these messages, in the order of the messages.
fn known<F: Field, B: Book, P: Products, Q: Looks>(
    alloc: Global,
    book: &B,
    code: &Code<F>,
    pairs: &[(u32, u8)],
    messages: &[Message],
    prods: &mut Steps<P>,
    looks: &mut Steps<Q>,
) -> Result<Vec<Accused>, Memory>
    requires bits { F.BITS ≡ (B.roll book.now).bits }
    requires dimension { code.now.dimension ≡ (B.roll book.now).dimension }
    requires pairs { ArePairs code.now.places pairs.now }
    requires messages { All (λ u. u < 2 ^ (F.BITS * code.now.dimension)) messages.now }
    requires apart { AllPairs (λ u v. u ≢ v) messages.now }
    ensures known { IfOk result (λ accused. AreKnown (B.roll book.now) pairs.now messages.now
        accused.items) }
    ensures products { prods.new ≤ prods.old
        + length messages.now * (code.now.places * code.now.dimension) }
    ensures looks { looks.new ≤ looks.old + length messages.now }
{
    let mut accused = Vec::new(alloc);
    'messages: for i in 0..messages.len() {
        look_up(
            alloc,
            book,
            code,
            pairs,
            messages[i],
            &mut accused,
            prods,
            looks,
        )?;
    }
    Ok(accused)
}

/// Adds the licensee with this message, if anybody has it.
fn look_up<F: Field, B: Book, P: Products, Q: Looks>(
    alloc: Global,
    book: &B,
    code: &Code<F>,
    pairs: &[(u32, u8)],
    message: Message,
    accused: &mut Vec<Accused>,
    prods: &mut Steps<P>,
    looks: &mut Steps<Q>,
) -> Result<(), Memory>
    requires bits { F.BITS ≡ (B.roll book.now).bits }
    requires dimension { code.now.dimension ≡ (B.roll book.now).dimension }
    requires pairs { ArePairs code.now.places pairs.now }
    requires message { message < 2 ^ (F.BITS * code.now.dimension) }
    ensures known { OnOk result ((earlier : List ℕ)
        → AreKnown (B.roll book.now) pairs.now earlier accused.old.items
        → (Contains earlier message → ⊥)
        → AreKnown (B.roll book.now) pairs.now (earlier ++ message ∷ []) accused.new.items) }
    ensures products { prods.new ≤ prods.old + code.now.places * code.now.dimension }
    ensures looks { looks.new ≡ looks.old + 1 }
{
    match book.by_message(message, looks) {
        None => Ok(()),
        Some((serial, licensee)) => {
            let one = accusation(alloc, code, pairs, message, serial, licensee.name, prods)?;
            accused.push(one)?;
            Ok(())
        }
    }
}

/// What is said of a licensee with this message.
fn accusation<F: Field, P: Products>(
    alloc: Global,
    code: &Code<F>,
    pairs: &[(u32, u8)],
    message: Message,
    serial: u32,
    name: &str,
    prods: &mut Steps<P>,
) -> Result<Accused, Memory>
    requires pairs { ArePairs code.now.places pairs.now }
    requires message { message < 2 ^ (F.BITS * code.now.dimension) }
    ensures said { IfOk result (λ one. one
        ≡ record {
          serial = serial;
          name = name.now;
          places = fitting_places F.BITS code.now.dimension
              message pairs.now;
        }) }
    ensures products { prods.new ≤ prods.old + code.now.places * code.now.dimension }
{
    let name = Text::of(alloc, name)?;
    let places = fitting_places(alloc, code, message, pairs, prods)?;
    Ok(Accused {
        serial,
        name,
        places,
    })
}
