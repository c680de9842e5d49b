//! The decoder and the desk by curves that linear algebra finds, and the program where no curve is found.

ghost use Rattle.std.specs.Prelude.{◌≡◌, ◌<◌, IfOk, IfSome, [], ◌∷◌, None, Some};
ghost use Rattle.code_terms.specs.Words.{three_colluders};

use super::calls::{call_with, register, same, says, says_by_steps, shelf};
use super::films::{THREE_COLLUDERS, titled_film};
use bi_poly::BiPoly;
use desk_terms::{Accused, Findings};
use gf2m::{Field, Gf};
use gs_koetter::Koetter;
use gs_linear::Linear;
use gs_params::{Interpolate, Params};
use lic_register::Licensee;
use list_decode::{DecodeError, decode};
use lists::Memory;
use rs_code::{Code, Message, MessageList, Word};
use shelf_io::{MemShelf, MemSink};
use std::alloc::Global;
use std::marker::Brand;
use std::process::Abort;
use std::sync::ledger::Blank;
use std::test::Fail;
use steps::{Ledger, LookLedger, Looks, ProductLedger, Products, Steps};
use trace_desk::{Book, accuse};

/// Finds no curve, at no cost.
struct NoCurve;

impl Interpolate for NoCurve {
    ghost cost = { λ _. 0 };

    fn curve<F: Field, P: Products>(
        &self,
        _alloc: Global,
        _points: &[(F, F)],
        _params: &Params,
        _prods: &mut Steps<P>,
    ) -> Result<BiPoly<F>, Memory> {
        Err(Memory)
    }
}

/// What the program puts out for this line, where no curve is found.
fn without_curves(host: &HostRuntime, shelf: &mut MemShelf, line: &str) -> Result<String, Memory> {
    let mut out = MemSink::new(host.alloc());
    call_with(host, shelf, &mut out, line, &NoCurve)
}

/// What the program accuses of a word against twenty licensees, where no curve is found.
fn accused_without_curves(host: &HostRuntime, word: &str) -> Result<String, Memory> {
    let alloc = host.alloc();
    let twenty = register(alloc, 4, 2, 20)?;
    let mut shelf = shelf(alloc, twenty.as_str(), word)?;
    without_curves(host, &mut shelf, "accuse reg w 3")
}

/// Whoever is accused is found by a curve, and too few readable places are told without one.
#[test]
fn no_curve_is_found(rt: HostRuntime) -> Result<(), Fail> {
    let enough = accused_without_curves(&rt, "0,1,2,3,0,0,0,1,1,1")?;
    same(&rt, enough.as_str(), "1: error 1 memory\n", "enough places");
    let too_few = accused_without_curves(&rt, "0,1,2,3,0,0,0,1,1,-")?;
    same(
        &rt,
        too_few.as_str(),
        "15: error 15 9 9\n",
        "too few places",
    );
    Ok(())
}

/// The film's copy is traced by a curve too.
#[test]
fn no_curve_is_found_for_a_copy(rt: HostRuntime) -> Result<(), Fail> {
    let mut shelf = titled_film(&rt)?;
    let got = without_curves(&rt, &mut shelf, TRACE)?;
    same(&rt, got.as_str(), "1: error 1 memory\n", "a film's copy");
    Ok(())
}

/// The trace of the film's copy.
const TRACE: &str = "trace film.title reg copy 3";

/// Curves of both kinds lead to the same bytes.
#[test]
fn both_ways_for_a_copy(rt: HostRuntime) -> Result<(), Fail> {
    let mut shelf = titled_film(&rt)?;
    says(&rt, &rt, &mut shelf, TRACE, THREE_COLLUDERS)?;
    says_by_steps(&rt, &rt, &mut shelf, TRACE, THREE_COLLUDERS)?;
    Ok(())
}

/// Three licensees whose messages follow no rule.
struct ThreeEntries;

impl Book for ThreeEntries {
    ghost use Rattle.desk_terms.specs.Examples.{three_entries};

    ghost roll = { λ _. three_entries };

    fn bits(&self) -> u32 {
        4
    }

    fn dimension(&self) -> u32 {
        2
    }

    fn by_message<Q: Looks>(
        &self,
        message: Message,
        looks: &mut Steps<Q>,
    ) -> Option<(u32, Licensee<'_>)> {
        looks.tick();
        match message.number() {
            16 => Some((0, active("u"))),
            200 => Some((1, active("v"))),
            0 => Some((2, active("w"))),
            _ => None,
        }
    }
}

/// An active licensee of this name.
fn active(name: &str) -> Licensee<'_>
    ensures { result.name.now ≡ name.now }
{
    Licensee { name, active: true }
}

/// The word that three colluders made.
fn colluders_word(alloc: Global) -> Result<Word, Memory>
    ensures { IfOk result (λ word. word ≡ three_colluders) }
{
    Word::of(
        alloc,
        &[
            Some(0),
            Some(1),
            Some(2),
            Some(3),
            Some(0),
            Some(0),
            Some(0),
            Some(1),
            Some(1),
            Some(1),
        ],
    )
}

/// Whom the desk finds in that word among the three, with this way to find curves.
fn found_by<I: Interpolate>(host: &HostRuntime, by: &I) -> Result<String, Memory> {
    found_among_three::<I, Brand, Brand>(host, by, Blank::new(1), Blank::new(1))
}

/// The same, whose products and looks are counted from nothing.
fn found_among_three<I: Interpolate, P: Ledger, Q: Ledger>(
    host: &HostRuntime,
    by: &I,
    prods: Blank,
    looks: Blank,
) -> Result<String, Memory>
    requires prods_name { prods.name ≡ P.name }
    requires prods_parts { prods.parts ≡ P.parts }
    requires prods_some { 0 < P.parts }
    requires looks_name { looks.name ≡ Q.name }
    requires looks_parts { looks.parts ≡ Q.parts }
    requires looks_some { 0 < Q.parts }
{
    let alloc = host.alloc();
    let mut prods = Steps::<ProductLedger<P>>::new(host, prods);
    let mut looks = Steps::<LookLedger<Q>>::new(host, looks);
    let word = colluders_word(alloc)?;
    let code = Code::<Gf<4>>::new(10, 2).unwrap();
    match accuse(
        alloc,
        &ThreeEntries,
        &code,
        &word,
        3,
        by,
        &mut prods,
        &mut looks,
    ) {
        Ok(findings) => told(alloc, &findings),
        Err(_) => Ok(String::from_str(alloc, "refused")?),
    }
}

/// Findings as a text.
fn told(alloc: Global, findings: &Findings) -> Result<String, Memory> {
    let mut text = String::new(alloc);
    for one in findings.accused.as_slice() {
        add_accused(&mut text, one)?;
    }
    Ok(text)
}

/// Adds one of the accused to the text.
fn add_accused(text: &mut String, one: &Accused) -> Result<(), Memory> {
    let serial = one.serial;
    let name = one.name.as_str();
    write!(text, "{serial} {name}")?;
    for place in one.places.as_slice() {
        write!(text, " {place}")?;
    }
    text.push('\n')?;
    Ok(())
}

/// Whom the desk is to find in that word among the three.
const TWO_OF_THREE: &str = "0 u 0 1 2 3\n2 w 0 4 5 6\n";

/// The licensees of the messages 16 and 0 are accused, in order of serial; the third message of the word is nobody's.
#[test]
fn a_book_without_a_rule(rt: HostRuntime) -> Result<(), Fail> {
    let by_algebra = found_by(&rt, &Linear)?;
    same(&rt, by_algebra.as_str(), TWO_OF_THREE, "linear algebra");
    let by_steps = found_by(&rt, &Koetter)?;
    same(&rt, by_steps.as_str(), TWO_OF_THREE, "point by point");
    Ok(())
}

/// What is decoded of the colluders' word with this last slot, for coalitions of `c`.
fn decoded<P: Products>(
    alloc: Global,
    last: Option<u8>,
    c: u32,
    prods: &mut Steps<P>,
) -> Result<String, Memory>
    requires { IfSome last (λ v. v < 16) }
{
    let word = word_ending(alloc, last)?;
    let code = Code::<Gf<4>>::new(10, 2).unwrap();
    answer(alloc, decode(alloc, &code, &word, c, &Linear, prods))
}

/// What is decoded for one licensee of a word that has the symbol 5 at two of four places, and lost the others: the curve has
/// the smallest parameters.
fn decoded_of_two<P: Products>(alloc: Global, prods: &mut Steps<P>) -> Result<String, Memory> {
    let word = two_fives(alloc)?;
    let code = Code::<Gf<4>>::new(4, 2).unwrap();
    answer(alloc, decode(alloc, &code, &word, 1, &Linear, prods))
}

/// The word with two equal symbols.
fn two_fives(alloc: Global) -> Result<Word, Memory>
    ensures { IfOk result (λ word. word ≡ None ∷ Some 5 ∷ None ∷ Some 5 ∷ []) }
{
    Word::of(alloc, &[None, Some(5), None, Some(5)])
}

/// What the decoder answers, as a text.
fn answer(alloc: Global, decoded: Result<MessageList, DecodeError>) -> Result<String, Memory> {
    match decoded {
        Ok(messages) => numbers(alloc, messages.as_slice()),
        Err(DecodeError::BadBound) => Ok(String::from_str(alloc, "bad bound")?),
        Err(DecodeError::TooFew(readable)) => Ok(format!(in alloc; "too few: {readable}")?),
        Err(DecodeError::Memory) => Err(Memory),
    }
}

/// The word whose last symbol is this one.
fn word_ending(alloc: Global, last: Option<u8>) -> Result<Word, Memory>
    ensures { IfOk result (λ word. word ≡ Some 0 ∷ Some 1 ∷ Some 2 ∷ Some 3 ∷ Some 0 ∷ Some 0 ∷ Some 0 ∷ Some 1 ∷ Some 1 ∷ last ∷ []) }
{
    Word::of(
        alloc,
        &[
            Some(0),
            Some(1),
            Some(2),
            Some(3),
            Some(0),
            Some(0),
            Some(0),
            Some(1),
            Some(1),
            last,
        ],
    )
}

/// The numbers of messages as a text.
fn numbers(alloc: Global, messages: &[Message]) -> Result<String, Memory> {
    let mut text = String::new(alloc);
    for message in messages {
        let number = message.number();
        write!(text, "{number};")?;
    }
    Ok(text)
}

/// Decodes words of the table, and compares the messages.
fn decodes<P: Ledger>(rt: &impl Abort, host: &HostRuntime, prods: Blank) -> Result<(), Fail>
    requires name { prods.name ≡ P.name }
    requires parts { prods.parts ≡ P.parts }
    requires some { 0 < P.parts }
{
    let alloc = host.alloc();
    let mut prods = Steps::<ProductLedger<P>>::new(host, prods);
    let three = decoded(alloc, Some(1), 3, &mut prods)?;
    same(rt, three.as_str(), "0;1;16;", "ten places");
    let too_few = decoded(alloc, None, 3, &mut prods)?;
    same(rt, too_few.as_str(), "too few: 9", "nine places");
    let none = decoded(alloc, None, 2, &mut prods)?;
    same(rt, none.as_str(), "", "nine places of two");
    let bad_bound = decoded(alloc, None, 9, &mut prods)?;
    same(rt, bad_bound.as_str(), "bad bound", "coalitions of nine");
    let of_two = decoded_of_two(alloc, &mut prods)?;
    same(rt, of_two.as_str(), "5;", "two equal symbols");
    Ok(())
}

#[test]
fn messages_are_decoded(rt: HostRuntime) -> Result<(), Fail> {
    decodes::<Brand>(&rt, &rt, Blank::new(1))
}
