//! Words, codewords and places whose values are known from elsewhere.

ghost use Rattle.std.specs.Prelude.{◌≡◌, ◌*◌, ◌^◌, ◌<◌, IfSome};

use gf2m::{Elements, Field, Gf};
use rs_code::{Code, CodeError, Message, Word, WordError, WordFault};
use std::alloc::Global;
use std::marker::Brand;
use std::process::Abort;
use std::sync::ledger::Blank;
use steps::{Ledger, ProductLedger, Products, Steps};

const THREE_COLLUDERS: [Option<u8>; 10] = [
    Some(0),
    Some(1),
    Some(2),
    Some(3),
    Some(0),
    Some(0),
    Some(0),
    Some(1),
    Some(1),
    Some(1),
];

/// Whether these are the symbols of the word.
fn holds(word: &Word, slots: &[Option<u8>]) -> bool {
    if word.len() as usize != slots.len() {
        return false;
    }
    for (place, slot) in slots.iter().enumerate() {
        if place < 256 && word.get(place as u32) != *slot {
            return false;
        }
    }
    true
}

/// Whether the text is read as the word of these symbols.
fn reads(alloc: Global, text: &[u8], slots: &[Option<u8>]) -> bool {
    if text.len() > 100 {
        return false;
    }
    match Word::read(alloc, text, 4) {
        Ok(word) => holds(&word, slots),
        Err(_) => false,
    }
}

#[test]
fn reads_words(rt: HostRuntime) {
    let alloc = rt.alloc();
    assert!(&rt; reads(alloc, b"0,1,2,3,0,0,0,1,1,1", &THREE_COLLUDERS));
    assert!(&rt; reads(alloc, b"5,5\n", &[Some(5), Some(5)]));
    assert!(&rt; reads(alloc, b"-", &[None]));
}

/// Why the text is no word.
fn fault(alloc: Global, text: &[u8]) -> Option<WordFault> {
    if text.len() > 100 {
        return None;
    }
    match Word::read(alloc, text, 4) {
        Err(WordError::NotWord(fault)) => Some(fault),
        _ => None,
    }
}

#[test]
fn names_the_first_fault(rt: HostRuntime) {
    let alloc = rt.alloc();
    assert!(&rt; fault(alloc, b"0,16,2") == Some(WordFault::Token(1)));
    assert!(&rt; fault(alloc, b"") == Some(WordFault::Token(0)));
    assert!(&rt; fault(alloc, b"0,0,0,0,0,0,0,0,0,0,0,0,0,0,0,0,0") == Some(WordFault::Long));
}

/// The message of these coefficients.
fn message_of<F: Field>(alloc: Global, code: &Code<F>, numbers: &[u8]) -> Option<Message>
    ensures { IfSome result (λ message. message < 2 ^ (F.BITS * code.now.dimension)) }
{
    let mut elements = Vec::new(alloc);
    for number in numbers {
        elements.push(F::of(*number)?).ok()?;
    }
    let elements: Elements<F> = Elements::over(elements);
    if elements.len() > code.k() as usize {
        return None;
    }
    Some(code.pack(&elements))
}

/// Whether these are the symbols of the message's codeword.
fn has_codeword<F: Field, P: Products>(
    alloc: Global,
    numbers: &[u8],
    slots: &[Option<u8>],
    prods: &mut Steps<P>,
) -> Option<bool> {
    let code = Code::<F>::new(8, 3).ok()?;
    let message = message_of(alloc, &code, numbers)?;
    let word = code.codeword(alloc, message, prods).ok()?;
    Some(holds(&word, slots))
}

/// Codewords that were worked out apart.
fn known_codewords<P: Ledger>(rt: &impl Abort, host: &HostRuntime, blank: Blank)
    requires name { blank.name ≡ P.name }
    requires parts { blank.parts ≡ P.parts }
    requires some { 0 < P.parts }
{
    let alloc = host.alloc();
    let mut prods = Steps::<ProductLedger<P>>::new(host, blank);
    let coefs = [5, 7, 11];
    let of_4 = [5, 9, 1, 13, 4, 8, 0, 12].map(Some);
    let of_5 = [5, 9, 2, 14, 24, 20, 31, 19].map(Some);
    let of_6 = [5, 9, 39, 43, 47, 35, 13, 1].map(Some);
    let of_7 = [5, 9, 39, 43, 32, 44, 2, 14].map(Some);
    let of_8 = [5, 9, 39, 43, 169, 165, 139, 135].map(Some);
    assert!(rt; has_codeword::<Gf<4>, _>(alloc, &coefs, &of_4, &mut prods) == Some(true));
    assert!(rt; has_codeword::<Gf<5>, _>(alloc, &coefs, &of_5, &mut prods) == Some(true));
    assert!(rt; has_codeword::<Gf<6>, _>(alloc, &coefs, &of_6, &mut prods) == Some(true));
    assert!(rt; has_codeword::<Gf<7>, _>(alloc, &coefs, &of_7, &mut prods) == Some(true));
    assert!(rt; has_codeword::<Gf<8>, _>(alloc, &coefs, &of_8, &mut prods) == Some(true));
}

#[test]
fn makes_codewords(rt: HostRuntime) {
    known_codewords::<Brand>(&rt, &rt, Blank::new(1));
}

/// Whether the message of these coefficients agrees with the colluders' word in just these places.
fn has_places<P: Products>(
    alloc: Global,
    numbers: &[u8],
    places: &[u16],
    prods: &mut Steps<P>,
) -> Option<bool> {
    let code = Code::<Gf<4>>::new(10, 2).ok()?;
    let message = message_of(alloc, &code, numbers)?;
    let word = Word::of(alloc, &THREE_COLLUDERS).ok()?;
    if word.len() != code.n() {
        return None;
    }
    let found = code.places(alloc, message, &word, prods).ok()?;
    let count = code.agreement(message, &word, prods) as usize;
    Some(found.as_slice() == places && count == places.len() && word.readable() == 10)
}

/// Agreeing places that were worked out apart.
fn known_places<P: Ledger>(rt: &impl Abort, host: &HostRuntime, blank: Blank)
    requires name { blank.name ≡ P.name }
    requires parts { blank.parts ≡ P.parts }
    requires some { 0 < P.parts }
{
    let alloc = host.alloc();
    let mut prods = Steps::<ProductLedger<P>>::new(host, blank);
    assert!(rt; has_places(alloc, &[0], &[0, 4, 5, 6], &mut prods) == Some(true));
    assert!(rt; has_places(alloc, &[1], &[1, 7, 8, 9], &mut prods) == Some(true));
    assert!(rt; has_places(alloc, &[0, 1], &[0, 1, 2, 3], &mut prods) == Some(true));
}

#[test]
fn finds_agreeing_places(rt: HostRuntime) {
    known_places::<Brand>(&rt, &rt, Blank::new(1));
}

#[test]
fn accepts_numbers_of_codes(rt: HostRuntime) {
    assert!(&rt; matches!(Code::<Gf<4>>::new(4, 14), Err(CodeError::BadK)));
    assert!(&rt; matches!(Code::<Gf<4>>::new(17, 13), Err(CodeError::BadN)));
    let allowed = Code::<Gf<4>>::new(16, 5).is_ok_and(|code| {
        code.allows(1) && code.allows(3) && !code.allows(0) && !code.allows(4)
    });
    assert!(&rt; allowed);
}
