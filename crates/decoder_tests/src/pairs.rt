//! Pairs of a place and a symbol: those of a word, what fits them, and what is recovered from them.

ghost use Rattle.std.specs.Prelude.{◌≡◌, ◌<◌, ◌≤◌, length, IfOk};
ghost use Rattle.code_terms.specs.Words.{HasSymbolsBelow};
ghost use Rattle.pair_terms.specs.Pairs.{ArePairs, HaveSymbolsBelow};

use gf2m::Gf;
use gs_koetter::Koetter;
use gs_linear::Linear;
use gs_params::Interpolate;
use list_decode::{decode, recover};
use lists::Memory;
use pair_terms::words_are_pairs;
use rs_code::{Code, Message, Word};
use shown_pairs::{fitting_count, fitting_places, pairs_of};
use std::alloc::Global;
use std::marker::Brand;
use std::process::Abort;
use std::sync::ledger::Blank;
use steps::{Ledger, ProductLedger, Products, Steps};

/// The word that three colluders made, of messages 0, 1 and 16 over GF(16) at dimension 2.
const THREE_COLLUDERS: [Option<u8>; 10] = [
    Some(0),
    Some(1),
    Some(2),
    Some(3),
    Some(0),
    Some(0),
    Some(0),
    Some(1),
    Some(1),
    Some(1),
];

/// That word.
fn three_colluders(alloc: Global) -> Result<Word, Memory>
    ensures length { IfOk result (λ word. length word ≡ 10) }
    ensures symbols { IfOk result (HasSymbolsBelow 16) }
{
    Word::of(alloc, &THREE_COLLUDERS)
}

/// Its pairs.
fn their_pairs(alloc: Global) -> Result<Vec<(u32, u8)>, Memory>
    ensures pairs { IfOk result (λ pairs. ArePairs 10 pairs.items) }
    ensures symbols { IfOk result (λ pairs. HaveSymbolsBelow 16 pairs.items) }
    ensures few { IfOk result (λ pairs. length pairs.items ≤ 10) }
{
    words_are_pairs();
    let word = three_colluders(alloc)?;
    let pairs = pairs_of(alloc, &word)?;
    Ok(pairs)
}

/// Whether the pairs of the word, and the word itself, give just the three messages.
fn gives<I: Interpolate, P: Products>(
    alloc: Global,
    by: &I,
    prods: &mut Steps<P>,
) -> Result<bool, Memory> {
    let word = three_colluders(alloc)?;
    let pairs = their_pairs(alloc)?;
    let code = Code::<Gf<4>>::new(10, 2).unwrap();
    let wanted = [Message::of(0), Message::of(1), Message::of(16)];
    let Ok(recovered) = recover(alloc, &code, pairs.as_slice(), 3, by, prods) else {
        return Ok(false);
    };
    let Ok(decoded) = decode(alloc, &code, &word, 3, by, prods) else {
        return Ok(false);
    };
    Ok(recovered.as_slice() == wanted.as_slice() && decoded.as_slice() == wanted.as_slice())
}

/// Whether the message 1 fits the pairs of the word in just these places.
fn fits<P: Products>(alloc: Global, wanted: &[u16], prods: &mut Steps<P>) -> Result<bool, Memory> {
    let pairs = their_pairs(alloc)?;
    let code = Code::<Gf<4>>::new(10, 2).unwrap();
    let one = Message::of(1);
    let places = fitting_places(alloc, &code, one, pairs.as_slice(), prods)?;
    let count = fitting_count(&code, one, pairs.as_slice(), prods) as usize;
    Ok(places.as_slice() == wanted && count == places.len() && pairs.len() == 10)
}

/// Messages and places that were worked out apart.
fn known_pairs<P: Ledger>(rt: &impl Abort, host: &HostRuntime, blank: Blank)
    requires name { blank.name ≡ P.name }
    requires parts { blank.parts ≡ P.parts }
    requires some { 0 < P.parts }
{
    let alloc = host.alloc();
    let mut prods = Steps::<ProductLedger<P>>::new(host, blank);
    assert!(rt; gives(alloc, &Koetter, &mut prods) == Ok(true));
    assert!(rt; gives(alloc, &Linear, &mut prods) == Ok(true));
    assert!(rt; fits(alloc, &[1, 7, 8, 9], &mut prods) == Ok(true));
}

#[test]
fn recovers_from_pairs(rt: HostRuntime) {
    known_pairs::<Brand>(&rt, &rt, Blank::new(1));
}
