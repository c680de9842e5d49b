//! Sums, products, inverses and slices whose values are known from elsewhere.

ghost use Rattle.std.specs.Prelude.{◌≡◌, ◌<◌};

use gf2m::{Field, Gf};
use std::alloc::Global;
use std::marker::Brand;
use std::process::Abort;
use std::sync::ledger::Blank;
use steps::{Ledger, ProductLedger, Products, Steps};

/// The product of two elements, by their numbers.
fn times<F: Field, P: Products>(x: u8, y: u8, prods: &mut Steps<P>) -> Option<u8> {
    let x = F::of(x)?;
    let y = F::of(y)?;
    Some(x.mul(y, prods).to())
}

/// The inverse of an element, by its number.
fn inverse<F: Field, P: Products>(x: u8, prods: &mut Steps<P>) -> Option<u8> {
    let inverse = F::of(x)?.inv(prods)?;
    Some(inverse.to())
}

/// The sum of two elements, by their numbers.
fn plus<F: Field>(x: u8, y: u8) -> Option<u8> {
    let x = F::of(x)?;
    let y = F::of(y)?;
    Some(x.add(y).to())
}

/// Products that were worked out apart.
fn known_products<P: Ledger>(rt: &impl Abort, host: &HostRuntime, blank: Blank)
    requires name { blank.name ≡ P.name }
    requires parts { blank.parts ≡ P.parts }
    requires some { 0 < P.parts }
{
    let mut prods = Steps::<ProductLedger<P>>::new(host, blank);
    let products = [
        times::<Gf<4>, _>(2, 9, &mut prods),
        times::<Gf<4>, _>(7, 7, &mut prods),
        times::<Gf<5>, _>(21, 4, &mut prods),
        times::<Gf<8>, _>(128, 128, &mut prods),
        times::<Gf<8>, _>(2, 128, &mut prods),
    ];
    assert!(rt; products == [Some(1), Some(6), Some(30), Some(19), Some(29)]);
}

#[test]
fn multiplies(rt: HostRuntime) {
    known_products::<Brand>(&rt, &rt, Blank::new(1));
}

/// Inverses that were worked out apart.
fn known_inverses<P: Ledger>(rt: &impl Abort, host: &HostRuntime, blank: Blank)
    requires name { blank.name ≡ P.name }
    requires parts { blank.parts ≡ P.parts }
    requires some { 0 < P.parts }
{
    let mut prods = Steps::<ProductLedger<P>>::new(host, blank);
    let inverses = [
        inverse::<Gf<4>, _>(0, &mut prods),
        inverse::<Gf<4>, _>(2, &mut prods),
        inverse::<Gf<5>, _>(2, &mut prods),
        inverse::<Gf<6>, _>(2, &mut prods),
        inverse::<Gf<7>, _>(2, &mut prods),
        inverse::<Gf<8>, _>(2, &mut prods),
    ];
    assert!(rt; inverses == [None, Some(9), Some(18), Some(33), Some(68), Some(142)]);
}

#[test]
fn inverts(rt: HostRuntime) {
    known_inverses::<Brand>(&rt, &rt, Blank::new(1));
}

/// The elements of these numbers.
fn elements<F: Field>(alloc: Global, numbers: &[u8]) -> Option<Vec<F>> {
    let mut elements = Vec::new(alloc);
    for number in numbers {
        elements.push(F::of(*number)?).ok()?;
    }
    Some(elements)
}

/// Whether the target's numbers are `want` after `factor` times each element of the source was added.
fn adds_up_to<F: Field, P: Products>(
    alloc: Global,
    target: &[u8],
    source: &[u8],
    want: &[u8],
    factor: u8,
    prods: &mut Steps<P>,
) -> Option<bool> {
    let mut target = elements::<F>(alloc, target)?;
    let source = elements::<F>(alloc, source)?;
    let factor = F::of(factor)?;
    if target.len() != source.len() {
        return None;
    }
    F::add_multiple(&mut target, &source, factor, prods);
    let want = elements::<F>(alloc, want)?;
    Some(target == want)
}

/// Multiples of slices that were worked out apart.
fn known_slices<P: Ledger>(rt: &impl Abort, host: &HostRuntime, blank: Blank)
    requires name { blank.name ≡ P.name }
    requires parts { blank.parts ≡ P.parts }
    requires some { 0 < P.parts }
{
    let alloc = host.alloc();
    let mut prods = Steps::<ProductLedger<P>>::new(host, blank);
    let known = [
        adds_up_to::<Gf<4>, _>(
            alloc,
            &[0, 1, 5, 15, 7],
            &[3, 0, 15, 14, 9],
            &[4, 1, 2, 5, 8],
            13,
            &mut prods,
        ),
        adds_up_to::<Gf<5>, _>(
            alloc,
            &[0, 1, 5, 31, 7],
            &[3, 0, 31, 30, 9],
            &[2, 1, 12, 11, 9],
            29,
            &mut prods,
        ),
        adds_up_to::<Gf<6>, _>(
            alloc,
            &[0, 1, 5, 63, 7],
            &[3, 0, 63, 62, 9],
            &[4, 1, 18, 21, 27],
            61,
            &mut prods,
        ),
        adds_up_to::<Gf<7>, _>(
            alloc,
            &[0, 1, 5, 127, 7],
            &[3, 0, 127, 126, 9],
            &[14, 1, 79, 72, 45],
            125,
            &mut prods,
        ),
        adds_up_to::<Gf<8>, _>(
            alloc,
            &[0, 1, 5, 255, 7],
            &[3, 0, 255, 254, 9],
            &[26, 1, 4, 3, 65],
            253,
            &mut prods,
        ),
    ];
    assert!(rt; known == [Some(true); 5]);
}

#[test]
fn adds_multiples(rt: HostRuntime) {
    known_slices::<Brand>(&rt, &rt, Blank::new(1));
}

/// The number of the element of a number.
fn number_back<F: Field>(number: u8) -> Option<u8> {
    let element = F::of(number)?;
    Some(element.to())
}

#[test]
fn takes_numbers_below_the_size(rt: HostRuntime) {
    let last = [
        number_back::<Gf<4>>(15),
        number_back::<Gf<5>>(31),
        number_back::<Gf<6>>(63),
        number_back::<Gf<7>>(127),
        number_back::<Gf<8>>(255),
    ];
    assert!(rt; last == [Some(15), Some(31), Some(63), Some(127), Some(255)]);
    let past = [
        number_back::<Gf<4>>(16),
        number_back::<Gf<5>>(32),
        number_back::<Gf<6>>(64),
        number_back::<Gf<7>>(128),
    ];
    assert!(rt; past == [None; 4]);
}

#[test]
fn adds_without_carries(rt: HostRuntime) {
    let sums = [plus::<Gf<4>>(9, 12), plus::<Gf<8>>(200, 200)];
    assert!(rt; sums == [Some(5), Some(0)]);
    let ends = [Gf::<6>::zero().to(), Gf::<6>::one().to()];
    assert!(rt; ends == [0, 1]);
}
