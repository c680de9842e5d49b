//! Polynomials whose derivatives, values and shifts were computed apart from this program, by the definitions.

ghost use Rattle.std.specs.Prelude.{◌≡◌, ◌<◌};

use bi_poly::BiPoly;
use gf2m::{Field, Gf};
use std::alloc::Global;
use std::marker::Brand;
use std::process::Abort;
use std::sync::ledger::Blank;
use steps::{Ledger, ProductLedger, Products, Steps};
use uni_poly::Poly;

/// A term: the power of x, that of y, and the number of the coefficient.
type Term = (usize, usize, u8);

const FIRST: &[Term] = &[(3, 0, 2), (1, 1, 7), (0, 2, 9), (5, 3, 11), (2, 6, 4)];

const SECOND: &[Term] = &[(6, 3, 13), (7, 5, 1), (3, 7, 6), (2, 2, 15)];

// Orders in x and y, and the number of the derivative: of the first at x = 3 and y = 5, of the second at x = 6 and y = 9.
const FIRST_IN_16: &[Term] = &[
    (0, 0, 6),
    (1, 0, 6),
    (0, 1, 4),
    (1, 1, 13),
    (2, 1, 0),
    (1, 3, 5),
    (2, 4, 8),
    (5, 2, 1),
    (4, 3, 14),
    (3, 3, 0),
    (7, 4, 0),
    (1, 2, 2),
];

const FIRST_IN_256: &[Term] = &[
    (0, 0, 13),
    (1, 0, 226),
    (0, 1, 88),
    (1, 1, 195),
    (2, 1, 0),
    (1, 3, 187),
    (2, 4, 68),
    (5, 2, 39),
    (4, 3, 29),
    (3, 3, 0),
    (7, 4, 0),
    (1, 2, 109),
];

const SECOND_IN_16: &[Term] = &[
    (0, 0, 13),
    (1, 0, 2),
    (0, 1, 5),
    (1, 1, 4),
    (2, 1, 13),
    (1, 3, 14),
    (2, 4, 1),
    (5, 2, 0),
    (4, 3, 5),
    (3, 3, 2),
    (7, 4, 9),
    (1, 2, 7),
];

const SECOND_IN_256: &[Term] = &[
    (0, 0, 36),
    (1, 0, 101),
    (0, 1, 230),
    (1, 1, 13),
    (2, 1, 208),
    (1, 3, 167),
    (2, 4, 241),
    (5, 2, 0),
    (4, 3, 228),
    (3, 3, 146),
    (7, 4, 9),
    (1, 2, 246),
];

// The first polynomial at x and x y + 5.
const SHIFTED_IN_16: &[Term] = &[
    (0, 0, 1),
    (1, 0, 8),
    (2, 0, 6),
    (2, 1, 7),
    (2, 2, 9),
    (3, 0, 2),
    (4, 2, 3),
    (5, 0, 2),
    (6, 1, 5),
    (6, 4, 8),
    (7, 2, 1),
    (8, 3, 11),
    (8, 6, 4),
];

const SHIFTED_IN_256: &[Term] = &[
    (0, 0, 153),
    (1, 0, 27),
    (2, 0, 35),
    (2, 1, 7),
    (2, 2, 9),
    (3, 0, 2),
    (4, 2, 112),
    (5, 0, 109),
    (6, 1, 187),
    (6, 4, 68),
    (7, 2, 39),
    (8, 3, 11),
    (8, 6, 4),
];

// The first polynomial and nine times the second.
const SUM_IN_16: &[Term] = &[
    (0, 2, 9),
    (1, 1, 7),
    (2, 2, 14),
    (2, 6, 4),
    (3, 0, 2),
    (3, 7, 3),
    (5, 3, 11),
    (6, 3, 15),
    (7, 5, 9),
];

/// The polynomial of these terms.
fn polynomial<F: Field>(alloc: Global, terms: &[Term]) -> Option<BiPoly<F>> {
    let mut sum = BiPoly::zero(alloc);
    for (i, j, number) in terms {
        if *i >= 4096 || *j >= 4096 {
            return None;
        }
        sum.set(*i, *j, F::of(*number)?).ok()?;
    }
    Some(sum)
}

/// Whether the polynomial has just these terms, whose powers are below 16.
fn has<F: Field>(alloc: Global, found: &BiPoly<F>, terms: &[Term]) -> Option<bool> {
    let wanted = polynomial::<F>(alloc, terms)?;
    for place in 0..256usize {
        let (i, j) = (place / 16, place % 16);
        if found.coef(i, j) != wanted.coef(i, j) {
            return Some(false);
        }
    }
    let same_x = found.x_degree() == wanted.x_degree();
    Some(same_x && found.y_degree() == wanted.y_degree())
}

/// The polynomial in one variable with these coefficients, lowest first.
fn list<F: Field>(alloc: Global, numbers: &[u8]) -> Option<Poly<F>> {
    let mut coefs = Vec::new(alloc);
    for number in numbers {
        coefs.push(F::of(*number)?).ok()?;
    }
    Poly::from(alloc, &coefs).ok()
}

/// The numbers of the derivatives of these orders, all at one point.
fn derives<F: Field, P: Products>(
    alloc: Global,
    terms: &[Term],
    point: (u8, u8),
    wanted: &[Term],
    prods: &mut Steps<P>,
) -> Option<bool> {
    let whole = polynomial::<F>(alloc, terms)?;
    let (a, b) = (F::of(point.0)?, F::of(point.1)?);
    for (u, v, number) in wanted {
        if whole.hasse(*u, *v, a, b, prods).to() != *number {
            return Some(false);
        }
    }
    Some(true)
}

/// Whether Q(x, f(x)) has these coefficients.
fn gives<F: Field, P: Products>(
    alloc: Global,
    terms: &[Term],
    f: &[u8],
    wanted: &[u8],
    prods: &mut Steps<P>,
) -> Option<bool> {
    let whole = polynomial::<F>(alloc, terms)?;
    let value = whole.substitute(&list(alloc, f)?, prods).ok()?;
    Some(value.as_slice() == list::<F>(alloc, wanted)?.as_slice())
}

/// Whether Q(x, x y + g) is this power of x times these terms.
fn shifts<F: Field, P: Products>(
    alloc: Global,
    terms: &[Term],
    g: u8,
    power: usize,
    wanted: &[Term],
    prods: &mut Steps<P>,
) -> Option<bool> {
    let whole = polynomial::<F>(alloc, terms)?;
    if whole.x_degree()? >= 4096 || whole.y_degree()? >= 4096 {
        return None;
    }
    let mut shifted = whole.shift(F::of(g)?, prods).ok()?;
    shifted.y_degree()?;
    Some(shifted.strip_x() == power && has(alloc, &shifted, wanted)?)
}

/// The known derivatives of two polynomials, in GF(16) and GF(256).
fn known_derivatives<P: Ledger>(rt: &impl Abort, host: &HostRuntime, blank: Blank)
    requires name { blank.name ≡ P.name }
    requires parts { blank.parts ≡ P.parts }
    requires some { 0 < P.parts }
{
    let alloc = host.alloc();
    let mut prods = Steps::<ProductLedger<P>>::new(host, blank);
    let single = [(1, 0, 0), (0, 1, 1), (2, 1, 1)];
    assert!(rt;
        derives::<Gf<4>, _>(alloc, &[(2, 1, 1)], (1, 5), &single, &mut prods) == Some(true)
    );
    assert!(rt; derives::<Gf<4>, _>(alloc, FIRST, (3, 5), FIRST_IN_16, &mut prods) == Some(true));
    assert!(rt; derives::<Gf<8>, _>(alloc, FIRST, (3, 5), FIRST_IN_256, &mut prods) == Some(true));
    assert!(rt; derives::<Gf<4>, _>(alloc, SECOND, (6, 9), SECOND_IN_16, &mut prods) == Some(true));
    assert!(rt;
        derives::<Gf<8>, _>(alloc, SECOND, (6, 9), SECOND_IN_256, &mut prods) == Some(true)
    );
}

#[test]
fn derives_at_mixed_orders(rt: HostRuntime) {
    known_derivatives::<Brand>(&rt, &rt, Blank::new(1));
}

/// The known values at y = f(x), in GF(16) and GF(256).
fn known_values<P: Ledger>(rt: &impl Abort, host: &HostRuntime, blank: Blank)
    requires name { blank.name ≡ P.name }
    requires parts { blank.parts ≡ P.parts }
    requires some { 0 < P.parts }
{
    let alloc = host.alloc();
    let mut prods = Steps::<ProductLedger<P>>::new(host, blank);
    let sum = [(0, 1, 1), (1, 0, 1)];
    let first_in_16 = [11, 9, 11, 2, 5, 3, 1, 2, 15];
    let first_in_256 = [45, 9, 225, 2, 125, 105, 5, 164, 21];
    let second_in_16 = [0, 0, 6, 8, 14, 1, 11, 11, 13, 7, 1, 9, 6];
    assert!(rt; gives::<Gf<4>, _>(alloc, &sum, &[0, 1], &[], &mut prods) == Some(true));
    assert!(rt; gives::<Gf<4>, _>(alloc, FIRST, &[3, 7], &first_in_16, &mut prods) == Some(true));
    assert!(rt; gives::<Gf<8>, _>(alloc, FIRST, &[3, 7], &first_in_256, &mut prods) == Some(true));
    assert!(rt; gives::<Gf<4>, _>(alloc, SECOND, &[3, 7], &second_in_16, &mut prods) == Some(true));
    assert!(rt; gives::<Gf<8>, _>(alloc, SECOND, &[], &[], &mut prods) == Some(true));
}

#[test]
fn substitutes_polynomials(rt: HostRuntime) {
    known_values::<Brand>(&rt, &rt, Blank::new(1));
}

/// The known shifts, each divided by the greatest power of x, in GF(16) and GF(256).
fn known_shifts<P: Ledger>(rt: &impl Abort, host: &HostRuntime, blank: Blank)
    requires name { blank.name ≡ P.name }
    requires parts { blank.parts ≡ P.parts }
    requires some { 0 < P.parts }
{
    let alloc = host.alloc();
    let mut prods = Steps::<ProductLedger<P>>::new(host, blank);
    let line = [(0, 1, 1), (0, 0, 5)];
    let square = [(1, 2, 1), (1, 0, 2), (3, 1, 2)];
    let square_in_256 = [(1, 2, 1), (1, 0, 17), (3, 1, 2)];
    let root = [(0, 2, 1), (1, 1, 2), (0, 0, 10)];
    assert!(rt; shifts::<Gf<4>, _>(alloc, &line, 5, 1, &[(0, 1, 1)], &mut prods) == Some(true));
    assert!(rt; shifts::<Gf<4>, _>(alloc, &square, 5, 3, &root, &mut prods) == Some(true));
    assert!(rt; shifts::<Gf<8>, _>(alloc, &square_in_256, 5, 3, &root, &mut prods) == Some(true));
    assert!(rt; shifts::<Gf<4>, _>(alloc, FIRST, 5, 0, SHIFTED_IN_16, &mut prods) == Some(true));
    assert!(rt; shifts::<Gf<8>, _>(alloc, FIRST, 5, 0, SHIFTED_IN_256, &mut prods) == Some(true));
}

#[test]
fn shifts_and_divides_by_powers_of_x(rt: HostRuntime) {
    known_shifts::<Brand>(&rt, &rt, Blank::new(1));
}

/// The sum of the first polynomial and nine times the second.
fn known_sum<P: Ledger>(host: &HostRuntime, blank: Blank) -> Option<bool>
    requires name { blank.name ≡ P.name }
    requires parts { blank.parts ≡ P.parts }
    requires some { 0 < P.parts }
{
    let alloc = host.alloc();
    let mut prods = Steps::<ProductLedger<P>>::new(host, blank);
    let mut sum = polynomial::<Gf<4>>(alloc, FIRST)?;
    let other = polynomial::<Gf<4>>(alloc, SECOND)?;
    sum.add_multiple(&other, Gf::<4>::of(9)?, &mut prods).ok()?;
    has(alloc, &sum, SUM_IN_16)
}

#[test]
fn adds_a_multiple(rt: HostRuntime) {
    assert!(&rt; known_sum::<Brand>(&rt, Blank::new(1)) == Some(true));
}

/// The greatest power of x, that of y, and the greatest i + 12 j of the terms x^i y^j.
fn degrees(alloc: Global, terms: &[Term]) -> Option<(Option<usize>, Option<usize>, Option<usize>)> {
    let whole = polynomial::<Gf<8>>(alloc, terms)?;
    Some((
        whole.x_degree(),
        whole.y_degree(),
        whole.weighted_degree(12),
    ))
}

#[test]
fn knows_its_degrees(rt: HostRuntime) {
    let alloc = rt.alloc();
    assert!(&rt; degrees(alloc, FIRST) == Some((Some(5), Some(6), Some(74))));
    assert!(&rt; degrees(alloc, SECOND) == Some((Some(7), Some(7), Some(87))));
    assert!(&rt; degrees(alloc, &[(2, 3, 5), (2, 3, 0)]) == Some((None, None, None)));
}

/// Whether Q(0, y) has these coefficients.
fn at_zero(alloc: Global, terms: &[Term], wanted: &[u8]) -> Option<bool> {
    let whole = polynomial::<Gf<4>>(alloc, terms)?;
    let column = whole.at_zero().ok()?;
    Some(column.as_slice() == list::<Gf<4>>(alloc, wanted)?.as_slice())
}

#[test]
fn is_a_polynomial_in_y_at_zero(rt: HostRuntime) {
    let alloc = rt.alloc();
    assert!(&rt; at_zero(alloc, &[(0, 1, 1), (1, 0, 1)], &[0, 1]) == Some(true));
    assert!(&rt; at_zero(alloc, FIRST, &[0, 0, 9]) == Some(true));
    assert!(&rt; at_zero(alloc, SECOND, &[]) == Some(true));
}

/// Whether a copy keeps these terms when the first of the two changes.
fn copies(alloc: Global, terms: &[Term]) -> Option<bool> {
    let mut whole = polynomial::<Gf<4>>(alloc, terms)?;
    let copy = whole.copy().ok()?;
    whole.set(0, 0, Gf::<4>::one()).ok()?;
    has(alloc, &copy, terms)
}

#[test]
fn copies_its_terms(rt: HostRuntime) {
    assert!(&rt; copies(rt.alloc(), SECOND) == Some(true));
}
