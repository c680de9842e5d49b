//! Polynomials whose sums, products, quotients, values and roots are known from elsewhere.

ghost use Rattle.std.specs.Prelude.{◌≡◌, ◌<◌};

use gf2m::{Field, Gf};
use std::alloc::Global;
use std::marker::Brand;
use std::process::Abort;
use std::sync::ledger::Blank;
use steps::{Ledger, ProductLedger, Products, Steps};
use uni_poly::{Poly, PolyList, add_shifted, trimmed};

/// The same call at each of the five fields, one after the other.
macro_rules! in_each_field {
    ($call:ident($($argument:expr),*) $(, $other:ty)*) => {
        $call::<Gf<4> $(, $other)*>($($argument),*);
        $call::<Gf<5> $(, $other)*>($($argument),*);
        $call::<Gf<6> $(, $other)*>($($argument),*);
        $call::<Gf<7> $(, $other)*>($($argument),*);
        $call::<Gf<8> $(, $other)*>($($argument),*);
    };
}

/// The polynomial with these coefficients, lowest first.
fn polynomial<F: Field>(alloc: Global, numbers: &[u8]) -> Option<Poly<F>> {
    let mut coefs = Vec::new(alloc);
    for number in numbers {
        coefs.push(F::of(*number)?).ok()?;
    }
    Poly::from(alloc, &coefs).ok()
}

/// Whether these are the elements' numbers.
fn has<F: Field>(elements: &[F], numbers: &[u8]) -> bool {
    if elements.len() != numbers.len() {
        return false;
    }
    elements
        .iter()
        .zip(numbers)
        .all(|(element, number)| element.to() == *number)
}

/// Whether the sum has these coefficients.
fn adds<F: Field>(alloc: Global, left: &[u8], right: &[u8], want: &[u8]) -> Option<bool> {
    let left = polynomial::<F>(alloc, left)?;
    let right = polynomial::<F>(alloc, right)?;
    let sum = left.add(alloc, &right).ok()?;
    Some(has(sum.as_slice(), want))
}

/// Whether the product has these coefficients.
fn multiplies<F: Field, P: Products>(
    alloc: Global,
    left: &[u8],
    right: &[u8],
    want: &[u8],
    prods: &mut Steps<P>,
) -> Option<bool> {
    let left = polynomial::<F>(alloc, left)?;
    let right = polynomial::<F>(alloc, right)?;
    let product = left.mul(alloc, &right, prods).ok()?;
    Some(has(product.as_slice(), want))
}

/// Whether the division by x + 1 gives this quotient and this rest.
fn divides<F: Field, P: Products>(
    alloc: Global,
    whole: &[u8],
    quotient: &[u8],
    rest: u8,
    prods: &mut Steps<P>,
) -> Option<bool> {
    let whole = polynomial::<F>(alloc, whole)?;
    let (part, left) = whole.div_linear(alloc, F::one(), prods).ok()?;
    Some(has(part.as_slice(), quotient) && left.to() == rest)
}

/// Whether these are the roots.
fn has_roots<F: Field, P: Products>(
    alloc: Global,
    whole: &[u8],
    roots: &[u8],
    prods: &mut Steps<P>,
) -> Option<bool> {
    let whole = polynomial::<F>(alloc, whole)?;
    let found = whole.roots(alloc, prods).ok()?;
    Some(has(found.as_slice(), roots))
}

/// Whether these are the values at the elements with the numbers 0, 1, 2 and so on.
fn has_values<F: Field, P: Products>(
    alloc: Global,
    whole: &[u8],
    values: &[u8],
    prods: &mut Steps<P>,
) -> Option<bool> {
    let whole = polynomial::<F>(alloc, whole)?;
    let mut number = 0;
    for value in values {
        if number > 7 || whole.eval(F::of(number)?, prods).to() != *value {
            return Some(false);
        }
        number += 1;
    }
    Some(true)
}

/// The sums that hold in every field with more than eight elements.
fn has_sums<F: Field>(rt: &impl Abort, alloc: Global) {
    assert!(rt; adds::<F>(alloc, &[1, 1], &[1, 1], &[]) == Some(true));
    assert!(rt; adds::<F>(alloc, &[], &[], &[]) == Some(true));
    assert!(rt; adds::<F>(alloc, &[5], &[3, 0, 1], &[6, 0, 1]) == Some(true));
}

#[test]
fn adds_in_each_field(rt: HostRuntime) {
    let alloc = rt.alloc();
    in_each_field!(has_sums(&rt, alloc));
}

/// The products that hold in each of the fields.
fn has_products<F: Field, P: Products>(rt: &impl Abort, alloc: Global, prods: &mut Steps<P>) {
    assert!(rt; multiplies::<F, P>(alloc, &[1, 1], &[1, 1], &[1, 0, 1], prods) == Some(true));
    assert!(rt; multiplies::<F, P>(alloc, &[], &[1, 1], &[], prods) == Some(true));
    assert!(rt; multiplies::<F, P>(alloc, &[3], &[0, 0, 1, 0], &[0, 0, 3], prods) == Some(true));
}

/// Products that were worked out apart.
fn known_products<P: Ledger>(rt: &impl Abort, host: &HostRuntime, blank: Blank)
    requires name { blank.name ≡ P.name }
    requires parts { blank.parts ≡ P.parts }
    requires some { 0 < P.parts }
{
    let alloc = host.alloc();
    let mut prods = Steps::<ProductLedger<P>>::new(host, blank);
    in_each_field!(has_products(rt, alloc, &mut prods), ProductLedger<P>);
}

#[test]
fn multiplies_in_each_field(rt: HostRuntime) {
    known_products::<Brand>(&rt, &rt, Blank::new(1));
}

/// The quotients by x + 1 that hold in each of the fields.
fn has_quotients<F: Field, P: Products>(rt: &impl Abort, alloc: Global, prods: &mut Steps<P>) {
    assert!(rt; divides::<F, P>(alloc, &[1, 0, 1], &[1, 1], 0, prods) == Some(true));
    assert!(rt; divides::<F, P>(alloc, &[7], &[], 7, prods) == Some(true));
    assert!(rt; divides::<F, P>(alloc, &[], &[], 0, prods) == Some(true));
}

/// Quotients and rests that were worked out apart.
fn known_quotients<P: Ledger>(rt: &impl Abort, host: &HostRuntime, blank: Blank)
    requires name { blank.name ≡ P.name }
    requires parts { blank.parts ≡ P.parts }
    requires some { 0 < P.parts }
{
    let alloc = host.alloc();
    let mut prods = Steps::<ProductLedger<P>>::new(host, blank);
    in_each_field!(has_quotients(rt, alloc, &mut prods), ProductLedger<P>);
}

#[test]
fn divides_in_each_field(rt: HostRuntime) {
    known_quotients::<Brand>(&rt, &rt, Blank::new(1));
}

/// The roots that are the same in each of the fields: two, one that counts twice, one, and none.
fn has_few_roots<F: Field, P: Products>(rt: &impl Abort, alloc: Global, prods: &mut Steps<P>) {
    assert!(rt; has_roots::<F, P>(alloc, &[0, 1, 1], &[0, 1], prods) == Some(true));
    assert!(rt; has_roots::<F, P>(alloc, &[1, 0, 1], &[1], prods) == Some(true));
    assert!(rt; has_roots::<F, P>(alloc, &[9, 1], &[9], prods) == Some(true));
    assert!(rt; has_roots::<F, P>(alloc, &[4], &[], prods) == Some(true));
}

/// Roots of polynomials with few of them.
fn known_few_roots<P: Ledger>(rt: &impl Abort, host: &HostRuntime, blank: Blank)
    requires name { blank.name ≡ P.name }
    requires parts { blank.parts ≡ P.parts }
    requires some { 0 < P.parts }
{
    let alloc = host.alloc();
    let mut prods = Steps::<ProductLedger<P>>::new(host, blank);
    in_each_field!(has_few_roots(rt, alloc, &mut prods), ProductLedger<P>);
}

#[test]
fn finds_roots_in_each_field(rt: HostRuntime) {
    known_few_roots::<Brand>(&rt, &rt, Blank::new(1));
}

/// Values, roots and sums over one field.
fn known_in_one_field<P: Ledger>(rt: &impl Abort, host: &HostRuntime, blank: Blank)
    requires name { blank.name ≡ P.name }
    requires parts { blank.parts ≡ P.parts }
    requires some { 0 < P.parts }
{
    let alloc = host.alloc();
    let mut prods = Steps::<ProductLedger<P>>::new(host, blank);
    let all = [0, 1, 2, 3, 4, 5, 6, 7, 8, 9, 10, 11, 12, 13, 14, 15];
    let power = [0, 1, 0, 0, 0, 0, 0, 0, 0, 0, 0, 0, 0, 0, 0, 0, 1];
    assert!(rt; has_roots::<Gf<4>, _>(alloc, &power, &all, &mut prods) == Some(true));
    assert!(rt; has_roots::<Gf<4>, _>(alloc, &[2, 4, 9, 1], &[2, 9], &mut prods) == Some(true));
    assert!(rt; has_roots::<Gf<4>, _>(alloc, &[1, 1, 1], &[6, 7], &mut prods) == Some(true));
    assert!(rt; has_roots::<Gf<5>, _>(alloc, &[1, 1, 1], &[], &mut prods) == Some(true));
    assert!(rt; has_roots::<Gf<7>, _>(alloc, &[1, 1, 1], &[], &mut prods) == Some(true));
    assert!(rt; has_roots::<Gf<8>, _>(alloc, &[1, 1, 1], &[214, 215], &mut prods) == Some(true));
    let coefs = [5, 7, 11];
    let of_4 = [5, 9, 1, 13, 4, 8, 0, 12];
    let of_5 = [5, 9, 2, 14, 24, 20, 31, 19];
    let of_6 = [5, 9, 39, 43, 47, 35, 13, 1];
    let of_7 = [5, 9, 39, 43, 32, 44, 2, 14];
    let of_8 = [5, 9, 39, 43, 169, 165, 139, 135];
    assert!(rt; has_values::<Gf<4>, _>(alloc, &coefs, &of_4, &mut prods) == Some(true));
    assert!(rt; has_values::<Gf<5>, _>(alloc, &coefs, &of_5, &mut prods) == Some(true));
    assert!(rt; has_values::<Gf<6>, _>(alloc, &coefs, &of_6, &mut prods) == Some(true));
    assert!(rt; has_values::<Gf<7>, _>(alloc, &coefs, &of_7, &mut prods) == Some(true));
    assert!(rt; has_values::<Gf<8>, _>(alloc, &coefs, &of_8, &mut prods) == Some(true));
}

#[test]
fn agrees_in_one_field(rt: HostRuntime) {
    known_in_one_field::<Brand>(&rt, &rt, Blank::new(1));
}

/// Whether x times the factor times the source, added to the target, gives these coefficients without the zeros at the end.
fn adds_shifted<F: Field, P: Products>(
    alloc: Global,
    target: &[u8],
    source: &[u8],
    factor: u8,
    want: &[u8],
    prods: &mut Steps<P>,
) -> Option<bool> {
    let mut sum = Vec::new(alloc);
    for number in target {
        sum.push(F::of(*number)?).ok()?;
    }
    let source = polynomial::<F>(alloc, source)?;
    if sum.len() <= source.as_slice().len() || sum.len() > 1000 {
        return None;
    }
    add_shifted(
        sum.as_mut_slice(),
        source.as_slice(),
        F::of(factor)?,
        1,
        prods,
    );
    Some(has(trimmed(sum.as_slice()), want))
}

/// Sums with shifted polynomials that were worked out apart.
fn known_shifted_sums<P: Ledger>(rt: &impl Abort, host: &HostRuntime, blank: Blank)
    requires name { blank.name ≡ P.name }
    requires parts { blank.parts ≡ P.parts }
    requires some { 0 < P.parts }
{
    let alloc = host.alloc();
    let mut prods = Steps::<ProductLedger<P>>::new(host, blank);
    let target = [1, 2, 3, 6, 0];
    let ends = adds_shifted::<Gf<4>, _>(alloc, &target, &[1, 0, 3], 2, &[1, 0, 3], &mut prods);
    assert!(rt; ends == Some(true));
    let goes_on = adds_shifted::<Gf<8>, _>(
        alloc,
        &target,
        &[7, 9],
        29,
        &[1, 81, 246, 6],
        &mut prods,
    );
    assert!(rt; goes_on == Some(true));
}

#[test]
fn adds_shifted_multiples(rt: HostRuntime) {
    known_shifted_sums::<Brand>(&rt, &rt, Blank::new(1));
}

/// Degree, leading coefficient and length of a polynomial.
fn shape(alloc: Global, numbers: &[u8]) -> Option<(Option<usize>, u8, u8)> {
    let whole = polynomial::<Gf<4>>(alloc, numbers)?;
    Some((whole.degree(), whole.coef(1).to(), whole.coef(7).to()))
}

#[test]
fn knows_its_degree_and_coefficients(rt: HostRuntime) {
    let alloc = rt.alloc();
    assert!(&rt; shape(alloc, &[3, 5, 0, 9, 0, 0]) == Some((Some(3), 5, 0)));
    assert!(&rt; shape(alloc, &[6]) == Some((Some(0), 0, 0)));
    assert!(&rt; shape(alloc, &[0, 0]) == Some((None, 0, 0)));
    let none: PolyList<Gf<4>> = PolyList::over(Vec::new(alloc));
    assert!(&rt; none.is_empty());
}
