//! Where the equations leave one curve but for a factor, both interpolators find it.

ghost use Rattle.std.specs.Prelude.{◌≡◌, ◌+◌, ◌*◌, ◌<◌, ◌≤◌, IfSome, length};

use bi_poly::BiPoly;
use gf2m::{Field, Gf};
use gs_koetter::Koetter;
use gs_linear::Linear;
use gs_params::{Interpolate, params};
use std::alloc::Global;
use std::marker::Brand;
use std::process::Abort;
use std::sync::ledger::Blank;
use steps::{Ledger, ProductLedger, Products, Steps};

/// The first of the points (i, i^3 + 7 i), where i is counted modulo 32.
fn points_of<F: Field>(alloc: Global, count: u32) -> Option<Vec<(F, F)>>
    ensures { IfSome result (λ points. length points.items ≡ count) }
{
    let mut points = Vec::new(alloc);
    'points: for i in 0..count {
        let x = i % 32;
        let y = (x * x * x + 7 * x) % 32;
        points.push((F::of(x as u8)?, F::of(y as u8)?)).ok()?;
    }
    Some(points)
}

/// Whether one polynomial is the other times an element that is not zero; both have only powers below e.
fn are_multiples<F: Field, P: Products>(
    q: &BiPoly<F>,
    other: &BiPoly<F>,
    e: u32,
    prods: &mut Steps<P>,
) -> bool {
    let mut first = None;
    for i in 0..e {
        for j in 0..e {
            let x = q.coef(i as usize, j as usize);
            let y = other.coef(i as usize, j as usize);
            if (x == F::zero()) != (y == F::zero()) {
                return false;
            }
            let (a, b) = first.unwrap_or((x, y));
            if x.mul(b, prods) != y.mul(a, prods) {
                return false;
            }
            if first.is_none() && x != F::zero() {
                first = Some((x, y));
            }
        }
    }
    first.is_some()
}

/// Whether both interpolators find the same curve but for a factor.
fn agree<F: Field, P: Products>(
    alloc: Global,
    k: u32,
    c: u32,
    r: u32,
    prods: &mut Steps<P>,
) -> Option<bool>
    requires least_k { 2 ≤ k }
    requires most_k { k ≤ 13 }
    requires points { r ≤ 1024 }
{
    let points = points_of::<F>(alloc, r)?;
    let chosen = params(k, c, r).ok()?;
    let one = Koetter.curve(alloc, &points, &chosen, prods).ok()?;
    let other = Linear.curve(alloc, &points, &chosen, prods).ok()?;
    Some(are_multiples(&one, &other, chosen.e, prods))
}

/// For each of these sets of points the equations of the curve leave one solution but for a factor, as was computed apart.
fn agree_on_all<P: Ledger>(rt: &impl Abort, host: &HostRuntime, blank: Blank)
    requires name { blank.name ≡ P.name }
    requires parts { blank.parts ≡ P.parts }
    requires some { 0 < P.parts }
{
    let alloc = host.alloc();
    let mut prods = Steps::<ProductLedger<P>>::new(host, blank);
    assert!(rt; agree::<Gf<5>, _>(alloc, 2, 1, 5, &mut prods) == Some(true));
    assert!(rt; agree::<Gf<5>, _>(alloc, 2, 2, 9, &mut prods) == Some(true));
    assert!(rt; agree::<Gf<5>, _>(alloc, 3, 2, 15, &mut prods) == Some(true));
    assert!(rt; agree::<Gf<5>, _>(alloc, 2, 4, 18, &mut prods) == Some(true));
    assert!(rt; agree::<Gf<5>, _>(alloc, 5, 2, 30, &mut prods) == Some(true));
}

#[test]
fn one_curve_is_found_by_both(rt: HostRuntime) {
    agree_on_all::<Brand>(&rt, &rt, Blank::new(1));
}
