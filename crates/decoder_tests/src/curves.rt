//! Curves through points by both interpolators, one of them worked out by hand.

ghost use Rattle.std.specs.Prelude.{◌≡◌, ◌<◌, ◌≤◌, length};

use bi_poly::BiPoly;
use gf2m::{Field, Gf};
use gs_koetter::Koetter;
use gs_linear::Linear;
use gs_params::{Interpolate, params};
use std::alloc::Global;
use std::marker::Brand;
use std::process::Abort;
use std::sync::ledger::Blank;
use steps::{Ledger, ProductLedger, Products, Steps};

/// The curve for codes of dimension k and coalitions of c.
fn curve_of<F: Field, I: Interpolate, P: Products>(
    alloc: Global,
    by: &I,
    k: u32,
    c: u32,
    points: &[(F, F)],
    prods: &mut Steps<P>,
) -> Option<BiPoly<F>>
    requires least_k { 2 ≤ k }
    requires most_k { k ≤ 13 }
{
    if points.len() > 1024 {
        return None;
    }
    let chosen = params(k, c, points.len() as u32).ok()?;
    by.curve(alloc, points, &chosen, prods).ok()
}

/// So many points with so many first coordinates, which differ as pairs where they are few enough.
fn points_of<F: Field>(alloc: Global, count: u8, columns: u8) -> Option<Vec<(F, F)>>
    requires { 15 ≤ columns }
{
    let mut points = Vec::new(alloc);
    'points: for i in 0..count {
        points
            .push((F::of(i % columns)?, F::of(i / columns + i % 3)?))
            .ok()?;
    }
    Some(points)
}

/// So many points whose second coordinate is 0.
fn points_of_zero<F: Field>(alloc: Global, count: u8) -> Option<Vec<(F, F)>> {
    let mut points = Vec::new(alloc);
    'points: for i in 0..count {
        points.push((F::of(i)?, F::zero())).ok()?;
    }
    Some(points)
}

/// Whether all derivatives of an order below s are zero at all points.
fn vanishes<F: Field, P: Products>(
    q: &BiPoly<F>,
    points: &[(F, F)],
    s: usize,
    prods: &mut Steps<P>,
) -> bool {
    'points: for point in points {
        'x: for u in 0..s {
            'y: for v in 0..s - u {
                if q.hasse(u, v, point.0, point.1, prods) != F::zero() {
                    return false;
                }
            }
        }
    }
    true
}

/// Whether the curve through two points with the second coordinate 5 is a multiple of y + 5.
fn meets_a_line<F: Field, I: Interpolate, P: Products>(
    alloc: Global,
    by: &I,
    prods: &mut Steps<P>,
) -> Option<bool> {
    let five = F::of(5)?;
    let mut points = Vec::new(alloc);
    points.push((F::of(0)?, five)).ok()?;
    points.push((F::of(1)?, five)).ok()?;
    let q = curve_of(alloc, by, 2, 1, &points, prods)?;
    let y = q.coef(0, 1);
    Some(y != F::zero() && q.coef(0, 0) == y.mul(five, prods) && q.coef(1, 0) == F::zero())
}

/// Whether the curve through these points is zero at each with multiplicity s, and weighs less than e.
fn meets<F: Field, I: Interpolate, P: Products>(
    alloc: Global,
    by: &I,
    k: u32,
    c: u32,
    points: &[(F, F)],
    s: usize,
    e: usize,
    prods: &mut Steps<P>,
) -> Option<bool>
    requires least_k { 2 ≤ k }
    requires most_k { k ≤ 13 }
{
    let q = curve_of(alloc, by, k, c, points, prods)?;
    let degree = q.weighted_degree(k as usize - 1)?;
    Some(degree < e && vanishes(&q, points, s, prods))
}

/// Finds the curves of the table, and compares each.
fn finds<I: Interpolate, P: Ledger>(rt: &impl Abort, host: &HostRuntime, by: &I, blank: Blank)
    requires name { blank.name ≡ P.name }
    requires parts { blank.parts ≡ P.parts }
    requires some { 0 < P.parts }
{
    let alloc = host.alloc();
    let mut prods = Steps::<ProductLedger<P>>::new(host, blank);
    assert!(rt; meets_a_line::<Gf<4>, I, _>(alloc, by, &mut prods) == Some(true));
    let many = points_of::<Gf<8>>(alloc, 200, 200).unwrap_or(Vec::new(alloc));
    assert!(rt; meets(alloc, by, 5, 3, &many, 1, 39, &mut prods) == Some(true));
    let shared = points_of::<Gf<5>>(alloc, 30, 15).unwrap_or(Vec::new(alloc));
    assert!(rt; meets(alloc, by, 3, 3, &shared, 2, 19, &mut prods) == Some(true));
    let zeros = points_of_zero::<Gf<5>>(alloc, 19).unwrap_or(Vec::new(alloc));
    assert!(rt; meets(alloc, by, 3, 3, &zeros, 3, 21, &mut prods) == Some(true));
}

#[test]
fn finds_curves_by_algebra(rt: HostRuntime) {
    finds::<Linear, Brand>(&rt, &rt, &Linear, Blank::new(1));
}

#[test]
fn finds_curves_by_steps(rt: HostRuntime) {
    finds::<Koetter, Brand>(&rt, &rt, &Koetter, Blank::new(1));
}
