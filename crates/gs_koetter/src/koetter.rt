//! A curve by Koetter's interpolation.

ghost use Rattle.std.specs.Prelude.{◌≡◌, ◌≢◌, ℕ, ◌+◌, ◌-◌, ◌*◌, ◌/◌, ◌<◌, ◌≤◌, length, [], replicate, None, Some, IfOk, IfSome};
ghost use Rattle.algebra.specs.Lists.{coefficients};
ghost use Rattle.decoding_terms.specs.Parameters.{term_count};
ghost use Rattle.term_lists.specs.Places.{place};
ghost use Rattle.gs_koetter.specs.declared.curve.Curve.{Curve};
ghost use Rattle.gs_koetter.specs.Results.{IsBegun, IsResult};
ghost use Rattle.gs_koetter.specs.Shapes.{IsSpare, slot};
ghost use Rattle.gs_koetter.specs.States.{IsScratch, point_products};
ghost use Rattle.term_lists.specs.Extended.{IsExtended};

use crate::curve::Curve;
use crate::frame::{Frame, Halvings, Monomials, cells, turns};
use crate::points::{Scratch, handle_points};
use bi_poly::BiPoly;
use gf2m::{Field, Products, Steps};
use gs_params::{Interpolate, Params};
use lists::Memory;
use std::alloc::{AllocError, Global};
use term_lists::polynomial_of;

/// Finds a curve by Koetter's interpolation. One curve for each power of y meets all conditions that were handled so far; a
/// condition is met by adding multiples of the least curve that does not meet it to the others, and then multiplying that
/// curve by x + a, where a is the point's first coordinate.
#[derive(Clone, Copy, Debug)]
pub struct Koetter;

impl Interpolate for Koetter {
    ghost use Rattle.std.specs.Prelude.{◌+◌, ◌-◌, ◌*◌, ◌/◌};

    ghost cost = { λ p. 8 * p.rows * ((p.e - 1) / p.w + 1) * p.cols };

    fn curve<F: Field, P: Products>(
        &self,
        alloc: Global,
        points: &[(F, F)],
        params: &Params,
        prods: &mut Steps<P>,
    ) -> Result<BiPoly<F>, Memory> {
        let frame = frame(alloc, params)?;
        let kept = kept_curve(alloc, &frame, points, prods)?;
        polynomial_of(alloc, &frame.terms.terms, &kept.list[kept.orders..])
    }
}

/// The tables for these numbers.
fn frame(alloc: Global, params: &Params) -> Result<Frame, AllocError>
    ensures w { IfOk result (λ frame. frame.terms.w ≡ params.now.w) }
    ensures e { IfOk result (λ frame. frame.terms.e ≡ params.now.e) }
    ensures s { IfOk result (λ frame. frame.orders.e ≡ params.now.s) }
    ensures width { IfOk result (λ frame. frame.width ≡ (params.now.e - 1) / params.now.w + 1) }
{
    let w = params.w as usize;
    let e = params.e as usize;
    let terms = Monomials::below(alloc, w, e)?;
    let orders = Monomials::below(alloc, 1, params.s as usize)?;
    let width = (e - 1) / w + 1;
    let side = orders.e;
    let cells = cells(alloc, &terms, width)?;
    let turns = turns(alloc, width, side)?;
    Ok(Frame {
        terms,
        orders,
        width,
        xs: Halvings::of(e, width),
        ys: Halvings::of(width, side),
        cells,
        turns,
    })
}

/// So many zeros.
fn zeros<F: Field>(alloc: Global, count: usize) -> Result<Vec<F>, AllocError>
    ensures { IfOk result (λ list. list.items ≡ replicate count F.ring.nil) }
{
    let mut list = Vec::with_capacity(alloc, count)?;
    'places: for _place in 0..count {
        list.push(F::zero())?;
    }
    Ok(list)
}

/// Lists of zeros.
fn zero_curve<F: Field>(alloc: Global, frame: &Frame) -> Result<Curve<F>, AllocError>
    ensures lists { IfOk result (λ c. IsSpare frame.now.terms.w frame.now.terms.e
        frame.now.orders.e c) }
    ensures zeros { IfOk result (λ c. (k : ℕ) → coefficients F.ring c.list.items k ≡ F.ring.nil) }
    ensures exponent { IfOk result (λ c. c.exponent ≡ 0) }
{
    let orders = frame.orders.terms.len();
    let list = zeros(alloc, orders + frame.terms.terms.len())?;
    Ok(Curve {
        list,
        orders,
        len: 0,
        exponent: 0,
    })
}

/// The curve y^j, whose only term stands at this place.
fn first_curve<F: Field>(
    alloc: Global,
    frame: &Frame,
    j: usize,
    first: usize,
) -> Result<Option<Curve<F>>, AllocError>
    requires light { frame.now.terms.w * j < frame.now.terms.e }
    requires first { first ≡ place frame.now.terms.w 0 j }
    ensures { IfOk result (λ o. IsBegun F.ring frame.now.terms.w frame.now.terms.e
        frame.now.orders.e j o) }
{
    let mut curve = zero_curve(alloc, frame)?;
    curve.list[curve.orders + first] = F::one();
    curve.len = first + 1;
    Ok(Some(curve))
}

/// The curves 1, y, y^2 and so on.
fn first_curves<F: Field>(alloc: Global, frame: &Frame) -> Result<Vec<Option<Curve<F>>>, AllocError>
    ensures { IfOk result (λ curves.
        IsExtended (IsBegun F.ring frame.now.terms.w frame.now.terms.e frame.now.orders.e) None [] frame.now.width curves.items) }
{
    let mut curves = Vec::with_capacity(alloc, frame.width)?;
    let mut place = 0;
    'powers: for j in 0..frame.width {
        curves.push(first_curve(alloc, frame, j, place)?)?;
        place += frame.terms.w * (j + 1) + 1;
    }
    Ok(curves)
}

/// Room for one point and one curve.
fn scratch<F: Field>(alloc: Global, frame: &Frame) -> Result<Scratch<F>, AllocError>
    ensures { IfOk result (λ scratch. IsScratch frame.now scratch) }
{
    let xs = zeros(alloc, frame.xs.count)?;
    let ys = zeros(alloc, frame.ys.count)?;
    let table = zeros(alloc, frame.terms.e * frame.width)?;
    let turned = zeros(alloc, frame.width * frame.orders.e)?;
    Ok(Scratch {
        xs,
        ys,
        table,
        turned,
    })
}

/// Where a curve is kept.
fn first_kept<F: Field>(curves: &[Option<Curve<F>>]) -> Option<usize>
    ensures some { IfSome result (λ p. (c : Curve F) × (slot curves.now p ≡ Some c)) }
    ensures none { result ≡ None → (j : ℕ) (c : Curve F) → slot curves.now j ≡ Some c → ⊥ }
{
    'curves: for p in 0..curves.len() {
        if let Some(_curve) = &curves[p] {
            return Some(p);
        }
    }
    None
}

/// A curve that is kept.
fn taken<F: Field>(mut curves: Vec<Option<Curve<F>>>) -> Curve<F>
    requires { (j : ℕ) × (c : Curve F) × (slot curves.items j ≡ Some c) }
    ensures { (j : ℕ) × (slot curves.items j ≡ Some result) }
{
    let p = first_kept(&curves).unwrap();
    curves[p].take().unwrap()
}

/// A curve that meets all conditions.
fn kept_curve<F: Field, P: Products>(
    alloc: Global,
    frame: &Frame,
    points: &[(F, F)],
    prods: &mut Steps<P>,
) -> Result<Curve<F>, AllocError>
    requires { length points.now * term_count 1 frame.now.orders.e
        < term_count frame.now.terms.w frame.now.terms.e }
    ensures result { IfOk result (λ c. IsResult F.ring frame.now.terms.w frame.now.terms.e
        frame.now.width frame.now.orders.e points.now c) }
    ensures products { prods.new ≤ prods.old
        + length points.now * point_products frame.now.terms.w frame.now.terms.e frame.now.width
        frame.now.orders.e }
{
    let mut curves = first_curves(alloc, frame)?;
    let mut spare = zero_curve(alloc, frame)?;
    let mut scratch = scratch(alloc, frame)?;
    handle_points(&mut curves, &mut spare, &mut scratch, frame, points, prods);
    Ok(taken(curves))
}
