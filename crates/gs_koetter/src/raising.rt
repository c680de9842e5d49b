//! Curves multiplied by x + a.

ghost use Rattle.std.specs.Prelude.{◌≡◌, ℕ, suc, ◌+◌, ◌*◌, ◌<◌, ◌≤◌, length, take, drop, slice_index_or};
ghost use Rattle.algebra.specs.Lists.{coefficients};
ghost use Rattle.decoding_terms.specs.Parameters.{term_count};
ghost use Rattle.koetter_terms.specs.Curves.{IsRaised, curve};
ghost use Rattle.term_lists.specs.Places.{place};
ghost use Rattle.gs_koetter.specs.Shapes.{HasShape, IsProduct, IsSpare};

use crate::cancelling::add_front;
use crate::curve::Curve;
use crate::derivatives::clear;
use crate::frame::{Frame, Monomials};
use gf2m::{Field, Products, Steps};
use std::mem;

/// The entry at the place, and zero past the end.
pub(crate) fn entry<F: Field>(source: &[F], place: usize) -> F
    ensures { result ≡ coefficients F.ring source.now place }
{
    match source.get(place) {
        Some(value) => *value,
        None => F::zero(),
    }
}

/// Puts at each of the first places what the source has at the quotient there.
#[inline(never)] // its loop needs the registers for itself
pub(crate) fn shift<F: Field>(target: &mut [F], source: &[F], quotients: &[usize])
    requires { length quotients.now ≤ length target.old }
    ensures length { length target.new ≡ length target.old }
    ensures each { (k : ℕ) → k < length quotients.now → coefficients F.ring target.new k
        ≡ coefficients F.ring source.now (slice_index_or quotients.now k 0) }
    ensures rest { (k : ℕ) → length quotients.now ≤ k
        → coefficients F.ring target.new k ≡ coefficients F.ring target.old k }
{
    'places: for k in 0..quotients.len() {
        target[k] = entry(source, quotients[k]);
    }
}

/// Copies so many entries, from the place `from` on to the place `to` on.
fn copy_run<F: Field>(target: &mut [F], source: &[F], from: usize, to: usize, count: usize)
    requires source { from + count ≤ length source.now }
    requires target { to + count ≤ length target.old }
    ensures length { length target.new ≡ length target.old }
    ensures each { (i : ℕ) → i < count
        → coefficients F.ring target.new (to + i) ≡ coefficients F.ring source.now (from + i) }
    ensures before { (k : ℕ) → k < to
        → coefficients F.ring target.new k ≡ coefficients F.ring target.old k }
    ensures after { (k : ℕ) → to + count ≤ k
        → coefficients F.ring target.new k ≡ coefficients F.ring target.old k }
{
    target[to..to + count].copy_from_slice(&source[from..from + count]);
}

/// Puts in x times the first `len` coefficients of the source, which weigh less than w times `runs`. The terms whose weights
/// divided by w give q stand one after the other, and x moves each of them by q + 1 places.
fn times_x<F: Field>(target: &mut [F], source: &[F], w: usize, len: usize, runs: usize)
    requires some { 1 ≤ w }
    requires low { w * runs ≤ 8192 }
    requires inside { len ≤ length source.now }
    requires room { len + runs ≤ length target.old }
    requires last { (q : ℕ) → q < runs → term_count w (w * q) < len }
    requires all { len ≤ term_count w (w * runs) }
    requires zeros { (k : ℕ) → coefficients F.ring target.old k ≡ F.ring.nil }
    ensures length { length target.new ≡ length target.old }
    ensures moved { (i j : ℕ) → place w i j < len
        → curve F.ring w target.new (suc i) j ≡ curve F.ring w source.now i j }
    ensures past { (i j : ℕ) → len ≤ place w i j
        → curve F.ring w target.new (suc i) j ≡ F.ring.nil }
    ensures others { (j : ℕ) → curve F.ring w target.new 0 j ≡ F.ring.nil }
{
    let mut from = 0;
    'runs: for q in 0..runs {
        let count = (w * (q + 1)).min(len - from);
        copy_run(target, source, from, from + q + 1, count);
        from += count;
    }
}

/// Puts in the product of the source, whose coefficients from `len` on are zero, with x + a.
fn multiply<F: Field, P: Products>(
    target: &mut [F],
    source: &[F],
    terms: &Monomials,
    len: usize,
    runs: usize,
    a: F,
    prods: &mut Steps<P>,
)
    requires low { terms.now.w * runs ≤ 8192 }
    requires target { length target.old ≡ length terms.now.quotients.items }
    requires source { length source.now ≡ length terms.now.quotients.items }
    requires room { len + runs ≤ length source.now }
    requires last { (q : ℕ) → q < runs → term_count terms.now.w (terms.now.w * q) < len }
    requires all { len ≤ term_count terms.now.w (terms.now.w * runs) }
    requires rest { (k : ℕ) → len ≤ k → coefficients F.ring source.now k ≡ F.ring.nil }
    ensures length { length target.new ≡ length target.old }
    ensures product { IsRaised F.ring terms.now.quotients.items a source.now target.new }
    ensures products { prods.new ≡ prods.old + len }
{
    clear(target);
    times_x(target, source, terms.w, len, runs);
    add_front(target, source, len, a, prods);
}

/// Puts in the list of the product with x + a, from the list of a curve with so many derivatives and coefficients.
fn raise_list<F: Field, P: Products>(
    target: &mut [F],
    source: &[F],
    frame: &Frame,
    len: usize,
    runs: usize,
    a: F,
    prods: &mut Steps<P>,
)
    requires target { length target.old ≡ term_count 1 frame.now.orders.e
        + term_count frame.now.terms.w frame.now.terms.e }
    requires source { length source.now ≡ length target.old }
    requires low { frame.now.terms.w * runs ≤ 8192 }
    requires room { term_count 1 frame.now.orders.e + len + runs ≤ length source.now }
    requires last { (q : ℕ) → q < runs
        → term_count frame.now.terms.w (frame.now.terms.w * q) < len }
    requires all { len ≤ term_count frame.now.terms.w (frame.now.terms.w * runs) }
    requires rest { (k : ℕ) → term_count 1 frame.now.orders.e + len ≤ k
        → coefficients F.ring source.now k ≡ F.ring.nil }
    ensures length { length target.new ≡ length target.old }
    ensures tile { IsRaised F.ring frame.now.orders.quotients.items F.ring.nil
        (take (term_count 1 frame.now.orders.e) source.now)
        (take (term_count 1 frame.now.orders.e) target.new) }
    ensures coefs { IsRaised F.ring frame.now.terms.quotients.items a
        (drop (term_count 1 frame.now.orders.e) source.now)
        (drop (term_count 1 frame.now.orders.e) target.new) }
    ensures products { prods.new ≡ prods.old + len }
{
    let orders = frame.orders.terms.len();
    let (tile, coefs) = target.split_at_mut(orders);
    shift(tile, &source[..orders], &frame.orders.quotients);
    multiply(coefs, &source[orders..], &frame.terms, len, runs, a, prods);
}

/// Multiplies the curve by x + a, where a is the first coordinate of the point at hand. What is in `spare` is lost.
pub(crate) fn raise<F: Field, P: Products>(
    curve: &mut Curve<F>,
    spare: &mut Curve<F>,
    frame: &Frame,
    j: usize,
    a: F,
    prods: &mut Steps<P>,
)
    requires shape { HasShape F.ring frame.now.terms.w frame.now.terms.e frame.now.orders.e j
        curve.old }
    requires spare { IsSpare frame.now.terms.w frame.now.terms.e frame.now.orders.e spare.old }
    requires light { curve.old.exponent + 1 + frame.now.terms.w * j < frame.now.terms.e }
    ensures product { IsProduct F.ring frame.now.terms.quotients.items
        frame.now.orders.quotients.items a curve.old curve.new }
    ensures shape { HasShape F.ring frame.now.terms.w frame.now.terms.e frame.now.orders.e j
        curve.new }
    ensures spare { IsSpare frame.now.terms.w frame.now.terms.e frame.now.orders.e spare.new }
    ensures products { prods.new ≤ prods.old + term_count frame.now.terms.w frame.now.terms.e }
{
    let runs = (curve.exponent + frame.terms.w * j) / frame.terms.w + 1;
    raise_list(
        &mut spare.list,
        &curve.list,
        frame,
        curve.len,
        runs,
        a,
        prods,
    );
    mem::swap(&mut curve.list, &mut spare.list);
    curve.len += runs;
    curve.exponent += 1;
}
