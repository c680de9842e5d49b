//! Multiples of the pivot added to the other curves.

ghost use Rattle.std.specs.Prelude.{◌≡◌, ◌≢◌, ℕ, ◌+◌, ◌*◌, ◌<◌, ◌≤◌, length, None, Some};
ghost use Rattle.algebra.specs.Lists.{coefficients};
ghost use Rattle.koetter_terms.specs.Curves.{IsSum};
ghost use Rattle.gs_koetter.specs.declared.curve.Curve.{Curve};
ghost use Rattle.gs_koetter.specs.Shapes.{AreCancelled, HasRoom, IsCancelled, IsEnded, IsPivot, at_place, better, slot};

use crate::curve::Curve;
use gf2m::{Field, Products, Steps};

/// Adds the factor times the source, which has only zeros from `len` on.
pub(crate) fn add_front<F: Field, P: Products>(
    target: &mut [F],
    source: &[F],
    len: usize,
    factor: F,
    prods: &mut Steps<P>,
)
    requires inside { len ≤ length source.now }
    requires room { length source.now ≡ length target.old }
    requires rest { (k : ℕ) → len ≤ k → coefficients F.ring source.now k ≡ F.ring.nil }
    ensures sum { IsSum F.ring factor source.now target.old target.new }
    ensures length { length target.new ≡ length target.old }
    ensures products { prods.new ≡ prods.old + len }
{
    F::add_multiple(&mut target[..len], &source[..len], factor, prods);
}

/// Adds the multiple of the pivot that makes the derivative at the place zero.
fn cancel<F: Field, P: Products>(
    curve: &mut Curve<F>,
    pivot: &Curve<F>,
    place: usize,
    inverse: F,
    prods: &mut Steps<P>,
)
    requires inside { place < length pivot.now.list.items }
    requires room { HasRoom F.ring pivot.now curve.old }
    requires ended { IsEnded F.ring pivot.now }
    ensures value { IsCancelled F.ring place inverse pivot.now curve.old curve.new }
    ensures products { prods.new ≤ prods.old + (1 + pivot.now.orders + pivot.now.len) }
{
    let value = curve.list[place];
    if value == F::zero() {
        return;
    }
    let factor = value.mul(inverse, prods);
    let end = pivot.orders + pivot.len;
    add_front(&mut curve.list, &pivot.list, end, factor, prods);
}

/// Makes the derivative at the place zero in each curve that is kept.
pub(crate) fn cancel_all<F: Field, P: Products>(
    curves: &mut [Option<Curve<F>>],
    pivot: &Curve<F>,
    place: usize,
    inverse: F,
    prods: &mut Steps<P>,
)
    requires inside { place < length pivot.now.list.items }
    requires room { (j : ℕ) (c : Curve F) → slot curves.old j ≡ Some c
        → HasRoom F.ring pivot.now c }
    requires ended { IsEnded F.ring pivot.now }
    ensures value { (j : ℕ) → AreCancelled F.ring place inverse pivot.now (slot curves.old j)
        (slot curves.new j) }
    ensures count { length curves.new ≡ length curves.old }
    ensures products { prods.new ≤ prods.old
        + length curves.old * (1 + pivot.now.orders + pivot.now.len) }
{
    'curves: for slot in curves.iter_mut() {
        if let Some(curve) = slot {
            cancel(curve, pivot, place, inverse, prods);
        }
    }
}

/// How long the curve is, where one is kept whose derivative at the place is not zero.
fn length_at<F: Field>(slot: &Option<Curve<F>>, place: usize) -> Option<usize>
    requires { (c : Curve F) → slot.now ≡ Some c → place < length c.list.items }
    ensures some { (n : ℕ) → result ≡ Some n
        → (c : Curve F) × (slot.now ≡ Some c) × (at_place F.ring place c ≢ F.ring.nil)
        × (n ≡ c.len) }
    ensures none { result ≡ None → (c : Curve F) → slot.now ≡ Some c
        → at_place F.ring place c ≡ F.ring.nil }
{
    match slot {
        Some(curve) => {
            if curve.list[place] == F::zero() {
                None
            } else {
                Some(curve.len)
            }
        }
        None => None,
    }
}

/// A curve that may become the pivot: where it stands, and how long it is.
#[derive(Clone, Copy)]
pub(crate) struct Candidate {
    pub(crate) place: usize,
    pub(crate) len: usize,
}

/// The shorter one of the curve so far and that at `place`, which has this length or is none.
fn better(best: Option<Candidate>, place: usize, length: Option<usize>) -> Option<Candidate>
    ensures { result ≡ better best place length }
{
    let Some(len) = length else {
        return best;
    };
    let Some(first) = best else {
        return Some(Candidate { place, len });
    };
    if len < first.len {
        Some(Candidate { place, len })
    } else {
        Some(first)
    }
}

/// Among the curves whose derivative at the place is not zero, one with the least leading term.
pub(crate) fn shortest<F: Field>(curves: &[Option<Curve<F>>], place: usize) -> Option<usize>
    requires { (j : ℕ) (c : Curve F) → slot curves.now j ≡ Some c → place < length c.list.items }
    ensures none { result ≡ None → (j : ℕ) (c : Curve F) → slot curves.now j ≡ Some c
        → at_place F.ring place c ≡ F.ring.nil }
    ensures some { (p : ℕ) → result ≡ Some p → IsPivot F.ring place curves.now p }
{
    let mut best = None;
    'curves: for j in 0..curves.len() {
        best = better(best, j, length_at(&curves[j], place));
    }
    Some(best?.place)
}
