//! Conditions, one after the other.

ghost use Rattle.std.specs.Prelude.{◌≡◌, ◌≢◌, ℕ, suc, ◌+◌, ◌*◌, ◌<◌, ◌≤◌, length, None, IfSome};
ghost use Rattle.decoding_terms.specs.Parameters.{term_count};
ghost use Rattle.koetter_terms.specs.State.{Handled};
ghost use Rattle.gs_koetter.specs.Shapes.{HasShape, HaveShape, IsPivot, IsProduct, IsSpare, at_place};
ghost use Rattle.gs_koetter.specs.States.{IsState, step_products};

use crate::cancelling::{cancel_all, shortest};
use crate::curve::Curve;
use crate::frame::Frame;
use crate::raising::raise;
use gf2m::{Field, Products, Steps};

/// Makes the derivative of the order at this place zero in all curves at the point at hand, whose first coordinate is a.
pub(crate) fn handle<F: Field, P: Products>(
    curves: &mut [Option<Curve<F>>],
    spare: &mut Curve<F>,
    frame: &Frame,
    place: usize,
    a: F,
    prods: &mut Steps<P>,
)
    requires place { place < length frame.now.orders.terms.items }
    requires shape { HaveShape F.ring frame.now.terms.w frame.now.terms.e frame.now.orders.e
        curves.old }
    requires spare { IsSpare frame.now.terms.w frame.now.terms.e frame.now.orders.e spare.old }
    ensures count { length curves.new ≡ length curves.old }
    ensures shape { HaveShape F.ring frame.now.terms.w frame.now.terms.e frame.now.orders.e
        curves.new }
    ensures spare { IsSpare frame.now.terms.w frame.now.terms.e frame.now.orders.e spare.new }
    ensures state { (i handled : ℕ) (points : ℕ → F × F) (b : F) → points i ≡ (a, b)
        → IsState F.ring frame.now.terms.w frame.now.terms.e (length curves.old) frame.now.orders.e
        (Handled points frame.now.orders.e i place) a b handled curves.old
        → IsState F.ring frame.now.terms.w frame.now.terms.e (length curves.old) frame.now.orders.e
        (Handled points frame.now.orders.e i (suc place)) a b (suc handled) curves.new }
    ensures products { prods.new ≤ prods.old
        + step_products frame.now.terms.w frame.now.terms.e frame.now.orders.e (length curves.old) }
{
    let Some(p) = shortest(curves, place) else {
        return;
    };
    step(curves, spare, frame, p, place, a, prods);
}

/// The inverse of the curve's derivative at the place.
fn inverse_at<F: Field, P: Products>(curve: &Curve<F>, place: usize, prods: &mut Steps<P>) -> F
    requires inside { place < length curve.now.list.items }
    requires nonzero { at_place F.ring place curve.now ≢ F.ring.nil }
    ensures inverse { F.ring.times (at_place F.ring place curve.now) result ≡ F.ring.unit }
    ensures products { prods.new ≤ prods.old + 1 }
{
    curve.list[place].inv(prods).unwrap()
}

/// The curve times x + a, or none where that is too heavy.
fn multiplied<F: Field, P: Products>(
    mut curve: Curve<F>,
    spare: &mut Curve<F>,
    frame: &Frame,
    j: usize,
    a: F,
    prods: &mut Steps<P>,
) -> Option<Curve<F>>
    requires shape { HasShape F.ring frame.now.terms.w frame.now.terms.e frame.now.orders.e j curve }
    requires spare { IsSpare frame.now.terms.w frame.now.terms.e frame.now.orders.e spare.old }
    ensures product { IfSome result
        (λ new. IsProduct F.ring frame.now.terms.quotients.items frame.now.orders.quotients.items a
        curve new) }
    ensures shape { IfSome result
        (λ new. HasShape F.ring frame.now.terms.w frame.now.terms.e frame.now.orders.e j new) }
    ensures dropped { result ≡ None
        → frame.now.terms.e ≤ suc curve.exponent + frame.now.terms.w * j }
    ensures spare { IsSpare frame.now.terms.w frame.now.terms.e frame.now.orders.e spare.new }
    ensures products { prods.new ≤ prods.old + term_count frame.now.terms.w frame.now.terms.e }
{
    if curve.exponent + 1 + frame.terms.w * j < frame.terms.e {
        raise(&mut curve, spare, frame, j, a, prods);
        Some(curve)
    } else {
        None
    }
}

/// Makes the derivative of the order at this place zero, with the curve at `p` as the pivot.
fn step<F: Field, P: Products>(
    curves: &mut [Option<Curve<F>>],
    spare: &mut Curve<F>,
    frame: &Frame,
    p: usize,
    place: usize,
    a: F,
    prods: &mut Steps<P>,
)
    requires place { place < length frame.now.orders.terms.items }
    requires pivot { IsPivot F.ring place curves.old p }
    requires shape { HaveShape F.ring frame.now.terms.w frame.now.terms.e frame.now.orders.e
        curves.old }
    requires spare { IsSpare frame.now.terms.w frame.now.terms.e frame.now.orders.e spare.old }
    ensures count { length curves.new ≡ length curves.old }
    ensures shape { HaveShape F.ring frame.now.terms.w frame.now.terms.e frame.now.orders.e
        curves.new }
    ensures spare { IsSpare frame.now.terms.w frame.now.terms.e frame.now.orders.e spare.new }
    ensures state { (i handled : ℕ) (points : ℕ → F × F) (b : F) → points i ≡ (a, b)
        → IsState F.ring frame.now.terms.w frame.now.terms.e (length curves.old) frame.now.orders.e
        (Handled points frame.now.orders.e i place) a b handled curves.old
        → IsState F.ring frame.now.terms.w frame.now.terms.e (length curves.old) frame.now.orders.e
        (Handled points frame.now.orders.e i (suc place)) a b (suc handled) curves.new }
    ensures products { prods.new ≤ prods.old
        + step_products frame.now.terms.w frame.now.terms.e frame.now.orders.e (length curves.old) }
{
    let pivot = curves[p].take().unwrap();
    let inverse = inverse_at(&pivot, place, prods);
    cancel_all(curves, &pivot, place, inverse, prods);
    curves[p] = multiplied(pivot, spare, frame, p, a, prods);
}

/// Makes the derivatives of all orders zero in all curves at the point at hand.
pub(crate) fn handle_all<F: Field, P: Products>(
    curves: &mut [Option<Curve<F>>],
    spare: &mut Curve<F>,
    frame: &Frame,
    a: F,
    prods: &mut Steps<P>,
)
    requires shape { HaveShape F.ring frame.now.terms.w frame.now.terms.e frame.now.orders.e
        curves.old }
    requires spare { IsSpare frame.now.terms.w frame.now.terms.e frame.now.orders.e spare.old }
    ensures count { length curves.new ≡ length curves.old }
    ensures shape { HaveShape F.ring frame.now.terms.w frame.now.terms.e frame.now.orders.e
        curves.new }
    ensures spare { IsSpare frame.now.terms.w frame.now.terms.e frame.now.orders.e spare.new }
    ensures state { (i handled : ℕ) (points : ℕ → F × F) (b : F) → points i ≡ (a, b)
        → IsState F.ring frame.now.terms.w frame.now.terms.e (length curves.old) frame.now.orders.e
        (Handled points frame.now.orders.e i 0) a b handled curves.old
        → IsState F.ring frame.now.terms.w frame.now.terms.e (length curves.old) frame.now.orders.e
        (Handled points frame.now.orders.e i (term_count 1 frame.now.orders.e)) a b (handled
        + term_count 1 frame.now.orders.e) curves.new }
    ensures products { prods.new ≤ prods.old
        + term_count 1 frame.now.orders.e * step_products frame.now.terms.w frame.now.terms.e
        frame.now.orders.e (length curves.old) }
{
    'orders: for place in 0..frame.orders.terms.len() {
        handle(curves, spare, frame, place, a, prods);
    }
}
