//! All conditions at all points.

ghost use Rattle.std.specs.Prelude.{◌≡◌, ℕ, ◌+◌, ◌*◌, ◌≤◌, length, Some};
ghost use Rattle.decoding_terms.specs.Parameters.{term_count};
ghost use Rattle.koetter_terms.specs.State.{Handled};
ghost use Rattle.gs_koetter.specs.declared.curve.Curve.{Curve};
ghost use Rattle.gs_koetter.specs.Shapes.{HaveShape, IsEnded, IsSpare, slot};
ghost use Rattle.gs_koetter.specs.States.{AreDerived, IsBare, IsDerived, IsScratch, derive_products, point_at, point_products};

use crate::conditions::handle_all;
use crate::curve::Curve;
use crate::derivatives::{lay_out, pick_front};
use crate::expanding::{expand, fill_squares};
use crate::frame::Frame;
use crate::raising::shift;
use gf2m::{Field, Products, Steps};

/// Room for the squares of a point's coordinates, for the table of a curve, and for its derivatives turned.
#[derive(Drop)]
pub(crate) struct Scratch<F> {
    pub(crate) xs: Vec<F>,
    pub(crate) ys: Vec<F>,
    pub(crate) table: Vec<F>,
    pub(crate) turned: Vec<F>,
}

/// Puts in the curve's derivatives at the point to whose coordinates the squares in `scratch` belong.
fn derive<F: Field, P: Products>(
    curve: &mut Curve<F>,
    scratch: &mut Scratch<F>,
    frame: &Frame,
    prods: &mut Steps<P>,
)
    requires curve { IsSpare frame.now.terms.w frame.now.terms.e frame.now.orders.e curve.old }
    requires ended { IsEnded F.ring curve.old }
    requires scratch { IsScratch frame.now scratch.old }
    ensures value { IsDerived F.ring frame.now.terms.w frame.now.terms.e frame.now.width
        frame.now.orders.e scratch.old.xs.items scratch.old.ys.items curve.old curve.new }
    ensures scratch { IsScratch frame.now scratch.new }
    ensures xs { scratch.new.xs.items ≡ scratch.old.xs.items }
    ensures ys { scratch.new.ys.items ≡ scratch.old.ys.items }
    ensures products { prods.new ≤ prods.old
        + derive_products frame.now.terms.e frame.now.width frame.now.orders.e }
{
    let side = frame.orders.e;
    let table = scratch.table.as_mut_slice();
    let end = curve.orders + curve.len;
    lay_out(table, &curve.list[curve.orders..end], frame);
    expand(table, &scratch.xs, frame.xs.span, side * frame.width, prods);
    let turned = scratch.turned.as_mut_slice();
    shift(turned, table, &frame.turns);
    expand(turned, &scratch.ys, frame.ys.span, side * side, prods);
    pick_front(&mut curve.list, turned, &frame.orders);
}

/// Puts in the derivatives of all curves.
fn derive_all<F: Field, P: Products>(
    curves: &mut [Option<Curve<F>>],
    scratch: &mut Scratch<F>,
    frame: &Frame,
    prods: &mut Steps<P>,
)
    requires shape { (j : ℕ) (c : Curve F) → slot curves.old j ≡ Some c
        → IsSpare frame.now.terms.w frame.now.terms.e frame.now.orders.e c }
    requires ended { (j : ℕ) (c : Curve F) → slot curves.old j ≡ Some c → IsEnded F.ring c }
    requires scratch { IsScratch frame.now scratch.old }
    ensures value { (j : ℕ) → AreDerived F.ring frame.now.terms.w frame.now.terms.e frame.now.width
        frame.now.orders.e scratch.old.xs.items scratch.old.ys.items (slot curves.old j)
        (slot curves.new j) }
    ensures count { length curves.new ≡ length curves.old }
    ensures scratch { IsScratch frame.now scratch.new }
    ensures products { prods.new ≤ prods.old
        + length curves.old * derive_products frame.now.terms.e frame.now.width frame.now.orders.e }
{
    'curves: for slot in curves.iter_mut() {
        if let Some(curve) = slot {
            derive(curve, scratch, frame, prods);
        }
    }
}

/// Makes the derivatives of all orders at the point zero.
fn handle_point<F: Field, P: Products>(
    curves: &mut [Option<Curve<F>>],
    spare: &mut Curve<F>,
    scratch: &mut Scratch<F>,
    frame: &Frame,
    point: (F, F),
    prods: &mut Steps<P>,
)
    requires shape { HaveShape F.ring frame.now.terms.w frame.now.terms.e frame.now.orders.e
        curves.old }
    requires count { length curves.old ≡ frame.now.width }
    requires spare { IsSpare frame.now.terms.w frame.now.terms.e frame.now.orders.e spare.old }
    requires scratch { IsScratch frame.now scratch.old }
    ensures shape { HaveShape F.ring frame.now.terms.w frame.now.terms.e frame.now.orders.e
        curves.new }
    ensures count { length curves.new ≡ length curves.old }
    ensures spare { IsSpare frame.now.terms.w frame.now.terms.e frame.now.orders.e spare.new }
    ensures scratch { IsScratch frame.now scratch.new }
    ensures state { (i handled : ℕ) (points : ℕ → F × F) → points i ≡ point
        → IsBare F.ring frame.now.terms.w frame.now.terms.e frame.now.width
        (Handled points frame.now.orders.e i 0) handled curves.old
        → IsBare F.ring frame.now.terms.w frame.now.terms.e frame.now.width
        (Handled points frame.now.orders.e (i + 1) 0) (handled
        + term_count 1 frame.now.orders.e) curves.new }
    ensures products { prods.new ≤ prods.old
        + point_products frame.now.terms.w frame.now.terms.e frame.now.width frame.now.orders.e }
{
    fill_squares(&mut scratch.xs, point.0, prods);
    fill_squares(&mut scratch.ys, point.1, prods);
    derive_all(curves, scratch, frame, prods);
    handle_all(curves, spare, frame, point.0, prods);
}

/// Makes the derivatives of all orders at all points zero.
pub(crate) fn handle_points<F: Field, P: Products>(
    curves: &mut [Option<Curve<F>>],
    spare: &mut Curve<F>,
    scratch: &mut Scratch<F>,
    frame: &Frame,
    points: &[(F, F)],
    prods: &mut Steps<P>,
)
    requires shape { HaveShape F.ring frame.now.terms.w frame.now.terms.e frame.now.orders.e
        curves.old }
    requires count { length curves.old ≡ frame.now.width }
    requires spare { IsSpare frame.now.terms.w frame.now.terms.e frame.now.orders.e spare.old }
    requires scratch { IsScratch frame.now scratch.old }
    requires state { IsBare F.ring frame.now.terms.w frame.now.terms.e frame.now.width
        (Handled (point_at F.ring points.now) frame.now.orders.e 0 0) 0 curves.old }
    ensures shape { HaveShape F.ring frame.now.terms.w frame.now.terms.e frame.now.orders.e
        curves.new }
    ensures count { length curves.new ≡ length curves.old }
    ensures state { IsBare F.ring frame.now.terms.w frame.now.terms.e frame.now.width
        (Handled (point_at F.ring points.now) frame.now.orders.e (length points.now) 0)
        (length points.now * term_count 1 frame.now.orders.e) curves.new }
    ensures products { prods.new ≤ prods.old
        + length points.now * point_products frame.now.terms.w frame.now.terms.e frame.now.width
        frame.now.orders.e }
{
    'points: for i in 0..points.len() {
        handle_point(curves, spare, scratch, frame, points[i], prods);
    }
}
