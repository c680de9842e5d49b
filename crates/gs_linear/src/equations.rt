//! The linear system of a curve.

ghost use Rattle.std.specs.Prelude.{◌≡◌, ℕ, ◌+◌, ◌*◌, ◌<◌, ◌≤◌, [], length, map, IfOk, OnOk};
ghost use Rattle.bi_poly.specs.Rows.{ArePowers};
ghost use Rattle.gs_linear.specs.Equations.{HaveEquations, IsEquation};
ghost use Rattle.term_lists.specs.Extended.{IsExtended};
ghost use Rattle.term_lists.specs.Places.{exponents_at};

use gf2m::{Field, Products, Steps};
use std::alloc::{AllocError, Global};
use term_lists::{Exponents, power_derivative, powers};

/// The rows of all points. All exponents are below e.
pub(crate) fn equations<F: Field, P: Products>(
    alloc: Global,
    terms: &[Exponents],
    orders: &[Exponents],
    e: usize,
    points: &[(F, F)],
    prods: &mut Steps<P>,
) -> Result<Vec<Vec<F>>, AllocError>
    requires x { (k : ℕ) → k < length terms.now → (exponents_at terms.now k).x < e }
    requires y { (k : ℕ) → k < length terms.now → (exponents_at terms.now k).y < e }
    ensures rows { IfOk result (λ rows.
        HaveEquations F.ring terms.now orders.now points.now (length points.now) (map (λ row. row.items) rows.items)) }
    ensures products { prods.new ≤ prods.old
        + length points.now * (2 * e + length orders.now * length terms.now) }
{
    let mut rows = Vec::new(alloc);
    'points: for (_index, point) in points.iter().enumerate() {
        add_equations(&mut rows, alloc, terms, orders, e, *point, prods)?;
    }
    Ok(rows)
}

/// Adds the rows of one point.
fn add_equations<F: Field, P: Products>(
    rows: &mut Vec<Vec<F>>,
    alloc: Global,
    terms: &[Exponents],
    orders: &[Exponents],
    e: usize,
    point: (F, F),
    prods: &mut Steps<P>,
) -> Result<(), AllocError>
    requires x { (k : ℕ) → k < length terms.now → (exponents_at terms.now k).x < e }
    requires y { (k : ℕ) → k < length terms.now → (exponents_at terms.now k).y < e }
    ensures added { OnOk result (IsExtended
        (λ o row. IsEquation F.ring terms.now point.0 point.1 (exponents_at orders.now o) row)
        []
        (map (λ row. row.items) rows.old.items)
        (length orders.now)
        (map (λ row. row.items) rows.new.items)) }
    ensures products { prods.new ≤ prods.old + (2 * e + length orders.now * length terms.now) }
{
    let xs = powers(alloc, point.0, e, prods)?;
    let ys = powers(alloc, point.1, e, prods)?;
    'orders: for (_index, order) in orders.iter().enumerate() {
        rows.push(equation(alloc, terms, *order, &xs, &ys, prods)?)?;
    }
    Ok(())
}

/// The row of one order at the point to whose coordinates these powers belong.
fn equation<F: Field, P: Products>(
    alloc: Global,
    terms: &[Exponents],
    order: Exponents,
    xs: &[F],
    ys: &[F],
    prods: &mut Steps<P>,
) -> Result<Vec<F>, AllocError>
    requires x { (k : ℕ) → k < length terms.now → (exponents_at terms.now k).x < length xs.now }
    requires y { (k : ℕ) → k < length terms.now → (exponents_at terms.now k).y < length ys.now }
    ensures row { IfOk result (λ row. (a b : F) → ArePowers F.ring a xs.now
        → ArePowers F.ring b ys.now
        → IsEquation F.ring terms.now a b order row.items) }
    ensures products { prods.new ≤ prods.old + length terms.now }
{
    let mut row = Vec::with_capacity(alloc, terms.len())?;
    'terms: for (_index, term) in terms.iter().enumerate() {
        let x = power_derivative(xs, term.x, order.x);
        let y = power_derivative(ys, term.y, order.y);
        row.push(x.mul(y, prods))?;
    }
    Ok(row)
}
