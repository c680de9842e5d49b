//! The two steps of the search: the shift by a constant, and the division by powers of x.

ghost use Rattle.std.specs.Prelude.{◌≡◌, ◌≢◌, ℕ, ◌+◌, ◌<◌, ◌≤◌, ◌↔◌, IfOk, IsTrue};
ghost use Rattle.std.specs.FinMap.{empty};
ghost use Rattle.algebra.specs.Bivariate.{coefficient, greatest, x_power, y_power};
ghost use Rattle.algebra.specs.Series.{value};
ghost use Rattle.bi_poly.specs.Results.{shift_bound};
ghost use Rattle.root_terms.specs.Branches.{IsBranch, IsReduced, IsReduction, at_zero};

use bi_poly::BiPoly;
use gf2m::{Field, Products, Steps};
use lists::Memory;

/// What is left of Q(x, c + x y), for a root c of Q(0, y), when the greatest power of x is divided out.
/// The only error is want of memory.
pub fn branch<F: Field, P: Products>(
    q: &BiPoly<F>,
    constant: F,
    prods: &mut Steps<P>,
) -> Result<BiPoly<F>, Memory>
    requires reduced { IsReduced F.ring q.now }
    requires root { value F.ring (greatest y_power q.now + 1) (at_zero F.ring q.now) constant
        ≡ F.ring.nil }
    requires room { greatest x_power q.now + greatest y_power q.now < 65536 }
    ensures branch { IfOk result (λ child. IsBranch F.ring q.now constant child) }
    ensures products { prods.new ≤ prods.old + shift_bound q.now }
{
    let mut child = q.shift(constant, prods)?;
    child.strip_x();
    Ok(child)
}

/// A copy without the powers of x that divide the polynomial. The only error is want of memory.
pub fn reduction<F: Field>(q: &BiPoly<F>) -> Result<BiPoly<F>, Memory>
    requires { q.now ≢ empty }
    ensures { IfOk result (λ curve. IsReduction F.ring q.now curve) }
{
    let mut curve = q.copy()?;
    curve.strip_x();
    Ok(curve)
}

/// Whether Q(x, 0) is zero.
pub fn vanishes_at_zero<F: Field>(q: &BiPoly<F>) -> bool
    requires { greatest x_power q.now < 65536 }
    ensures { IsTrue result ↔ ((i : ℕ) → coefficient F.ring q.now i 0 ≡ F.ring.nil) }
{
    match q.x_degree() {
        Some(degree) => vanishes_below(q, degree + 1),
        None => true,
    }
}

/// Whether the first coefficients of Q(x, 0) are zero.
fn vanishes_below<F: Field>(q: &BiPoly<F>, count: usize) -> bool
    ensures { IsTrue result ↔ ((i : ℕ) → i < count → coefficient F.ring q.now i 0 ≡ F.ring.nil) }
{
    'powers: for i in 0..count {
        if q.coef(i, 0) != F::zero() {
            return false;
        }
    }
    true
}
