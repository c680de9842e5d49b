//! Hasse derivatives.

ghost use Rattle.std.specs.Prelude.{◌≡◌, ℕ, ◌+◌, ◌<◌, ◌≤◌, if◌then◌else◌, length};
ghost use Rattle.std.specs.FinMap.{empty};
ghost use Rattle.algebra.specs.Binomials.{has_bits};
ghost use Rattle.algebra.specs.Bivariate.{hasse_derivative};
ghost use Rattle.algebra.specs.Lists.{coefficients};
ghost use Rattle.bi_poly.specs.Results.{row_total};
ghost use Rattle.bi_poly.specs.Rows.{derivative_sum};

use crate::bivariate::BiPoly;
use crate::row::Row;
use crate::rows::height;
use gf2m::{Field, Products, Steps};

impl<F: Field> BiPoly<F> {
    /// The Hasse derivative of order u in x and v in y, at x = a and y = b.
    pub fn hasse<P: Products>(&self, u: usize, v: usize, a: F, b: F, prods: &mut Steps<P>) -> F
        ensures value { result ≡ hasse_derivative F.ring self.now u v a b }
        // for each power of y up to the greatest, two more than the greatest power of x beside it
        ensures products { prods.new ≤ prods.old + row_total 2 self.now }
        ensures none { self.now ≡ empty → prods.new ≡ prods.old }
    {
        let height = height(&self.rows);
        let mut value = F::zero();
        'rows: for j in (v..height).rev() {
            let row = derivative_where_odd(&self.rows[j], u, a, j, v, prods);
            value = value.mul(b, prods).add(row);
        }
        value
    }
}

/// The row's derivative where the binomial of j over v is odd, and else zero.
fn derivative_where_odd<F: Field, P: Products>(
    row: &Row<F>,
    u: usize,
    a: F,
    j: usize,
    v: usize,
    prods: &mut Steps<P>,
) -> F
    ensures value { (n : ℕ) → ((i : ℕ) → n ≤ i → coefficients F.ring row.now i ≡ F.ring.nil) →
        result ≡ (if has_bits j v then derivative_sum F.ring n row.now u a else F.ring.nil) }
    ensures products { (d : ℕ) → ((i : ℕ) → d < i → coefficients F.ring row.now i ≡ F.ring.nil)
        → prods.new ≤ prods.old + (d + 1) }
{
    if j & v == v {
        derivative(row.trimmed(), u, a, prods)
    } else {
        F::zero()
    }
}

/// The Hasse derivative of order u at a of the polynomial in x with these coefficients.
fn derivative<F: Field, P: Products>(coefs: &[F], u: usize, a: F, prods: &mut Steps<P>) -> F
    ensures value { result ≡ derivative_sum F.ring (length coefs.now) coefs.now u a }
    ensures products { prods.new ≤ prods.old + length coefs.now }
{
    let mut value = F::zero();
    'coefficients: for i in (u..coefs.len()).rev() {
        value = value.mul(a, prods).add(where_odd(coefs[i], i, u));
    }
    value
}

/// The coefficient where the binomial of i over u is odd, and else zero.
fn where_odd<F: Field>(coef: F, i: usize, u: usize) -> F
    ensures { result ≡ (if has_bits i u then coef else F.ring.nil) }
{
    if i & u == u { coef } else { F::zero() }
}
