//! Division by the greatest power of x.

ghost use Rattle.std.specs.Prelude.{◌≡◌, ◌≢◌, ℕ, ◌+◌, ◌<◌, ◌≤◌, length};
ghost use Rattle.std.specs.FinMap.{empty};
ghost use Rattle.algebra.specs.Bivariate.{IsProper};
ghost use Rattle.algebra.specs.Lists.{coefficients};
ghost use Rattle.bi_poly.specs.Results.{IsPowerOfX, IsStripped};
ghost use Rattle.bi_poly.specs.Rows.{cell};

use crate::bivariate::BiPoly;
use crate::row::Row;
use gf2m::Field;

// No power of x is so great.
const NO_POWER: usize = 65_536;

impl<F: Field> BiPoly<F> {
    /// Divides by the greatest power of x that divides the polynomial, and answers the power.
    pub fn strip_x(&mut self) -> usize
        requires { self.old ≢ empty }
        ensures proper { IsProper F.ring self.old }
        ensures power { IsPowerOfX result self.old }
        ensures divided { IsStripped result self.old self.new }
    {
        let power = least_power(&self.rows);
        drop_powers(&mut self.rows, power);
        power
    }
}

/// The least power of x with a coefficient that is not zero, or 65,536 where there is none before it.
fn least_power<F: Field>(rows: &[Row<F>]) -> usize
    ensures zeros { (i j : ℕ) → i < result → cell F.ring rows.now i j ≡ F.ring.nil }
    ensures reached { result < 65536 → (j : ℕ) × (cell F.ring rows.now result j ≢ F.ring.nil) }
{
    let mut least = NO_POWER;
    'rows: for j in 0..rows.len() {
        least = first_power(rows[j].as_slice(), least);
    }
    least
}

/// The first power of x before the bound with a coefficient that is not zero, or else the bound.
fn first_power<F: Field>(coefs: &[F], bound: usize) -> usize
    ensures within { result ≤ bound }
    ensures zeros { (i : ℕ) → i < result → coefficients F.ring coefs.now i ≡ F.ring.nil }
    ensures reached { result < bound → coefficients F.ring coefs.now result ≢ F.ring.nil }
{
    'coefficients: for i in 0..bound.min(coefs.len()) {
        if coefs[i] != F::zero() {
            return i;
        }
    }
    bound
}

/// Drops the coefficients of the first powers of x.
fn drop_powers<F: Field>(rows: &mut Vec<Row<F>>, count: usize)
    ensures { (i j : ℕ) → cell F.ring rows.new.items i j
        ≡ cell F.ring rows.old.items (i + count) j }
{
    'rows: for j in 0..rows.len() {
        let present = count.min(rows[j].as_slice().len());
        rows[j].drop_first(present);
    }
}
