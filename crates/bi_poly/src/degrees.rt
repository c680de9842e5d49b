//! Degrees.

ghost use Rattle.std.specs.Prelude.{◌≡◌, ◌≢◌, ◌⊎◌, ◌↔◌, ℕ, ◌+◌, ◌*◌, ◌<◌, ◌≤◌, length, IsNone, IfSome};
ghost use Rattle.std.specs.FinMap.{empty};
ghost use Rattle.algebra.specs.Bivariate.{greatest, weight_by, x_power, y_power};
ghost use Rattle.algebra.specs.Lists.{coefficients};

use crate::bivariate::BiPoly;
use crate::row::Row;
use crate::rows::height;
use gf2m::Field;

impl<F: Field> BiPoly<F> {
    /// The greatest power of y; none for the zero polynomial.
    pub fn y_degree(&self) -> Option<usize>
        ensures none { IsNone result ↔ (self.now ≡ empty) }
        ensures some { IfSome result (λ d. d ≡ greatest y_power self.now) }
    {
        height(&self.rows).checked_sub(1)
    }

    /// The greatest power of x; none for the zero polynomial.
    pub fn x_degree(&self) -> Option<usize>
        ensures none { IsNone result ↔ (self.now ≡ empty) }
        ensures some { IfSome result (λ d. d ≡ greatest x_power self.now) }
    {
        self.weighted_degree(0)
    }

    /// The greatest i + w j of the terms x^i y^j; none for the zero polynomial.
    pub fn weighted_degree(&self, w: usize) -> Option<usize>
        requires { w ≤ 12 }
        ensures none { IsNone result ↔ (self.now ≡ empty) }
        ensures some { IfSome result (λ d. d ≡ greatest (weight_by w) self.now) }
    {
        let height = height(&self.rows);
        let mut greatest = 0;
        'rows: for j in 0..height {
            greatest = greatest.max(heaviest(&self.rows[j], w, j));
        }
        if height == 0 { None } else { Some(greatest) }
    }
}

/// The greatest i + w j of the powers x^i that stand in the row of y^j; 0 where there are none.
fn heaviest<F: Field>(row: &Row<F>, w: usize, j: usize) -> usize
    requires x { (i : ℕ) → 65536 ≤ i → coefficients F.ring row.now i ≡ F.ring.nil }
    requires y { (i : ℕ) → 4096 ≤ j → coefficients F.ring row.now i ≡ F.ring.nil }
    requires w { w ≤ 12 }
    ensures most { (i : ℕ) → coefficients F.ring row.now i ≢ F.ring.nil → i + w * j ≤ result }
    ensures reached { (result ≡ 0)
        ⊎ ((i : ℕ) × (coefficients F.ring row.now i ≢ F.ring.nil) × (result ≡ i + w * j)) }
{
    match row.trimmed().len().checked_sub(1) {
        Some(last) => last + w * j,
        None => 0,
    }
}
