//! From finite maps to their coefficients, and what a shift makes of the degrees.

ghost use Rattle.std.specs.Prelude.{◌≡◌, ℕ, ◌+◌, ◌≤◌};
ghost use Rattle.algebra.specs.Bivariate.{Bivariate, coefficient, greatest, shift_of, weight_by, x_power, y_power};
ghost use Rattle.bi_poly.specs.Results.{IsMapOf};

use gf2m::Field;

/// The map of some coefficients has these coefficients.
pub fn laws_of_maps<F: Field>()
    ensures { (p : ℕ → ℕ → F) (q : Bivariate F) → IsMapOf F.number p q → (i j : ℕ)
        → coefficient F.ring q i j ≡ p i j }
{}

/// The degrees of Q(x, x y + g) by those of Q.
pub fn degrees_of_shifts<F: Field>()
    ensures x { (q shifted : Bivariate F) (g : F) → IsMapOf F.number (shift_of F.ring q g) shifted
        → greatest x_power shifted ≤ greatest x_power q + greatest y_power q }
    ensures y { (q shifted : Bivariate F) (g : F) → IsMapOf F.number (shift_of F.ring q g) shifted
        → greatest y_power shifted ≤ greatest y_power q }
    ensures weight { (q shifted : Bivariate F) (g : F)
        → IsMapOf F.number (shift_of F.ring q g) shifted
        → (w : ℕ) → greatest (weight_by w) shifted ≤ greatest (weight_by (w + 1)) q }
{}
