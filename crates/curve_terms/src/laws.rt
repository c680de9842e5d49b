//! The laws of curves and agreement, each as the contract of a function that does nothing.

ghost use Rattle.std.specs.Prelude.{◌≡◌, ℕ, ◌+◌, ◌*◌, ◌<◌, ◌≤◌, Bool, true, if◌then◌else◌};
ghost use Rattle.algebra.specs.Bivariate.{Bivariate, HasMultiplicity, greatest, substituted, weight_by};
ghost use Rattle.algebra.specs.Ring.{IsField, Ring};
ghost use Rattle.algebra.specs.Roots.{AreDifferent, total};
ghost use Rattle.algebra.specs.Series.{IsBelow, value};
ghost use Rattle.curve_terms.specs.Agreement.{GoesThrough};

/// Agreement makes a root: where Q(x, y) is zero with multiplicity at least s at each of r different points, and all of its
/// terms weigh less than e ≤ s t, then Q(x, f(x)) is zero for each polynomial f of degree at most w that goes through t of
/// the points. Points may share a coordinate.
pub fn agreement_makes_a_root<F>()
    ensures { (ring : Ring F) → IsField ring
        → (q : Bivariate F) (f : ℕ → F) (points : ℕ → F × F) (r w e s t : ℕ)
        → greatest (weight_by w) q < e → e ≤ s * t → AreDifferent r points
        → ((i : ℕ) → i < r → HasMultiplicity ring s q (points i).0 (points i).1)
        → IsBelow ring (w + 1) f → GoesThrough ring (w + 1) f r points t
        → (k : ℕ) → substituted ring q f k ≡ ring.nil }
{}

/// Where a test that only points on f pass is passed by at least t of r points, f goes through t different ones of them.
pub fn counted_agreement<F>()
    ensures { (ring : Ring F) (n r t : ℕ) (f : ℕ → F) (points : ℕ → F × F) (passes : ℕ → Bool)
        → ((i : ℕ) → i < r → passes i ≡ true → value ring n f (points i).0 ≡ (points i).1)
        → t ≤ total r (λ i. if passes i then 1 else 0) → GoesThrough ring n f r points t }
{}
