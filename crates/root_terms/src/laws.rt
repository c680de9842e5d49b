//! What holds of y-roots whatever finds them.

ghost use Rattle.std.specs.Prelude.{◌≡◌, ℕ, ◌+◌, ◌*◌, ◌<◌, ◌≤◌, List, IsPermutation, map};
ghost use Rattle.std.specs.List.Sorted.{IsNonDecreasingBy};
ghost use Rattle.algebra.specs.Bivariate.{Bivariate, coefficient, greatest, shift_of, y_power};
ghost use Rattle.algebra.specs.Lists.{coefficients};
ghost use Rattle.algebra.specs.Ring.{Ring};
ghost use Rattle.algebra.specs.Series.{value};
ghost use Rattle.root_terms.specs.Branches.{at_zero, search_bound};
ghost use Rattle.root_terms.specs.Entries.{AreNumbered};
ghost use Rattle.root_terms.specs.YRoots.{AreYRootLists, AreYRoots, IsYRoot, led_by, number_of};

/// The first coefficients of y-roots, and the others.
pub fn laws_of_constants<F>()
    // the constant of a y-root is a root of Q(0, y)
    ensures first { (ring : Ring F) (q : Bivariate F) (f : ℕ → F) → IsYRoot ring q f
        → value ring (greatest y_power q + 1) (at_zero ring q) (f 0) ≡ ring.nil }
    // the rest of one with the constant g is a y-root of Q(x, x y + g)
    ensures rest { (ring : Ring F) (q shifted : Bivariate F) (g : F)
        → ((i j : ℕ) → coefficient ring shifted i j ≡ shift_of ring q g i j)
        → (f : ℕ → F) → IsYRoot ring q (led_by g f) → IsYRoot ring shifted f }
{}

/// Digits below the size of their system, of which only that of zero is 0.
pub fn laws_of_numbers<F>()
    // the same number, the same coefficients
    ensures { (ring : Ring F) (digit : F → ℕ) (size : ℕ) → digit ring.nil ≡ 0
        → ((x y : F) → digit x ≡ digit y → x ≡ y)
        → ((x : F) → digit x < size) → (xs ys : List F)
        → number_of digit size xs ≡ number_of digit size ys
        → (i : ℕ) → coefficients ring xs i ≡ coefficients ring ys i }
{}

/// Entries with all y-roots, sorted by their numbers.
pub fn laws_of_orders<F, X>()
    ensures { (ring : Ring F) (digit : F → ℕ) (size : ℕ) → digit ring.nil ≡ 0
        → ((x y : F) → digit x ≡ digit y → x ≡ y)
        → ((x : F) → digit x < size) → (number : X → ℕ) (root : X
        → List F) (q : Bivariate F) (k : ℕ)
        (lists : List (List F)) (entries sorted : List X) → AreYRootLists ring q k lists
        → AreNumbered ring digit size number root lists entries → IsPermutation entries sorted
        → IsNonDecreasingBy number sorted → AreYRoots ring digit size q k (map root sorted) }
{}

/// The products of a whole search, where d is the greatest power of y.
pub fn laws_of_bounds()
    ensures { (k d e : ℕ) → 1 ≤ k
        → search_bound k d (d + 1) e ≤ k * ((d + 1) * (d + 1) * (256 + e * (d + 1))) }
{}
