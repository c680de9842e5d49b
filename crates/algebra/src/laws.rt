//! The laws of rings, fields and polynomials that the other crates rest on, each as the contract of a function that does nothing.

ghost use Rattle.std.specs.Prelude.{◌≡◌, ◌≢◌, ◌↔◌, ℕ, ◌+◌, ◌%◌, ◌<◌, ◌≤◌, IsTrue, List};
ghost use Rattle.algebra.specs.Binomials.{binomial, has_bits};
ghost use Rattle.algebra.specs.Bivariate.{Bivariate, HasMultiplicity, IsWithin, coefficient, hasse_derivative, shift_of, substituted};
ghost use Rattle.algebra.specs.Lists.{IsListOf};
ghost use Rattle.algebra.specs.Ring.{IsField, Ring};
ghost use Rattle.algebra.specs.Roots.{AreDifferent, HasRoot, total};
ghost use Rattle.algebra.specs.Series.{IsBelow, constant, linear, linear_power, product, value};
ghost use Rattle.algebra.specs.Sums.{sum_below};

/// A product in a field is zero only where a factor is.
pub fn no_divisors_of_zero<F>()
    ensures { (ring : Ring F) → IsField ring → (x y : F) → x ≢ ring.nil → ring.times x y ≡ ring.nil
        → y ≡ ring.nil }
{}

/// Sums over ranges.
pub fn laws_of_sums<F>()
    ensures split { (ring : Ring F) (n : ℕ) (f g : ℕ → F)
        → sum_below ring n (λ i. ring.plus (f i) (g i))
        ≡ ring.plus (sum_below ring n f) (sum_below ring n g) }
    ensures scale { (ring : Ring F) (n : ℕ) (x : F) (f : ℕ → F)
        → sum_below ring n (λ i. ring.times x (f i)) ≡ ring.times x (sum_below ring n f) }
    ensures exchange { (ring : Ring F) (m n : ℕ) (f : ℕ → ℕ → F)
        → sum_below ring m (λ i. sum_below ring n (λ j. f i j))
        ≡ sum_below ring n (λ j. sum_below ring m (λ i. f i j)) }
{}

/// The products of polynomials.
pub fn laws_of_products<F>()
    ensures commute { (ring : Ring F) (p q : ℕ → F) (n : ℕ)
        → product ring p q n ≡ product ring q p n }
    ensures associate { (ring : Ring F) (p q r : ℕ → F) (n : ℕ)
        → product ring (product ring p q) r n ≡ product ring p (product ring q r) n }
    ensures distribute { (ring : Ring F) (p q r : ℕ → F) (n : ℕ)
        → product ring p (λ k. ring.plus (q k) (r k)) n
        ≡ ring.plus (product ring p q n) (product ring p r n) }
    ensures degree { (ring : Ring F) (d e : ℕ) (p q : ℕ → F) → IsBelow ring d p
        → IsBelow ring (e + 1) q → IsBelow ring (d + e) (product ring p q) }
{}

/// The values of sums and products of polynomials, of which p has d coefficients and q has e.
pub fn laws_of_values<F>()
    ensures add { (ring : Ring F) (d : ℕ) (p q : ℕ → F) (x : F)
        → value ring d (λ k. ring.plus (p k) (q k)) x
        ≡ ring.plus (value ring d p x) (value ring d q x) }
    ensures multiply { (ring : Ring F) (d e : ℕ) (p q : ℕ → F) (x : F) → IsBelow ring d p
        → IsBelow ring e q → value ring (d + e) (product ring p q) x
        ≡ ring.times (value ring d p x) (value ring e q x) }
{}

/// A polynomial with d + 1 coefficients, divided by x + a: one quotient with d coefficients, and the value at a is the rest.
pub fn laws_of_division<F>()
    ensures quotient { (ring : Ring F) (d : ℕ) (p : ℕ → F) (a : F) → IsBelow ring (d + 1) p
        → (q : ℕ → F) × IsBelow ring d q × ((k : ℕ)
        → p k ≡ ring.plus (product ring (linear ring a) q k)
        (constant ring (value ring (d + 1) p a) k)) }
    ensures root { (ring : Ring F) (d : ℕ) (p : ℕ → F) (a : F) → IsBelow ring d p
        → HasRoot ring 1 p a ↔ (value ring d p a ≡ ring.nil) }
{}

/// How many roots a polynomial has.
pub fn laws_of_roots<F>()
    // counted with multiplicity, no more than the degree
    ensures few { (ring : Ring F) → IsField ring
        → (d n : ℕ) (m : ℕ → ℕ) (points : ℕ → F) (p : ℕ → F) → IsBelow ring (d + 1) p
        → p d ≢ ring.nil → AreDifferent n points
        → ((i : ℕ) → i < n → HasRoot ring (m i) p (points i)) → total n m ≤ d }
    // a polynomial with n coefficients and n different roots is zero
    ensures zero { (ring : Ring F) → IsField ring → (n : ℕ) (points : ℕ → F) (p : ℕ → F)
        → IsBelow ring n p → AreDifferent n points
        → ((i : ℕ) → i < n → value ring n p (points i) ≡ ring.nil) → IsBelow ring 0 p }
{}

/// A polynomial has only one list of coefficients without zeros at its end.
pub fn laws_of_lists<F>()
    ensures { (ring : Ring F) (p : ℕ → F) (xs ys : List F) → IsListOf ring p xs
        → IsListOf ring p ys → xs ≡ ys }
{}

/// Binomials modulo two.
pub fn laws_of_binomials()
    // a binomial is odd exactly where each bit of the lower number is one of the upper
    ensures { (i u : ℕ) → IsTrue (has_bits i u) ↔ (binomial i u % 2 ≡ 1) }
{}

/// Hasse derivatives of polynomials in two variables.
pub fn laws_of_derivatives<F>()
    // a polynomial is the sum of its derivatives at (a, b) times powers of x + a and y + b
    ensures expansion { (ring : Ring F) (m d : ℕ) (q : Bivariate F) (a b : F) → IsWithin m d q
        → (i j : ℕ) →
        coefficient ring q i j
        ≡ sum_below ring m
        (λ u. sum_below ring d (λ v. ring.times (hasse_derivative ring q u v a b) (ring.times (linear_power ring a u i) (linear_power ring b v j)))) }
    // where Q has multiplicity at least s at (a, f(a)), (x + a)^s divides Q(x, f(x))
    ensures division { (ring : Ring F) → IsField ring
        → (q : Bivariate F) (n s : ℕ) (f : ℕ → F) (a : F) → IsBelow ring n f
        → HasMultiplicity ring s q a (value ring n f a) → HasRoot ring s (substituted ring q f) a }
{}

/// What stands for Q(x, x y + g) gives at y = f(x) what Q gives at y = x f(x) + g.
pub fn laws_of_shifts<F>()
    ensures { (ring : Ring F) (q shifted : Bivariate F) (g : F)
        → ((i j : ℕ) → coefficient ring shifted i j ≡ shift_of ring q g i j)
        → (f : ℕ → F) (k : ℕ) → substituted ring shifted f k
        ≡ substituted ring q (λ i. ring.plus (product ring (linear ring ring.nil) f i)
        (constant ring g i)) k }
{}
