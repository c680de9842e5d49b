//! The laws, each as the contract of a function that does nothing.

ghost use Rattle.std.specs.Prelude.{◌≡◌, ℕ, suc, ◌≤◌};
ghost use Rattle.algebra.specs.Ring.{Ring};
ghost use Rattle.algebra.specs.Series.{IsBelow};
ghost use Rattle.koetter_terms.specs.Derivatives.{derivative_at, plus_multiple, times_linear};
ghost use Rattle.term_lists.specs.Places.{place};

/// How the derivatives of a curve at (a, b) change in a step: with a multiple of another curve they change by the same
/// multiple, and of (x + c) q, where both have no power of x from m on, they are those of q with c + a, and one order lower.
pub fn laws_of_steps<F>()
    ensures sum { (ring : Ring F) (m n : ℕ) (x : F) (q p : ℕ → ℕ → F) (a b : F) (u v : ℕ) →
        derivative_at ring m n (plus_multiple ring q x p) a b u v
        ≡ ring.plus (derivative_at ring m n q a b u v)
        (ring.times x (derivative_at ring m n p a b u v)) }
    ensures first { (ring : Ring F) (m n : ℕ) (c : F) (q : ℕ → ℕ → F)
        → ((j : ℕ) → IsBelow ring m (λ i. q i j))
        → ((j : ℕ) → IsBelow ring m (λ i. times_linear ring c q i j)) → (a b : F) (v : ℕ) →
        derivative_at ring m n (times_linear ring c q) a b 0 v
        ≡ ring.times (ring.plus c a) (derivative_at ring m n q a b 0 v) }
    ensures next { (ring : Ring F) (m n : ℕ) (c : F) (q : ℕ → ℕ → F)
        → ((j : ℕ) → IsBelow ring m (λ i. q i j))
        → ((j : ℕ) → IsBelow ring m (λ i. times_linear ring c q i j)) → (a b : F) (u v : ℕ) →
        derivative_at ring m n (times_linear ring c q) a b (suc u) v
        ≡ ring.plus (derivative_at ring m n q a b u v)
        (ring.times (ring.plus c a) (derivative_at ring m n q a b (suc u) v)) }
{}

/// The order of the terms: different terms have different places, and x keeps the order.
pub fn laws_of_order()
    ensures different { (w : ℕ) → 1 ≤ w → (i j a b : ℕ) → place w i j ≡ place w a b
        → (i ≡ a) × (j ≡ b) }
    ensures kept { (w : ℕ) → 1 ≤ w → (i j a b : ℕ) → place w a b ≤ place w i j
        → place w (suc a) b ≤ place w (suc i) j }
{}
