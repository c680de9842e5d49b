//! Systems of linear equations over any field: what solves one, which rows are independent, and what the rank is.
#![tactic(auto)]

ghost use Rattle.std.specs.Prelude.{◌≡◌, ℕ, ◌<◌};
ghost use Rattle.algebra.specs.Ring.{IsField, Ring};
ghost use Rattle.system_terms.specs.Systems.{IsRank, IsZero, Solves};

/// A system with more unknowns than equations is solved by a vector that is not zero.
pub fn wide_systems_have_solutions<F>()
    ensures { (ring : Ring F) → IsField ring → (m n : ℕ) (a : ℕ → ℕ → F) → m < n
        → (x : ℕ → F) × Solves ring m n a x × (IsZero ring n x → ⊥) }
{}

/// The ranks of two kinds of systems.
pub fn ranks_of_small_systems<F>()
    // equations without any unknown have rank 0
    ensures zeros { (ring : Ring F) → IsField ring → (m n : ℕ)
        → IsRank ring m n (λ i k. ring.nil) 0 }
    // however often an equation with one unknown stands there, the rank is 1
    ensures one { (ring : Ring F) → IsField ring → (m : ℕ) → 0 < m
        → IsRank ring m 1 (λ i k. ring.unit) 1 }
{}
