//! The laws of parameters, each as the contract of a function that does nothing.

ghost use Rattle.std.specs.Prelude.{◌≡◌, ℕ, ◌+◌, ◌*◌, ◌<◌, ◌≤◌};
ghost use Rattle.decoding_terms.specs.Parameters.{AreEnough, AreParameters, equation_count, term_count};

/// Where there are more than c² w points, there are parameters.
pub fn parameters_exist()
    ensures { (w c r : ℕ) → AreEnough w c r → (t s e : ℕ) × AreParameters w c r t s e }
{}

/// The parameters for more than c² w points give more unknowns than equations, and they are small.
pub fn parameters_suffice()
    ensures agreement { (w c r t s e : ℕ) → AreEnough w c r → AreParameters w c r t s e
        → w * r < t * t }
    ensures multiplicity { (w c r t s e : ℕ) → AreEnough w c r → AreParameters w c r t s e
        → s ≤ c * w }
    // so that s zeros at each of t points are as many as a polynomial below the weight e can't have
    ensures weight { (w c r t s e : ℕ) → AreEnough w c r → AreParameters w c r t s e → e ≤ s * t }
    ensures unknowns { (w c r t s e : ℕ) → AreEnough w c r → AreParameters w c r t s e
        → equation_count r s < term_count w e }
    ensures not_many { (w c r t s e : ℕ) → AreEnough w c r → AreParameters w c r t s e
        → term_count w e ≤ 2 * equation_count r s + 1 }
    ensures equations { (w c r t s e : ℕ) → AreEnough w c r → c ≤ 8 → c * w ≤ 12 → r ≤ 1024
        → AreParameters w c r t s e → equation_count r s ≤ 8000 }
    ensures low { (w c r t s e : ℕ) → AreEnough w c r → c ≤ 8 → c * w ≤ 12 → r ≤ 1024
        → AreParameters w c r t s e → e ≤ 4096 }
{}

/// Parameters that were worked out by hand.
pub fn worked_examples()
    ensures a { AreParameters 4 3 39 13 12 155 × (equation_count 39 12 ≡ 3042)
        × (term_count 4 155 ≡ 3081) }
    ensures b { AreParameters 1 8 72 9 8 72 × (equation_count 72 8 ≡ 2592)
        × (term_count 1 72 ≡ 2628) }
    ensures c { AreParameters 2 6 78 13 12 156 × (equation_count 78 12 ≡ 6084)
        × (term_count 2 156 ≡ 6162) }
    ensures d { AreParameters 4 3 200 67 1 39 × (equation_count 200 1 ≡ 200)
        × (term_count 4 39 ≡ 210) }
    ensures e { AreParameters 2 3 30 10 2 19 × (equation_count 30 2 ≡ 90)
        × (term_count 2 19 ≡ 100) }
    ensures f { AreParameters 1 1 2 2 1 2 × (equation_count 2 1 ≡ 2) × (term_count 1 2 ≡ 3) }
    ensures g { AreParameters 1 3 10 4 2 8 × (equation_count 10 2 ≡ 30) × (term_count 1 8 ≡ 36) }
{}
