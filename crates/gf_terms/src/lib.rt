//! The arithmetic of the fields GF(2^4) to GF(2^8) on numbers, and that it makes fields of them.
#![tactic(auto)]

ghost use Rattle.std.specs.Prelude.{◌≡◌, ℕ, ◌-◌, ◌^◌, ◌<◌, ◌≤◌, bit_xor};
ghost use Rattle.gf_terms.specs.Arithmetic.{power, product};

/// For m from 4 to 8, product and exclusive or make a field of the numbers below 2^m, and 2 generates all of them but 0.
pub fn laws_of_the_product()
    ensures closed { (m x y : ℕ) → 4 ≤ m → m ≤ 8 → x < 2 ^ m → y < 2 ^ m → product m x y < 2 ^ m }
    ensures commutes { (m x y : ℕ) → 4 ≤ m → m ≤ 8 → x < 2 ^ m → y < 2 ^ m
        → product m x y ≡ product m y x }
    ensures associates { (m x y z : ℕ) → 4 ≤ m → m ≤ 8 → x < 2 ^ m → y < 2 ^ m → z < 2 ^ m
        → product m (product m x y) z ≡ product m x (product m y z) }
    ensures distributes { (m x y z : ℕ)
        → product m x (bit_xor y z) ≡ bit_xor (product m x y) (product m x z) }
    ensures unit { (m x : ℕ) → 4 ≤ m → m ≤ 8 → x < 2 ^ m → product m 1 x ≡ x }
    ensures inverses { (m x : ℕ) → 4 ≤ m → m ≤ 8 → x < 2 ^ m → 0 < x
        → (y : ℕ) × (y < 2 ^ m) × (product m y x ≡ 1) }
    ensures no_zero_divisors { (m x y : ℕ) → 4 ≤ m → m ≤ 8 → x < 2 ^ m → y < 2 ^ m → 0 < x
        → product m x y ≡ 0 → y ≡ 0 }
    ensures generates { (m x : ℕ) → 4 ≤ m → m ≤ 8 → x < 2 ^ m → 0 < x
        → (i : ℕ) × (i < 2 ^ m - 1) × (power m 2 i ≡ x) }
{}
