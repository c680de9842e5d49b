//! The laws of codes and coalitions that a trace rests on, each as the contract of a function that does nothing.

ghost use Rattle.std.specs.Prelude.{◌≡◌, ◌≢◌, ℕ, ◌*◌, ◌^◌, ◌<◌, ◌≤◌, List, [], ◌∷◌, Option, length};
ghost use Rattle.algebra.specs.Ring.{IsField, Ring};
ghost use Rattle.algebra.specs.Roots.{AreDifferent};
ghost use Rattle.algebra.specs.Series.{IsBelow, value};
ghost use Rattle.coalition_terms.specs.Coalition.{Explains, IsCoalition, IsTraced};
ghost use Rattle.coalition_terms.specs.Distance.{common_places};
ghost use Rattle.coalition_terms.specs.Merged.{AreTraced, ExplainsPairs};
ghost use Rattle.pair_terms.specs.Pairs.{ArePairs, Pair};
ghost use Rattle.code_terms.specs.Words.{readable, three_colluders};
ghost use Rattle.decoder_terms.specs.Decoding.{not_enough};
ghost use Rattle.desk_terms.specs.Examples.{first_licensees};
ghost use Rattle.desk_terms.specs.Roll.{IsRoll, Roll, roll_of};

/// Two messages of k coefficients that differ have the same symbol in at most k - 1 of the first n places, where n is at most 2^m.
pub fn codewords_are_far_apart()
    ensures { (m k n u v : ℕ) → 4 ≤ m → m ≤ 8 → n ≤ 2 ^ m → u < 2 ^ (m * k) → v < 2 ^ (m * k)
        → u ≢ v → length (common_places m k u v n) < k }
{}

/// Where a coalition of at most c licensees made the word, and more than c² (k - 1) places of it can be read, the desk accuses
/// members of the coalition alone, and at least one of them.
pub fn coalitions_are_traced()
    ensures { (roll : Roll) (word : List (Option ℕ)) (c : ℕ) (members : List ℕ) → IsRoll roll
        → 4 ≤ roll.bits → roll.bits ≤ 8 → length word ≤ 2 ^ roll.bits → 1 ≤ c
        → not_enough roll.dimension c < readable word → IsCoalition roll c members
        → Explains roll members word → IsTraced roll word c members }
{}

/// The same over pairs, of which several may stand at one place: where a coalition of at most c licensees made them, and they
/// are more than c² (k - 1), the desk accuses members of the coalition alone, and at least one of them. The law over words is
/// its case.
pub fn merged_coalitions_are_traced()
    ensures { (roll : Roll) (pairs : List Pair) (c : ℕ) (members : List ℕ) → IsRoll roll
        → 4 ≤ roll.bits → roll.bits ≤ 8 → ArePairs (2 ^ roll.bits) pairs → 1 ≤ c
        → not_enough roll.dimension c < length pairs → IsCoalition roll c members
        → ExplainsPairs roll members pairs → AreTraced roll pairs c members }
{}

/// Two polynomials with n coefficients each that have the same values at n different points of a field are the same.
pub fn values_tell_polynomials<F>()
    ensures { (ring : Ring F) → IsField ring → (n : ℕ) (points : ℕ → F) (p q : ℕ → F)
        → IsBelow ring n p → IsBelow ring n q → AreDifferent n points
        → ((i : ℕ) → i < n → value ring n p (points i) ≡ value ring n q (points i)) → (k : ℕ)
        → p k ≡ q k }
{}

/// Three licensees and a word that were worked out by hand meet all that is asked of a coalition, and two messages of two
/// coefficients have a symbol in common, so that neither law speaks of nothing.
pub fn worked_examples()
    ensures kept { IsRoll (roll_of (first_licensees 20)) }
    ensures coalition { IsCoalition (roll_of (first_licensees 20)) 3 (0 ∷ 1 ∷ 16 ∷ []) }
    ensures explained { Explains (roll_of (first_licensees 20)) (0 ∷ 1 ∷ 16 ∷ []) three_colluders }
    ensures enough { not_enough 2 3 < readable three_colluders }
    ensures in_common { common_places 4 2 0 16 16 ≡ 0 ∷ [] }
{}
