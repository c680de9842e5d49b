//! What is proved of the definitions alone.

ghost use Rattle.std.specs.Prelude.{◌≡◌, ℕ, ◌*◌, ◌^◌, ◌<◌, List, [], ◌∷◌, All, Contains, Option, Some, true};
ghost use Rattle.std.specs.List.Sorted.{IsStrictlyIncreasing};
ghost use Rattle.code_terms.specs.Words.{agreement_of, three_colluders};
ghost use Rattle.decoder_terms.specs.Bounds.{decoding_bound, root_bound};
ghost use Rattle.decoder_terms.specs.Decoding.{decoded, not_enough, meets_threshold};

/// A list that ascends and has the messages that meet the threshold, all of them and nothing else, is what decoding finds.
pub fn decoded_is_told()
    ensures { (m k c : ℕ) (word : List (Option ℕ)) (messages : List ℕ)
        → IsStrictlyIncreasing messages
        → All (λ u. (u < 2 ^ (m * k)) × (meets_threshold m k word c u ≡ true)) messages
        → ((u : ℕ) → u < 2 ^ (m * k) → meets_threshold m k word c u ≡ true → Contains messages u)
        → messages ≡ decoded m k word c }
{}

/// The definitions at small values that were worked out apart from them, over symbols of 4 bits with two coefficients: the
/// word that three colluders made, at a third exactly; a word of two places with one symbol; and what the bounds come to, that of
/// the roots also with three coefficients.
pub fn worked_examples()
    ensures three { decoded 4 2 three_colluders 3 ≡ 0 ∷ 1 ∷ 16 ∷ [] }
    ensures one { decoded 4 2 (Some 5 ∷ Some 5 ∷ []) 1 ≡ 5 ∷ [] }
    ensures nine_not_enough { not_enough 2 3 ≡ 9 }
    ensures roots { root_bound 10 2 3 ≡ 143650 }
    ensures roots_of_three { root_bound 19 3 3 ≡ 1777248 }
    ensures products { decoding_bound 0 10 2 3 ≡ 143910 }
{}
