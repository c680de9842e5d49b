//! What is proved of the definitions alone.

ghost use Rattle.std.specs.Prelude.{◌≡◌, ℕ, ◌*◌, ◌^◌, ◌<◌, List, [], ◌∷◌, length, All, Contains, Option, Some, true};
ghost use Rattle.std.specs.List.Sorted.{IsStrictlyIncreasing};
ghost use Rattle.code_terms.specs.Words.{HasSymbolsBelow, agreement_of, places_of, readable, slot_at};
ghost use Rattle.decoder_terms.specs.Decoding.{decoded};
ghost use Rattle.pair_terms.specs.Pairs.{ArePairs, HaveSymbolsBelow, Pair, fitting_count, fitting_places, pairs_of};
ghost use Rattle.pair_terms.specs.Examples.{two_at_once, two_at_the_fifth};
ghost use Rattle.pair_terms.specs.Recovery.{fits_enough, recovered, recovery_bound};

/// A word is the case of one symbol a place at most: as many pairs as readable places, in order, with the symbols of their slots;
/// a message agrees with the word where it fits the pairs, and the same messages are found.
pub fn words_are_pairs()
    ensures pairs { (word : List (Option ℕ)) → ArePairs (length word) (pairs_of word) }
    ensures symbols { (word : List (Option ℕ)) (limit : ℕ) → HasSymbolsBelow limit word
        → HaveSymbolsBelow limit (pairs_of word) }
    ensures count { (word : List (Option ℕ)) → length (pairs_of word) ≡ readable word }
    ensures slots { (word : List (Option ℕ)) (i v : ℕ) → Contains (pairs_of word) (i, v)
        → slot_at word i ≡ Some v }
    ensures places { (m k u : ℕ) (word : List (Option ℕ))
        → fitting_places m k u (pairs_of word) ≡ places_of m k u word }
    ensures agreement { (m k u : ℕ) (word : List (Option ℕ))
        → fitting_count m k u (pairs_of word) ≡ agreement_of m k u word }
    ensures decoded { (m k c : ℕ) (word : List (Option ℕ)) → recovered m k (pairs_of word) c
        ≡ decoded m k word c }
{}

/// A message fits at most one pair a place, so the places where it fits ascend.
pub fn pairs_are_told()
    ensures { (n m k u : ℕ) (pairs : List Pair) → ArePairs n pairs
        → IsStrictlyIncreasing (fitting_places m k u pairs) }
{}

/// A list that ascends and has the messages that fit enough pairs, all of them and nothing else, is what is recovered.
pub fn recovered_is_told()
    ensures { (m k c : ℕ) (pairs : List Pair) (messages : List ℕ) → IsStrictlyIncreasing messages
        → All (λ u. (u < 2 ^ (m * k)) × (fits_enough m k pairs c u ≡ true)) messages
        → ((u : ℕ) → u < 2 ^ (m * k) → fits_enough m k pairs c u ≡ true → Contains messages u)
        → messages ≡ recovered m k pairs c }
{}

/// The definitions at small values that were worked out apart from them, over symbols of 4 bits with two coefficients: eleven
/// pairs at a third, where the message 1 fits the second symbol of the fifth place; two symbols at one place, of which a message
/// has one; and what the bound comes to, for the curve of eleven pairs at ten places.
pub fn worked_examples()
    ensures pairs { ArePairs 1 two_at_once }
    ensures recovered { recovered 4 2 two_at_the_fifth 3 ≡ 0 ∷ 1 ∷ 16 ∷ [] }
    ensures places { fitting_places 4 2 1 two_at_the_fifth ≡ 1 ∷ 4 ∷ 7 ∷ 8 ∷ 9 ∷ [] }
    ensures one_of_two { fitting_count 4 2 5 two_at_once ≡ 1 }
    ensures products { recovery_bound 0 11 10 2 3 ≡ 177464 }
{}
