//! What is proved of the definitions alone.

ghost use Rattle.std.specs.Prelude.{◌↔◌, ◌≡◌, ℕ, ◌^◌, ◌<◌, ◌≤◌, List, [], ◌∷◌, length, map, All, Option, Some, None, Ok, Err, codes};
ghost use Rattle.std.specs.List.Sorted.{IsStrictlyIncreasing};
ghost use Rattle.code_terms.specs.Symbols.{symbol_of};
ghost use Rattle.code_terms.specs.Words.{readable, places_of, agreement_of, codeword_of, HasSymbolsBelow, three_colluders};
ghost use Rattle.code_terms.specs.WordText.{tokens_of, word_of};
ghost use Rattle.code_terms.specs.WordFaults.{SpellWord, IsFirstBroken, IsOverlong};

use crate::word_fault::WordFault;

/// The definitions at small values that were worked out apart from them, over symbols of 4 bits with two coefficients:
/// a codeword; the word that three colluders, of the messages 0, 1 and 16, could make between them, and the places of
/// each; and texts of words with their first faults.
pub fn worked_examples()
    ensures codeword { codeword_of 4 2 16 4 ≡ map Some (0 ∷ 1 ∷ 2 ∷ 3 ∷ []) }
    ensures places_0 { places_of 4 2 0 three_colluders ≡ 0 ∷ 4 ∷ 5 ∷ 6 ∷ [] }
    ensures places_1 { places_of 4 2 1 three_colluders ≡ 1 ∷ 7 ∷ 8 ∷ 9 ∷ [] }
    ensures places_16 { places_of 4 2 16 three_colluders ≡ 0 ∷ 1 ∷ 2 ∷ 3 ∷ [] }
    ensures text { word_of 4 (codes "0,1,2,3,0,0,0,1,1,1\n") ≡ Ok three_colluders }
    ensures pair { word_of 4 (codes "5,5") ≡ Ok (Some 5 ∷ Some 5 ∷ []) }
    ensures erasure { word_of 4 (codes "-") ≡ Ok (None ∷ []) }
    ensures too_great { word_of 4 (codes "0,16,2") ≡ Err (WordFault.Token 1) }
    ensures empty { word_of 4 [] ≡ Err (WordFault.Token 0) }
    ensures too_long { word_of 4 (codes "0,0,0,0,0,0,0,0,0,0,0,0,0,0,0,0,0") ≡ Err WordFault.Long }
{}

/// The agreeing places are places of the word, each of them once, in ascending order, and no more than are readable.
pub fn places_are_places()
    ensures within { (m k u : ℕ) (word : List (Option ℕ))
        → All (λ i. i < length word) (places_of m k u word) }
    ensures ascending { (m k u : ℕ) (word : List (Option ℕ))
        → IsStrictlyIncreasing (places_of m k u word) }
    ensures readable { (m k u : ℕ) (word : List (Option ℕ))
        → agreement_of m k u word ≤ readable word }
    ensures few { (word : List (Option ℕ)) → readable word ≤ length word }
{}

/// A word that a text spells over symbols of m bits has at most 2^m places, and its symbols are below 2^m.
pub fn texts_spell_words()
    ensures places { (m : ℕ) (bytes : List ℕ) (word : List (Option ℕ)) → word_of m bytes ≡ Ok word
        → length word ≤ 2 ^ m }
    ensures symbols { (m : ℕ) (bytes : List ℕ) (word : List (Option ℕ)) → word_of m bytes ≡ Ok word
        → HasSymbolsBelow (2 ^ m) word }
{}

/// What a text is read as, told by its tokens: a word exactly where each token stands for a slot and there are no more
/// tokens than symbols; else the first token that stands for none, or the token for which no place is left.
pub fn words_are_their_tokens()
    ensures word { (m : ℕ) (bytes : List ℕ) (word : List (Option ℕ)) →
        (word_of m bytes ≡ Ok word) ↔ SpellWord (2 ^ m) (tokens_of bytes) word }
    ensures token { (m : ℕ) (bytes : List ℕ) (place : ℕ) →
        (word_of m bytes ≡ Err (WordFault.Token place)) ↔ IsFirstBroken (2 ^ m)
        (tokens_of bytes) place }
    ensures long { (m : ℕ) (bytes : List ℕ) →
        (word_of m bytes ≡ Err WordFault.Long) ↔ IsOverlong (2 ^ m) (tokens_of bytes) }
{}

/// Symbols of messages are numbers below 2^m, at each of the 2^m points.
pub fn symbols_are_symbols()
    ensures { (m k u i : ℕ) → 4 ≤ m → m ≤ 8 → i < 2 ^ m → symbol_of m k u i < 2 ^ m }
{}
