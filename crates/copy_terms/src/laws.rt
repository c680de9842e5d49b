//! The laws of copies: each is the contract of a function that does nothing.

ghost use Rattle.std.specs.Prelude.{◌≡◌, ℕ, true, List, [], ◌∷◌, replicate, None, Some, All, Contains};
ghost use Rattle.std.specs.List.{list_any};
ghost use Rattle.std.specs.Str.{bytes_eq};
ghost use Rattle.shelf_terms.specs.Blobs.{Blobs};
ghost use Rattle.code_terms.specs.Words.{slot_at};
ghost use Rattle.register_terms.specs.Enrolment.{Enrolment};
ghost use Rattle.title_terms.specs.Titles.{Title, IsTitle};
ghost use Rattle.title_terms.specs.Pair.{pair_title};
ghost use Rattle.packaging_terms.specs.Licensees.{fits, symbol_at};
ghost use Rattle.copy_terms.specs.Copies.{word_of_copy, digests_of};
ghost use Rattle.copy_terms.specs.Pair.{pair_digests_at};
ghost use Rattle.copy_terms.specs.Kept.{IsKept, IsFrom};

/// What small copies of the small title show: a list of digests is given by the numbers of the variants.
pub fn worked_words()
    ensures one_each { word_of_copy pair_title (pair_digests_at (0 ∷ 17 ∷ []))
        ≡ Some 0 ∷ Some 1 ∷ [] }
    ensures reversed { word_of_copy pair_title (pair_digests_at (17 ∷ 0 ∷ []))
        ≡ Some 0 ∷ Some 1 ∷ [] }
    ensures repeated { word_of_copy pair_title (pair_digests_at (0 ∷ 17 ∷ 0 ∷ []))
        ≡ Some 0 ∷ Some 1 ∷ [] }
    ensures two_symbols { word_of_copy pair_title (pair_digests_at (0 ∷ 17 ∷ 5 ∷ []))
        ≡ None ∷ Some 1 ∷ [] }
    ensures one_place { word_of_copy pair_title (pair_digests_at (31 ∷ [])) ≡ None ∷ Some 15 ∷ [] }
    ensures nothing { word_of_copy pair_title [] ≡ None ∷ None ∷ [] }
    ensures something_else { word_of_copy pair_title (replicate 32 0 ∷ []) ≡ None ∷ None ∷ [] }
{}

/// The word depends on which digests a copy has, and not on their order or on how often they stand in it.
pub fn words_forget_order()
    ensures { (t : Title) (first second : List (List ℕ))
        → ((digest : List ℕ) → list_any (bytes_eq digest) first
        ≡ list_any (bytes_eq digest) second) → word_of_copy t first ≡ word_of_copy t second }
{}

/// Where the blobs keep a title and each name of a copy is held and is one that some member of a coalition gets, each symbol of the
/// copy's word is the symbol of some member at that place.
pub fn copies_are_explained()
    ensures { (blobs : Blobs) (t : Title) (e : Enrolment) (members : List ℕ)
        (names : List (List ℕ)) → IsTitle t → fits t e ≡ true → IsKept blobs t
        → All (IsFrom blobs t e members) names
        → (place symbol : ℕ) → slot_at (word_of_copy t (digests_of blobs names)) place
        ≡ Some symbol → (member : ℕ) × Contains members member
        × (symbol_at e member place ≡ symbol) }
{}
