//! The laws of samples: each is the contract of a function that does nothing.

ghost use Rattle.std.specs.Prelude.{◌≡◌, ℕ, [], ◌∷◌, None};
ghost use Rattle.sample_terms.specs.Copies.{copied_word, word_of};
ghost use Rattle.sample_terms.specs.Inputs.{twins, variants};
ghost use Rattle.sample_terms.specs.Numbers.{coalition, multiplier, shift, word_number};

/// Numbers of samples that were computed apart.
pub fn worked_numbers()
    ensures first { word_number 7 0 ≡ 3118702321 }
    ensures seventeenth { word_number 7 17 ≡ 1176347553 }
    ensures multiplier { multiplier 7 ≡ 13057507 }
    ensures shift { shift 7 ≡ 9978469 }
    ensures coalition { coalition 7 ≡ 796 ∷ 414 ∷ 535 ∷ [] }
    ensures of_nought { coalition 0 ≡ 152 ∷ 331 ∷ 93 ∷ [] }
    ensures of_two { coalition 2 ≡ 514 ∷ 929 ∷ 349 ∷ [] }
    ensures of_the_last { coalition 18446744073709551615 ≡ 332 ∷ 706 ∷ 633 ∷ [] }
{}

/// Where no two variants of a sample have one digest, the word that the title sees in the digests of the copy has the symbols that
/// were copied.
pub fn copies_are_read()
    ensures { (number : ℕ) → twins number variants ≡ None → word_of number ≡ copied_word number }
{}
