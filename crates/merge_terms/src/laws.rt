//! What is proved of the definitions alone.

ghost use Rattle.std.specs.Prelude.{◌≡◌, ℕ, List, [], ◌∷◌, Option, codes};
ghost use Rattle.desk_terms.specs.Findings.{findings};
ghost use Rattle.desk_terms.specs.Roll.{Roll, roll_of};
ghost use Rattle.desk_terms.specs.Examples.{first_licensees};
ghost use Rattle.merge_terms.specs.Bounds.{merged_look_bound, merged_product_bound};
ghost use Rattle.pair_terms.specs.Examples.{two_at_the_fifth};
ghost use Rattle.pair_terms.specs.Pairs.{pairs_of};
ghost use Rattle.merge_terms.specs.Merged.{accused_by, merged_findings};

/// The findings over a word accuse those whom its pairs accuse.
pub fn words_are_merged()
    ensures { (roll : Roll) (word : List (Option ℕ)) (c : ℕ)
        → accused_by roll (pairs_of word) c ≡ (findings roll word c).accused }
{}

/// Eleven pairs that were worked out apart from the definitions: the word that three colluders made, with a second symbol at its
/// fifth place, at a third. The licensee with the second symbol is accused at that place too; by the first symbol of each place
/// alone, that licensee would fit one pair fewer. Then the products and looks that so many pairs may take at ten places.
pub fn worked_examples()
    ensures second_symbol { merged_findings (roll_of (first_licensees 20)) two_at_the_fifth 3
        ≡ record {
          pairs = 11;
          bound = 3;
          accused = record { serial = 0; name = codes "lic0"; places = 0 ∷ 4 ∷ 5 ∷ 6 ∷ [] }
              ∷ record { serial = 1; name = codes "lic1"; places = 1 ∷ 4 ∷ 7 ∷ 8 ∷ 9 ∷ [] }
              ∷ record { serial = 16; name = codes "lic16"; places = 0 ∷ 1 ∷ 2 ∷ 3 ∷ [] } ∷ [];
        } }
    ensures products { merged_product_bound 11 10 2 3 ≡ 1337784 }
    ensures looks { merged_look_bound 11 3 ≡ 14 }
{}
