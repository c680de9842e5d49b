//! What is proved of verdicts.

ghost use Rattle.std.specs.Prelude.{◌≡◌, ◌<◌, ◌↔◌, List, ℕ, Option};
ghost use Rattle.code_terms.specs.Words.{readable};
ghost use Rattle.decoder_terms.specs.Decoding.{not_enough};
ghost use Rattle.desk_terms.specs.declared.findings.Findings.{Findings};
ghost use Rattle.desk_terms.specs.Findings.{findings};
ghost use Rattle.desk_terms.specs.Roll.{Roll};
ghost use Rattle.report_terms.specs.declared.verdict.Verdict.TheVariants.{Right};
ghost use Rattle.report_terms.specs.Verdicts.{verdict};

/// Findings are right exactly where enough places of the word can be read for their bound, and they are what the desk finds in the
/// word: nobody is added, nobody is missed, each has its name and places, and they stand in order.
pub fn right_is_exact()
    ensures { (roll : Roll) (word : List (Option ℕ)) (f : Findings)
        → (verdict roll word f ≡ Right) ↔ ((not_enough roll.dimension f.bound < readable word)
        × (f ≡ findings roll word f.bound)) }
{}

/// What the desk finds in a word is right, where enough of its places can be read for the bound.
pub fn found_is_right()
    ensures { (roll : Roll) (word : List (Option ℕ)) (c : ℕ)
        → not_enough roll.dimension c < readable word
        → verdict roll word (findings roll word c) ≡ Right }
{}
