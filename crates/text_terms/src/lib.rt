//! The spelling of numbers and the rules on names, as contracts cite them.
//!
//! The laws over these definitions are the contracts of functions with an empty body.
#![tactic(auto)]

ghost use Rattle.std.specs.Prelude.{◌≡◌, ◌≢◌, ◌<◌, ◌≤◌, ◌^◌, ℕ, List, length, true, Some, All};
ghost use Rattle.std.specs.Fmt.{decimal};
ghost use Rattle.text_terms.specs.Names.{is_name, is_plain};
ghost use Rattle.text_terms.specs.Numbers.{number_of};

/// Each number below 2^128 has exactly one spelling, the one that `{}` prints.
pub fn spelling_is_unique()
    ensures read { (n : ℕ) → n < 2 ^ 128 → number_of (decimal n) ≡ Some n }
    ensures written { (text : List ℕ) (n : ℕ) → number_of text ≡ Some n → text ≡ decimal n }
    ensures below { (text : List ℕ) (n : ℕ) → number_of text ≡ Some n → n < 2 ^ 128 }
{}

/// A plain name is a name too, and no name is empty, is longer than 1,024 bytes, has a control character, or breaks a line.
pub fn names_fit_lines()
    ensures plain { (text : List ℕ) → is_plain text ≡ true → is_name text ≡ true }
    ensures some { (text : List ℕ) → is_name text ≡ true → 1 ≤ length text }
    ensures most { (text : List ℕ) → is_name text ≡ true → length text ≤ 1024 }
    ensures no_control { (text : List ℕ) → is_name text ≡ true
        → All (λ b. (32 ≤ b) × (b ≢ 127)) text }
    ensures no_line_feed { (text : List ℕ) → is_name text ≡ true → All (λ b. b ≢ 10) text }
{}
