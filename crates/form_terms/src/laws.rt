//! The laws of lines: each is the contract of a function that does nothing.

ghost use Rattle.std.specs.Prelude.{◌≡◌, ◌≢◌, ◌++◌, [], List, ℕ};
ghost use Rattle.std.specs.List.{All, flat_map};
ghost use Rattle.form_terms.specs.TextLines.{line, ended_lines, rest_of};

/// Bytes are their lines, each with its line feed, and what stands behind the last line feed.
pub fn texts_are_their_lines()
    ensures { (bytes : List ℕ) → flat_map line (ended_lines bytes) ++ rest_of bytes ≡ bytes }
{}

/// Lines without line feeds that are written one after the other are cut again as they were.
pub fn lines_are_cut_again()
    ensures lines { (lines : List (List ℕ)) → All (All (λ b. b ≢ 10)) lines
        → ended_lines (flat_map line lines) ≡ lines }
    ensures nothing_behind { (lines : List (List ℕ)) → All (All (λ b. b ≢ 10)) lines
        → rest_of (flat_map line lines) ≡ [] }
{}
