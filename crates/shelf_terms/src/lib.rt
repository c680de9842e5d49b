//! Blobs under names, the counts of what went wrong with them, and the causes of a refusal, as contracts cite them.
//!
//! The laws over these definitions are the contracts of functions with an empty body.
#![tactic(auto)]

mod limit;

ghost use Rattle.std.specs.Prelude.{◌≡◌, Bool, false, List, [], ◌∷◌, ℕ};
ghost use Rattle.shelf_terms.specs.Counts.{Tally};
ghost use Rattle.shelf_terms.specs.Blobs.{part_of};
ghost use Rattle.shelf_terms.specs.Causes.{ReadCauses, WriteCauses};
ghost use Rattle.shelf_terms.specs.Puts.{Puts};

pub use limit::BLOB_LIMIT;

/// A read that was answered, and a read after it: of both together the causes are those of the second.
pub fn reads_compose()
    ensures { (a b c : Tally) (name next : List ℕ) (failed missed : Bool)
        → ReadCauses a b name false false
        → ReadCauses b c next failed missed
        → ReadCauses a c next failed missed }
{}

/// A write that was done, and a write after it: of both together the causes are those of the second.
pub fn writes_compose()
    ensures { (a b c : Tally) (failed : Bool)
        → WriteCauses a b false
        → WriteCauses b c failed
        → WriteCauses a c failed }
{}

/// Parts of a blob, and what stands in an output when half of a text was put, worked out by hand.
pub fn worked_examples()
    ensures within { part_of (1 ∷ 2 ∷ 3 ∷ 4 ∷ 5 ∷ []) 1 3 ≡ 2 ∷ 3 ∷ 4 ∷ [] }
    ensures cut_at_the_end { part_of (1 ∷ 2 ∷ 3 ∷ 4 ∷ 5 ∷ []) 3 10 ≡ 4 ∷ 5 ∷ [] }
    ensures past_the_end { part_of (1 ∷ 2 ∷ 3 ∷ 4 ∷ 5 ∷ []) 5 2 ≡ [] }
    ensures half { Puts (7 ∷ 8 ∷ []) (7 ∷ 8 ∷ 1 ∷ 2 ∷ []) (1 ∷ 2 ∷ 3 ∷ 4 ∷ []) }
    ensures none { Puts (7 ∷ 8 ∷ []) (7 ∷ 8 ∷ []) (1 ∷ 2 ∷ []) }
{}
