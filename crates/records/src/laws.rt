//! What a read says of the blobs that agree with it.

ghost use Rattle.std.specs.Prelude.{◌≡◌, List, Some, None, ℕ};
ghost use Rattle.shelf_terms.specs.Blobs.{Blobs, blob_at};
ghost use Rattle.records.specs.Events.{Event};
ghost use Rattle.records.specs.Parts.{OnlyReads, IsWhole, IsLonger, IsMissed};
ghost use Rattle.records.specs.Agreement.{Agrees, HoldsLonger};

/// In all blobs that agree with a read the name has what was read, has more than the limit, or is not there; a read leaves them as
/// they were; and blobs that hold what was read agree with the read.
pub fn reads_agree()
    ensures whole { (name bytes : List ℕ) (events : List Event) (old new : Blobs)
        → IsWhole name bytes events → Agrees old events new → blob_at old name ≡ Some bytes }
    ensures longer { (name : List ℕ) (limit : ℕ) (events : List Event) (old new : Blobs)
        → IsLonger name limit events → Agrees old events new → HoldsLonger old name limit }
    ensures missed { (name : List ℕ) (events : List Event) (old new : Blobs)
        → IsMissed name events → Agrees old events new → blob_at old name ≡ None }
    ensures kept { (name : List ℕ) (events : List Event) (old new : Blobs)
        → OnlyReads name events → Agrees old events new → new ≡ old }
    ensures held { (name bytes : List ℕ) (events : List Event) (blobs : Blobs)
        → IsWhole name bytes events → blob_at blobs name ≡ Some bytes → Agrees blobs events blobs }
{}
