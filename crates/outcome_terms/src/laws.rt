//! What is proved of the definitions alone.

ghost use Rattle.std.specs.Prelude.{◌≡◌, List, ℕ, [], ◌∷◌, None, Some, Ok, Err, Result, codes};
ghost use Rattle.shelf_terms.specs.Blobs.{Blobs};
ghost use Rattle.form_terms.specs.Forms.{fault};
ghost use Rattle.playlist_terms.specs.Reading.{at_line};
ghost use Rattle.playlist_terms.specs.declared.fault.PlaylistFault.TheVariants.{NoUri, NoTarget};
ghost use Rattle.title_terms.specs.declared.fault.TitleKind.TheVariants.{Form};
ghost use Rattle.title_terms.specs.declared.fault.Key.TheVariants as keys;
ghost use Rattle.title_terms.specs.declared.fault.DesignFault.TheVariants.{Missing, WrongType, TooWeak, BadMarked};
ghost use Rattle.outcome_terms.specs.declared.fault.Fault.TheVariants.{BadDesign, BadPlaylist, BadTitle, BadReport, Differs, Mismatch, Duplicate, NoSegment};
ghost use Rattle.report_terms.specs.declared.verdict.Verdict.TheVariants.{Absent, WrongPlaces, WrongReadable};
ghost use Rattle.outcome_terms.specs.declared.status.Status.TheVariants as statuses;
ghost use Rattle.outcome_terms.specs.Statuses.{fault_line, says};
ghost use Rattle.outcome_terms.specs.declared.refusal.Refusal.{Refusal};
ghost use Rattle.outcome_terms.specs.Commands.{request_of};
ghost use Rattle.outcome_terms.specs.Request.{Accuse, Check, Enrol, Make, MakeTitle, Package, Sample, Trace, Withdraw};
ghost use Rattle.outcome_terms.specs.Reading.{Reading, given, ◌>>=◌ as ◌and_then◌};
ghost use Rattle.outcome_terms.specs.Stores.{Answers, Follows};
ghost use Rattle.records.specs.Events.{Event};
ghost use Rattle.records.specs.Stores.{Store};
ghost use Rattle.records.specs.Agreement.{Agrees, Supposed};
ghost use Rattle.outcome_terms.specs.Replays.{AreReads, Got, Hold, ReadSo};

/// Readings that are followed one after the other are followed as a whole, none changes a blob, and where the blobs are told
/// the answer is what the reading gives over them.
pub fn readings_compose()
    ensures goes_on { (reading : Reading (List ℕ)) (f : List ℕ → Reading (List ℕ)) (s t u : Store)
        (x : List ℕ) (answer : Result (List ℕ) Refusal)
        → Follows reading s t (Ok x) → Follows (f x) t u answer
        → Follows (reading and_then f) s u answer }
    ensures stops { (reading : Reading (List ℕ)) (f : List ℕ → Reading (List ℕ)) (s t : Store)
        (e : Refusal)
        → Follows reading s t (Err e) → Follows (reading and_then f) s t (Err e) }
    ensures keeps { (reading : Reading (List ℕ)) (s t : Store) (answer : Result (List ℕ) Refusal)
        → Follows reading s t answer → t.told ≡ s.told }
    ensures decided { (reading : Reading (List ℕ)) (s t : Store)
        (answer : Result (List ℕ) Refusal) (blobs : Blobs)
        → s.told ≡ Some blobs → Follows reading s t answer → Answers answer (given blobs reading) }
{}

/// A reading that was followed over a store was followed over all blobs that agree with its events; where it gave a value, whole blobs
/// were read and nothing else, whose bytes give the value; and blobs that hold what was read agree.
pub fn readings_are_supposed()
    ensures followed { (reading : Reading (List ℕ)) (s t : Store) (answer : Result (List ℕ) Refusal)
        → Follows reading s t answer
        → Supposed s t (λ blobs was is. Follows reading was is answer) }
    ensures read { (reading : Reading (List ℕ)) (s t : Store) (x : List ℕ)
        → Follows reading s t (Ok x) → ReadSo reading s.events t.events x }
    ensures agree { (blobs : Blobs) (reads : List Got) (events : List Event)
        → AreReads reads events → Hold blobs reads → Agrees blobs events blobs }
{}

/// Words that are commands, and words that are none: too few, too many, a number with a leading zero, a sign or nine bytes, a name
/// with a line feed, an unknown command, and no word at all.
pub fn worked_examples()
    ensures make { request_of
        (codes "register" ∷ codes "4" ∷ codes "2" ∷ codes "1" ∷ codes "0" ∷ codes "r" ∷ [])
        ≡ Some (Make 4 2 1 0 (codes "r")) }
    ensures enrol { request_of (codes "enrol" ∷ codes "r0" ∷ codes "lic0" ∷ codes "r1" ∷ [])
        ≡ Some (Enrol (codes "r0") (codes "lic0") (codes "r1")) }
    ensures withdraw { request_of (codes "withdraw" ∷ codes "r0" ∷ codes "lic0" ∷ codes "r1" ∷ [])
        ≡ Some (Withdraw (codes "r0") (codes "lic0") (codes "r1")) }
    ensures title { request_of (codes "title" ∷ codes "d" ∷ codes "s" ∷ codes "t" ∷ [])
        ≡ Some (MakeTitle (codes "d") (codes "s") (codes "t")) }
    ensures package { request_of
        (codes "package" ∷ codes "t" ∷ codes "reg" ∷ codes "lic0" ∷ codes "o" ∷ [])
        ≡ Some (Package (codes "t") (codes "reg") (codes "lic0") (codes "o")) }
    ensures trace { request_of
        (codes "trace" ∷ codes "t" ∷ codes "reg" ∷ codes "copy" ∷ codes "3" ∷ [])
        ≡ Some (Trace (codes "t") (codes "reg") (codes "copy") 3) }
    ensures check { request_of
        (codes "check" ∷ codes "t" ∷ codes "reg" ∷ codes "copy" ∷ codes "rep" ∷ [])
        ≡ Some (Check (codes "t") (codes "reg") (codes "copy") (codes "rep")) }
    ensures accuse { request_of (codes "accuse" ∷ codes "reg" ∷ codes "w" ∷ codes "3" ∷ [])
        ≡ Some (Accuse (codes "reg") (codes "w") 3) }
    ensures sample { request_of (codes "sample" ∷ codes "18446744073709551615" ∷ [])
        ≡ Some (Sample 18446744073709551615) }
    ensures too_large { request_of (codes "sample" ∷ codes "18446744073709551616" ∷ []) ≡ None }
    ensures too_few { request_of (codes "accuse" ∷ codes "reg" ∷ codes "w" ∷ []) ≡ None }
    ensures too_many { request_of
        (codes "enrol" ∷ codes "r0" ∷ codes "lic0" ∷ codes "r1" ∷ codes "r2" ∷ []) ≡ None }
    ensures leading_zero { request_of (codes "accuse" ∷ codes "reg" ∷ codes "w" ∷ codes "03" ∷ [])
        ≡ None }
    ensures signed { request_of (codes "accuse" ∷ codes "reg" ∷ codes "w" ∷ codes "-" ∷ []) ≡ None }
    ensures broken_name { request_of (codes "enrol" ∷ codes "r0" ∷ codes "a\nb" ∷ codes "r1" ∷ [])
        ≡ None }
    ensures unknown { request_of (codes "follow" ∷ codes "reg" ∷ codes "w" ∷ codes "3" ∷ [])
        ≡ None }
    ensures no_words { request_of [] ≡ None }
{}

/// What error lines say of designs, playlists and titles, of codes that do not fit, of equal variants, of reports and of
/// marked numbers.
pub fn worked_details()
    ensures weak { fault_line (BadDesign TooWeak) ≡ says statuses.BadDesign (codes "too-weak") }
    ensures missing { fault_line (BadDesign (Missing keys.M))
        ≡ says statuses.BadDesign (codes "missing m") }
    ensures wrong_type { fault_line (BadDesign (WrongType keys.Marked))
        ≡ says statuses.BadDesign (codes "wrong-type marked") }
    ensures marked { fault_line (BadDesign (BadMarked 1))
        ≡ says statuses.BadDesign (codes "bad-marked 1") }
    ensures uri { fault_line (BadPlaylist (at_line 3 NoUri))
        ≡ says statuses.BadPlaylist (codes "3 no-uri") }
    ensures target { fault_line (BadPlaylist (at_line 0 NoTarget))
        ≡ says statuses.BadPlaylist (codes "0 no-target") }
    ensures form { fault_line (BadTitle (fault 4 Form)) ≡ says statuses.BadTitle (codes "4 form") }
    ensures mismatch { fault_line (Mismatch 4 2 4 3) ≡ says statuses.Mismatch (codes "4 2 4 3") }
    ensures duplicate { fault_line (Duplicate 2 5 3 10)
        ≡ says statuses.Duplicate (codes "2 5 3 10") }
    ensures report { fault_line BadReport ≡ says statuses.BadReport (codes "report") }
    ensures readable { fault_line (Differs WrongReadable)
        ≡ says statuses.Differs (codes "wrong-readable") }
    ensures places { fault_line (Differs (WrongPlaces 0))
        ≡ says statuses.Differs (codes "wrong-places 0") }
    ensures absent { fault_line (Differs (Absent 16)) ≡ says statuses.Differs (codes "absent 16") }
    ensures segment { fault_line (NoSegment 12) ≡ says statuses.NoSegment (codes "12") }
{}
