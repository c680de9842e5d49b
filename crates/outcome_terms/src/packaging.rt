//! What is proved of titles and packages that are made over a map of blobs.

ghost use Rattle.std.specs.Prelude.{◌≡◌, ◌+◌, ◌||◌, List, ℕ, [], ◌∷◌, map, take, slice_get, true, false, None, Some, Ok, Err};
ghost use Rattle.std.specs.Str.{bytes_eq};
ghost use Rattle.shelf_terms.specs.Blobs.{Blobs};
ghost use Rattle.register_terms.specs.Enrolment.{Enrolment, names_of, serial_of};
ghost use Rattle.register_terms.specs.Rules.{is_active};
ghost use Rattle.register_terms.specs.RegisterText.{RegisterFault, register_of};
ghost use Rattle.playlist_terms.specs.declared.fault.LineFault.{LineFault};
ghost use Rattle.playlist_terms.specs.Playlists.{Playlist};
ghost use Rattle.playlist_terms.specs.Reading.{playlist_of};
ghost use Rattle.title_terms.specs.declared.fault.DesignFault.{DesignFault};
ghost use Rattle.title_terms.specs.Designs.{Design};
ghost use Rattle.title_terms.specs.DesignText.{design_of};
ghost use Rattle.title_terms.specs.Titles.{Title};
ghost use Rattle.title_terms.specs.TitleText.{TitleFault, title_of, title_text};
ghost use Rattle.packaging_terms.specs.Licensees.{fits, licensed_text};
ghost use Rattle.packaging_terms.specs.Variants.{variants, blob_of};
ghost use Rattle.packaging_terms.specs.Making.{Hindrance, made};
ghost use Rattle.outcome_terms.specs.declared.fault.Fault.TheVariants.{BadDesign, BadPlaylist, BadRegister, BadTitle, Mismatch, SameName, Unknown, Withdrawn};
ghost use Rattle.outcome_terms.specs.declared.refusal.Refusal.{Refusal};
ghost use Rattle.outcome_terms.specs.declared.refusal.Refusal.TheVariants.{Content};
ghost use Rattle.outcome_terms.specs.Reading.{Reading, given, names_read, read_blob};
ghost use Rattle.outcome_terms.specs.Stores.{Follows, Exactly};
ghost use Rattle.records.specs.Stores.{Store};
ghost use Rattle.outcome_terms.specs.Along.{along};
ghost use Rattle.outcome_terms.specs.TitleCommand.{title_made, told_title, hindrance_refusal, title};
ghost use Rattle.outcome_terms.specs.PackageCommand.{packaged, package_};
ghost use Rattle.outcome_terms.specs.PackagingReports.{IsMadeTitle, IsMadePlaylist};

use shelf_terms::BLOB_LIMIT;

/// A reading along a list is followed item by item, and the first item that is refused ends it.
pub fn readings_go_along()
    ensures goes_on { (step : List (List ℕ) → ℕ → Reading (List (List ℕ)))
        (made so_far more : List (List ℕ)) (xs : List ℕ) (i x : ℕ) (s t u : Store)
        → slice_get xs i ≡ Some x → Follows (along step made (take i xs)) s t (Ok so_far)
        → Follows (step so_far x) t u (Ok more)
        → Follows (along step made (take (i + 1) xs)) s u (Ok more) }
    ensures stops { (step : List (List ℕ) → ℕ → Reading (List (List ℕ)))
        (made so_far : List (List ℕ)) (xs : List ℕ) (i x : ℕ) (e : Refusal) (s t u : Store)
        → slice_get xs i ≡ Some x → Follows (along step made (take i xs)) s t (Ok so_far)
        → Follows (step so_far x) t u (Err e)
        → Follows (along step made xs) s u (Err e) }
{}

/// Over a map of blobs the reading of a title gives the title of the held variants, or the first thing in order that stands in
/// the way, where each variant is looked at by itself.
pub fn titles_are_made()
    ensures { (blobs : Blobs) (d : Design) (p : Playlist)
        → given blobs (title_made d p) ≡ told_title d (made BLOB_LIMIT blobs d p) }
{}

/// What a done `title` and a done `package` say of the blobs and the text.
pub fn done_packaging()
    ensures title { (blobs : Blobs) (design source out text : List ℕ)
        → given blobs (title design source out) ≡ Ok (Exactly text)
        → IsMadeTitle blobs design source out text }
    ensures playlist { (blobs : Blobs) (name register licensee out text : List ℕ)
        → given blobs (package_ name register licensee out) ≡ Ok (Exactly text)
        → IsMadePlaylist blobs name register licensee out text }
{}

/// How `title` ends over a map of blobs, in the order in which its refusals come.
pub fn titles_end()
    ensures same_name { (blobs : Blobs) (design source out : List ℕ)
        → (bytes_eq out design || bytes_eq out source) ≡ true
        → given blobs (title design source out) ≡ Err (Content (SameName out)) }
    ensures design_unread { (blobs : Blobs) (design source out : List ℕ) (e : Refusal)
        → (bytes_eq out design || bytes_eq out source) ≡ false
        → read_blob blobs design ≡ Err e → given blobs (title design source out) ≡ Err e }
    ensures bad_design { (blobs : Blobs) (design source out bytes : List ℕ) (fault : DesignFault)
        → (bytes_eq out design || bytes_eq out source) ≡ false
        → read_blob blobs design ≡ Ok bytes → design_of bytes ≡ Err fault
        → given blobs (title design source out) ≡ Err (Content (BadDesign fault)) }
    ensures source_unread { (blobs : Blobs) (design source out bytes : List ℕ) (d : Design)
        (e : Refusal) → (bytes_eq out design || bytes_eq out source) ≡ false
        → read_blob blobs design ≡ Ok bytes → design_of bytes ≡ Ok d
        → read_blob blobs source ≡ Err e
        → given blobs (title design source out) ≡ Err e }
    ensures bad_playlist { (blobs : Blobs) (design source out bytes text : List ℕ) (d : Design)
        (at : LineFault) → (bytes_eq out design || bytes_eq out source) ≡ false
        → read_blob blobs design ≡ Ok bytes → design_of bytes ≡ Ok d
        → read_blob blobs source ≡ Ok text → playlist_of text ≡ Err at
        → given blobs (title design source out) ≡ Err (Content (BadPlaylist at)) }
    ensures hindered { (blobs : Blobs) (design source out bytes text : List ℕ) (d : Design)
        (p : Playlist) (h : Hindrance) → (bytes_eq out design || bytes_eq out source) ≡ false
        → read_blob blobs design ≡ Ok bytes → design_of bytes ≡ Ok d
        → read_blob blobs source ≡ Ok text → playlist_of text ≡ Ok p
        → made BLOB_LIMIT blobs d p ≡ Err h
        → given blobs (title design source out) ≡ Err (hindrance_refusal d h) }
    ensures done { (blobs : Blobs) (design source out bytes text : List ℕ) (d : Design)
        (p : Playlist) (t : Title) → (bytes_eq out design || bytes_eq out source) ≡ false
        → read_blob blobs design ≡ Ok bytes → design_of bytes ≡ Ok d
        → read_blob blobs source ≡ Ok text → playlist_of text ≡ Ok p
        → made BLOB_LIMIT blobs d p ≡ Ok t
        → given blobs (title design source out) ≡ Ok (Exactly (title_text t)) }
{}

/// How `package` ends over a map of blobs, in the order in which its refusals come.
pub fn packages_end()
    ensures same_name { (blobs : Blobs) (name register licensee out : List ℕ)
        → (bytes_eq out name || bytes_eq out register) ≡ true
        → given blobs (package_ name register licensee out) ≡ Err (Content (SameName out)) }
    ensures title_unread { (blobs : Blobs) (name register licensee out : List ℕ) (e : Refusal)
        → (bytes_eq out name || bytes_eq out register) ≡ false
        → read_blob blobs name ≡ Err e → given blobs (package_ name register licensee out) ≡ Err e }
    ensures bad_title { (blobs : Blobs) (name register licensee out bytes : List ℕ)
        (at : TitleFault) → (bytes_eq out name || bytes_eq out register) ≡ false
        → read_blob blobs name ≡ Ok bytes → title_of bytes ≡ Err at
        → given blobs (package_ name register licensee out) ≡ Err (Content (BadTitle at)) }
    ensures register_unread { (blobs : Blobs) (name register licensee out bytes : List ℕ)
        (t : Title) (e : Refusal) → (bytes_eq out name || bytes_eq out register) ≡ false
        → read_blob blobs name ≡ Ok bytes → title_of bytes ≡ Ok t → read_blob blobs register ≡ Err e
        → given blobs (package_ name register licensee out) ≡ Err e }
    ensures bad_register { (blobs : Blobs) (name register licensee out bytes text : List ℕ)
        (t : Title) (at : RegisterFault) → (bytes_eq out name || bytes_eq out register) ≡ false
        → read_blob blobs name ≡ Ok bytes → title_of bytes ≡ Ok t
        → read_blob blobs register ≡ Ok text → register_of text ≡ Err at
        → given blobs (package_ name register licensee out) ≡ Err (Content (BadRegister at)) }
    ensures ready { (blobs : Blobs) (name register licensee out bytes text : List ℕ) (t : Title)
        (e : Enrolment) → (bytes_eq out name || bytes_eq out register) ≡ false
        → read_blob blobs name ≡ Ok bytes → title_of bytes ≡ Ok t
        → read_blob blobs register ≡ Ok text → register_of text ≡ Ok e
        → given blobs (package_ name register licensee out) ≡ given blobs (packaged t e licensee) }
    ensures mismatch { (blobs : Blobs) (t : Title) (e : Enrolment) (licensee : List ℕ)
        → fits t e ≡ false
        → given blobs (packaged t e licensee)
        ≡ Err (Content (Mismatch t.design.bits t.design.dimension e.bits e.dimension)) }
    ensures unknown { (blobs : Blobs) (t : Title) (e : Enrolment) (licensee : List ℕ)
        → fits t e ≡ true → serial_of (names_of e.licensees) licensee ≡ None
        → given blobs (packaged t e licensee) ≡ Err (Content (Unknown licensee)) }
    ensures withdrawn { (blobs : Blobs) (t : Title) (e : Enrolment) (licensee : List ℕ)
        (serial : ℕ) → fits t e ≡ true → serial_of (names_of e.licensees) licensee ≡ Some serial
        → is_active e serial ≡ false
        → given blobs (packaged t e licensee) ≡ Err (Content (Withdrawn licensee)) }
    ensures done { (blobs : Blobs) (t : Title) (e : Enrolment) (licensee : List ℕ) (serial : ℕ)
        → fits t e ≡ true → serial_of (names_of e.licensees) licensee ≡ Some serial
        → is_active e serial ≡ true
        → given blobs (packaged t e licensee) ≡ Ok (Exactly (licensed_text t e serial)) }
{}

/// Which blobs a done `title` and a `package` with a good title and a good register read, in order.
pub fn packaging_reads()
    ensures title { (blobs : Blobs) (design source out bytes text : List ℕ) (d : Design)
        (p : Playlist) (t : Title) → (bytes_eq out design || bytes_eq out source) ≡ false
        → read_blob blobs design ≡ Ok bytes → design_of bytes ≡ Ok d
        → read_blob blobs source ≡ Ok text → playlist_of text ≡ Ok p
        → given blobs (title_made d p) ≡ Ok t
        → names_read blobs (title design source out)
        ≡ design ∷ source ∷ map (blob_of d) (variants d) }
    ensures playlist { (blobs : Blobs) (name register licensee out bytes text : List ℕ)
        (t : Title) (e : Enrolment) → (bytes_eq out name || bytes_eq out register) ≡ false
        → read_blob blobs name ≡ Ok bytes → title_of bytes ≡ Ok t
        → read_blob blobs register ≡ Ok text → register_of text ≡ Ok e
        → names_read blobs (package_ name register licensee out) ≡ name ∷ register ∷ [] }
{}
