//! The laws of packaging: each is the contract of a function that does nothing.

ghost use Rattle.std.specs.Prelude.{◌≡◌, ◌<◌, ◌*◌, ◌^◌, ℕ, true, false, List, [], ◌∷◌, ◌++◌, slice_get, slice_index, codes, Option, Some, None, Ok, Err, length, replicate};
ghost use Rattle.form_terms.specs.Forms.{fault};
ghost use Rattle.register_terms.specs.Enrolment.{Enrolment, message_of};
ghost use Rattle.shelf_terms.specs.Blobs.{Blobs};
ghost use Rattle.playlist_terms.specs.Playlists.{PlaylistSegment, Playlist, IsPlaylist, playlist_lines};
ghost use Rattle.playlist_terms.specs.Reading.{playlist_of, at_line};
ghost use Rattle.playlist_terms.specs.Pair.{pair_with, segment};
ghost use Rattle.playlist_terms.specs.declared.fault.PlaylistFault.TheVariants.{NoUri, NoTarget};
ghost use Rattle.title_terms.specs.Designs.{Design, IsDesign, places, symbols, variant_name};
ghost use Rattle.title_terms.specs.Titles.{Title, IsTitle};
ghost use Rattle.title_terms.specs.Pair.{pair_title};
ghost use Rattle.title_terms.specs.declared.fault.TitleKind.TheVariants.{Form};
ghost use Rattle.title_terms.specs.declared.fault.Key.TheVariants as keys;
ghost use Rattle.title_terms.specs.declared.fault.DesignFault.TheVariants.{Missing, WrongType, TooWeak, BadMarked};
ghost use Rattle.packaging_terms.specs.Licensees.{fits, place_of, symbol_at, licensed_list, licensed_text, whole_seconds, raised_target};
ghost use Rattle.packaging_terms.specs.Making.{Hindrance, held_digest, twin, hindrance, made, title_with, HoldsVariant};
ghost use Rattle.packaging_terms.specs.Variants.{unmarkable};
ghost use Rattle.packaging_terms.specs.Pair.{twenty, list_of};
ghost use Rattle.packaging_terms.specs.Film.{distributed, cinemas, first_variants};

/// What two licensees get of the small title, and how targets are raised.
pub fn worked_examples()
    ensures lic16 { licensed_list pair_title twenty 16
        ≡ list_of (codes "v/0-00.ts") (codes "v/1-01.ts") }
    ensures lic17 { licensed_list pair_title twenty 17
        ≡ list_of (codes "v/0-01.ts") (codes "v/1-00.ts") }
    ensures text { licensed_text pair_title twenty 16
        ≡ codes "#EXTM3U\n#EXT-X-VERSION:3\n#EXT-X-TARGETDURATION:6\n#EXT-X-MEDIA-SEQUENCE:0\n#EXT-X-PLAYLIST-TYPE:VOD\n#EXTINF:6.000000,\nv/0-00.ts\n#EXTINF:6.000000,\ns1.ts\n#EXTINF:4.500000,\nv/1-01.ts\n#EXT-X-ENDLIST\n" }
    ensures half { whole_seconds 4500000 ≡ 5 }
    ensures below_half { whole_seconds 4499999 ≡ 4 }
    ensures raised { raised_target (pair_with 7500000 false) ≡ 8 }
    ensures not_raised { raised_target (pair_with 5999999 false) ≡ 6 }
    // A title of an older version, whose segments have durations with a point all the same.
    ensures version { (licensed_list (record pair_title { list = record pair_title.list { version = 1 } }) twenty 16).version ≡ 3 }
    ensures later_version { (licensed_list (record pair_title { list = record pair_title.list { version = 7 } }) twenty 16).version ≡ 7 }
{}

/// What a cinema gets of a film with 900 segments.
pub fn worked_film()
    ensures message { message_of cinemas 7 ≡ 21557 }
    ensures variants { first_variants 7 3
        ≡ codes "v/0-15.ts" ∷ codes "v/1-01.ts" ∷ codes "v/2-09.ts" ∷ [] }
    ensures target { whole_seconds 6006000 ≡ 6 }
    ensures last_marked { slice_get distributed.marked 31 ≡ Some 868 }
    ensures lines { length (playlist_lines (record { version = 3; target = 6; sequence = 0; segments = replicate 900 (segment 6006000 (codes "s.ts") false) })) ≡ 1806 }
{}

/// The text that a licensee gets is read as the list that the licensee gets.
pub fn licensed_texts_are_read()
    ensures { (t : Title) (e : Enrolment) (serial : ℕ) → IsTitle t → fits t e ≡ true
        → playlist_of (licensed_text t e serial) ≡ Ok (licensed_list t e serial) }
{}

/// At each place a licensee's list names the variant of the licensee's symbol, and every other segment stays as it is.
pub fn licensees_get_their_variants()
    ensures marked { (t : Title) (e : Enrolment) (serial place : ℕ) (s : PlaylistSegment)
        → IsTitle t → place < places t.design
        → slice_get t.list.segments (slice_index t.design.marked place) ≡ Some s
        → slice_get (licensed_list t e serial).segments (slice_index t.design.marked place)
        ≡ Some (record s { uri = variant_name t.design place (symbol_at e serial place) }) }
    ensures others { (t : Title) (e : Enrolment) (serial i : ℕ) (s : PlaylistSegment)
        → place_of t.design i ≡ None
        → slice_get t.list.segments i ≡ Some s
        → slice_get (licensed_list t e serial).segments i ≡ Some s }
{}

/// Variants of different places or symbols have different names.
pub fn variants_have_their_own_names()
    ensures place { (d : Design) (i j v w : ℕ) → i < 2 ^ 128 → j < 2 ^ 128 → v < 256 → w < 256
        → variant_name d i v ≡ variant_name d j w → i ≡ j }
    ensures symbol { (d : Design) (i j v w : ℕ) → i < 2 ^ 128 → j < 2 ^ 128 → v < 256 → w < 256
        → variant_name d i v ≡ variant_name d j w → v ≡ w }
{}

/// A title that is made of held variants is valid, has the design and the list that it is made of, and the digest of each variant.
pub fn made_titles_are_valid()
    ensures valid { (limit : ℕ) (blobs : Blobs) (d : Design) (p : Playlist) (t : Title)
        → IsDesign d → IsPlaylist p → made limit blobs d p ≡ Ok t → IsTitle t }
    ensures parts { (limit : ℕ) (blobs : Blobs) (d : Design) (p : Playlist) (t : Title)
        → made limit blobs d p ≡ Ok t → t ≡ title_with d p t.digests }
    ensures held { (limit : ℕ) (blobs : Blobs) (d : Design) (p : Playlist) (t : Title)
        (variant : ℕ) → made limit blobs d p ≡ Ok t → variant < places d * symbols d
        → HoldsVariant limit blobs t variant }
{}

/// A title is not made where a variant stands in the way and no earlier one does; a twin is an earlier variant with the digest.
pub fn first_hindrances()
    ensures first { (limit : ℕ) (blobs : Blobs) (d : Design) (p : Playlist) (variant : ℕ)
        (h : Hindrance) → unmarkable d p ≡ None → variant < places d * symbols d
        → ((earlier : ℕ) → earlier < variant → hindrance limit blobs d earlier ≡ None)
        → hindrance limit blobs d variant ≡ Some h → made limit blobs d p ≡ Err h }
    ensures before { (blobs : Blobs) (d : Design) (variant earlier : ℕ)
        → twin blobs d variant ≡ Some earlier → earlier < variant }
    ensures same { (blobs : Blobs) (d : Design) (variant earlier : ℕ)
        → twin blobs d variant ≡ Some earlier
        → held_digest blobs d earlier ≡ held_digest blobs d variant }
{}
