//! The laws of media playlists and their texts: each is the contract of a function that does nothing.

ghost use Rattle.std.specs.Prelude.{◌≡◌, ℕ, true, false, List, [], ◌∷◌, ◌++◌, map, replicate, codes, Some, Ok, Err};
ghost use Rattle.playlist_terms.specs.Durations.{duration_of};
ghost use Rattle.playlist_terms.specs.TagValues.{whole_number_of};
ghost use Rattle.playlist_terms.specs.Playlists.{Playlist, IsPlaylist, playlist_text};
ghost use Rattle.playlist_terms.specs.Reading.{playlist_of, at_line};
ghost use Rattle.playlist_terms.specs.Pair.{segment, playlist, pair, pair_with, pair_text, first_lines_read};
ghost use Rattle.playlist_terms.specs.declared.fault.PlaylistFault.TheVariants.{NotM3u, Utf8, Number, Repeat, TwoDurations, NoDuration, NoUri, BadUri, Encrypted, Unsupported, NoTarget, NoEnd};

/// Small playlists, worked out by the definitions.
pub fn worked_examples()
    ensures written { playlist_text pair ≡ pair_text (codes "6.000000,") [] }
    ensures read { playlist_of (pair_text (codes "6.000000,") []) ≡ Ok pair }
    ensures long_fraction { playlist_of (pair_text (codes "5.9999999,") [])
        ≡ Ok (pair_with 5999999 false) }
    ensures cut { playlist_of (pair_text (codes "6.000000,") (codes "#EXT-X-DISCONTINUITY\n"))
        ≡ Ok (pair_with 6000000 true) }
    ensures short_fraction { duration_of (codes "7.5,a title") ≡ Some 7500000 }
    ensures many_digits { whole_number_of (codes "00018446744073709551") ≡ Some 18446744073709551 }
    // Carriage returns, comments, an empty line, spaces, tags in another order, and no line feed at the end.
    ensures loose { playlist_of (codes
        "#EXTM3U\r\n#EXT-X-TARGETDURATION:6\r\n#EXT-X-ENDLIST\r\n# a comment\r\n\r\n  \n#EXT-X-VERSION:3\r\n#EXTINF:6,\r\ns0.ts\r") ≡ Ok (playlist (segment 6000000 (codes "s0.ts") false ∷ [])) }
    // A cut is for one segment.
    ensures one_cut { playlist_of
        (codes "#EXTM3U\n#EXT-X-VERSION:3\n#EXT-X-TARGETDURATION:6\n#EXT-X-DISCONTINUITY\n#EXTINF:6\na\n#EXTINF:6\nb\n#EXT-X-ENDLIST\n") ≡ Ok (playlist (segment 6000000 (codes "a") true ∷ segment 6000000 (codes "b") false ∷ [])) }
{}

/// Small faults, worked out by the definitions.
pub fn worked_faults()
    ensures empty { playlist_of [] ≡ Err (at_line 1 NotM3u) }
    ensures byte_order_mark { playlist_of (239 ∷ 187 ∷ 191 ∷ codes "#EXTM3U\n")
        ≡ Err (at_line 1 NotM3u) }
    ensures no_uri { playlist_of (codes
        "#EXTM3U\n#EXT-X-TARGETDURATION:6\n#EXTINF:6,\n#EXT-X-ENDLIST\n") ≡ Err (at_line 3 NoUri) }
    ensures encrypted { playlist_of
        (codes "#EXTM3U\n#EXT-X-TARGETDURATION:6\n#EXT-X-KEY:METHOD=AES-128,URI=\"k\"\n#EXT-X-ENDLIST\n") ≡ Err (at_line 3 Encrypted) }
    ensures initialisation { playlist_of
        (codes "#EXTM3U\n#EXT-X-VERSION:3\n#EXT-X-MAP:URI=\"init.mp4\"\n#EXT-X-ENDLIST\n")
        ≡ Err (at_line 3 Unsupported) }
    // That a tag stands again comes before its value.
    ensures repeated { playlist_of (codes "#EXTM3U\n#EXT-X-VERSION:3\n#EXT-X-VERSION:x\n")
        ≡ Err (at_line 3 Repeat) }
    ensures started_again { playlist_of (codes "#EXTM3U\n#EXTM3U:x\n") ≡ Err (at_line 2 Repeat) }
    ensures no_version { playlist_of (codes "#EXTM3U\n#EXT-X-VERSION:0\n")
        ≡ Err (at_line 2 Number) }
    ensures event { playlist_of (codes "#EXTM3U\n#EXT-X-PLAYLIST-TYPE:EVENT\n")
        ≡ Err (at_line 2 Unsupported) }
    ensures two_durations { playlist_of (codes "#EXTM3U\n#EXTINF:6,\n#EXTINF:x,\n")
        ≡ Err (at_line 3 TwoDurations) }
    ensures bad_duration { playlist_of (codes "#EXTM3U\n#EXTINF:,\n") ≡ Err (at_line 2 Number) }
    ensures no_duration { playlist_of (codes "#EXTM3U\n#EXTINF:6,\na\nb\n")
        ≡ Err (at_line 4 NoDuration) }
    ensures bad_uri { playlist_of (codes "#EXTM3U\n#EXTINF:6,\na\tb\n") ≡ Err (at_line 3 BadUri) }
    ensures no_target { playlist_of (codes "#EXTM3U\n#EXTINF:6,\na\n") ≡ Err (at_line 0 NoTarget) }
    ensures garbled { playlist_of (codes "#EXTM3U\n" ++ 255 ∷ []) ≡ Err (at_line 2 Utf8) }
    // Nothing that comes later takes the place of the first fault.
    ensures first { playlist_of (codes "#EXTM3U\n#EXTINF:,\n#EXT-X-MAP:x\n")
        ≡ Err (at_line 2 Number) }
    ensures end_within { playlist_of (codes "#EXTM3U\n#EXT-X-TARGETDURATION:6\n#EXT-X-ENDL")
        ≡ Err (at_line 0 NoEnd) }
{}

/// A playlist that breaks off behind one of its lines: which line has the fault then, and which it is.
pub fn cut_texts()
    ensures nothing { first_lines_read 0 ≡ Err (at_line 1 NotM3u) }
    ensures no_target { map first_lines_read (1 ∷ 2 ∷ []) ≡ replicate 2 (Err (at_line 0 NoTarget)) }
    ensures no_uri { map first_lines_read (6 ∷ 8 ∷ 10 ∷ [])
        ≡ Err (at_line 6 NoUri) ∷ Err (at_line 8 NoUri) ∷ Err (at_line 10 NoUri) ∷ [] }
    ensures no_end { map first_lines_read (3 ∷ 4 ∷ 5 ∷ 7 ∷ 9 ∷ 11 ∷ [])
        ≡ replicate 6 (Err (at_line 0 NoEnd)) }
    ensures whole { first_lines_read 12 ≡ Ok pair }
{}

/// The text of a playlist is read as that playlist.
pub fn texts_are_read()
    ensures { (p : Playlist) → IsPlaylist p → playlist_of (playlist_text p) ≡ Ok p }
{}

/// A list that is read is one that is allowed.
pub fn read_lists_are_allowed()
    ensures { (bytes : List ℕ) (p : Playlist) → playlist_of bytes ≡ Ok p → IsPlaylist p }
{}
