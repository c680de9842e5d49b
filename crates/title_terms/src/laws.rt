//! The laws of designs and titles: each is the contract of a function that does nothing.

ghost use Rattle.std.specs.Prelude.{◌↔◌, ◌≡◌, ◌+◌, ℕ, true, false, List, [], ◌∷◌, ◌++◌, length, map, take, replicate, set, slice_index_or, codes, Some, None, Ok, Err, IsOk};
ghost use Rattle.std.specs.List.{flat_map, range_with_len};
ghost use Rattle.form_terms.specs.TextLines.{line};
ghost use Rattle.form_terms.specs.Forms.{fault};
ghost use Rattle.decoding_terms.specs.Parameters.{is_light};
ghost use Rattle.title_terms.specs.Designs.{Design, IsDesign, variant_name, is_affix, are_enough, have_room};
ghost use Rattle.title_terms.specs.DesignRules.{Proposal, proposal, design_from};
ghost use Rattle.title_terms.specs.DesignText.{design_of};
ghost use Rattle.title_terms.specs.Film.{film_design, film_lines, film_with, film_with_two, designed};
ghost use Rattle.title_terms.specs.declared.fault.Key.TheVariants as keys;
ghost use Rattle.title_terms.specs.declared.fault.DesignFault.TheVariants.{NotToml, Missing, WrongType, BadName, BadM, BadK, BadBound, TooMuchWork, BadPrefix, BadSuffix, BadMarked, TooManyPlaces, TooWeak};
ghost use Rattle.title_terms.specs.Titles.{Title, IsTitle};
ghost use Rattle.title_terms.specs.TitleText.{title_of, title_text, segment_said, segment_text};
ghost use Rattle.title_terms.specs.Pair.{pair_lines, pair_title, first_lines_read, read_with};
ghost use Rattle.title_terms.specs.declared.fault.TitleKind.TheVariants as kinds;

/// Names of variants and lines of titles, worked out by the definitions.
pub fn worked_examples()
    ensures variant { variant_name
        (record {
          name = codes "pair";
          bits = 4;
          dimension = 2;
          bound = 1;
          prefix = codes "v/";
          suffix = codes ".ts";
          marked = 0 ∷ 2 ∷ [];
        }) 1 15 ≡ codes "v/1-0f.ts" }
    ensures segment { segment_said (codes "1 4500000 a b")
        ≡ Some (record { micros = 4500000; uri = codes "a b"; cut = true }) }
    ensures no_cut { segment_said (codes "2 4500000 a") ≡ None }
    ensures leading_zero { segment_said (codes "0 04500000 a") ≡ None }
    ensures one_place_too_few { are_enough 2 3 9 ≡ false }
    ensures places_enough { are_enough 2 3 10 ≡ true }
    ensures places_full { have_room 4 16 ≡ true }
    ensures heavy { is_light 3 7 ≡ false }
    ensures affix { is_affix (codes "v 1") ≡ false }
{}

/// Small faults, worked out by the definitions.
pub fn worked_faults()
    ensures empty { title_of [] ≡ Err (fault 1 kinds.Form) }
    ensures cut_between { title_of (codes "title 1\nname pair\nm 4\n") ≡ Err (fault 4 kinds.Form) }
    ensures cut_within { title_of (codes "title 1\nname pair\nm 4\nk 2")
        ≡ Err (fault 4 kinds.Form) }
    ensures name { title_of (codes "title 1\nname a b\n") ≡ Err (fault 2 kinds.Rule) }
    ensures no_text { title_of (codes "title 1\nname " ++ (255 ∷ 10 ∷ []))
        ≡ Err (fault 2 kinds.Form) }
    ensures bits { title_of (codes "title 1\nname pair\nm 9\nk 2\n") ≡ Err (fault 3 kinds.Rule) }
    ensures heavy { title_of (codes "title 1\nname pair\nm 4\nk 3\nc 7\n")
        ≡ Err (fault 5 kinds.Rule) }
    ensures too_few { title_of (codes
        "title 1\nname pair\nm 4\nk 2\nc 1\nprefix v/\nsuffix .ts\nversion 3\ntarget 6\nsequence 0\nsegments 1\n0 6000000 s0.ts\nmarked 1\n") ≡ Err (fault 13 kinds.Rule) }
    ensures past_the_segments { title_of
        (codes "title 1\nname pair\nm 4\nk 2\nc 1\nprefix v/\nsuffix .ts\nversion 3\ntarget 6\nsequence 0\nsegments 1\n0 6000000 s0.ts\nmarked 2\n0\n1\n") ≡ Err (fault 15 kinds.Rule) }
    ensures not_above { title_of (codes
        "title 1\nname pair\nm 4\nk 2\nc 1\nprefix v/\nsuffix .ts\nversion 3\ntarget 6\nsequence 0\nsegments 1\n0 6000000 s0.ts\nmarked 2\n0\n0\n") ≡ Err (fault 15 kinds.Rule) }
{}

/// The text of the small title, line by line.
pub fn worked_title()
    ensures lines { length pair_lines ≡ 49 }
    ensures written { title_text pair_title ≡ flat_map line pair_lines }
    ensures read { title_of (flat_map line pair_lines) ≡ Ok pair_title }
{}

/// A title that breaks off behind one of its lines: the next line is missing.
pub fn cut_texts()
    ensures cut { map first_lines_read (range_with_len 0 49)
        ≡ map (λ n. Err (fault (n + 1) kinds.Form)) (range_with_len 0 49) }
    ensures no_line_feed { title_of (flat_map line (take 48 pair_lines)
        ++ slice_index_or pair_lines 48 []) ≡ Err (fault 49 kinds.Form) }
    ensures one_more { title_of (flat_map line (pair_lines ++ codes "x" ∷ []))
        ≡ Err (fault 50 kinds.Form) }
    ensures bytes_behind { title_of (flat_map line pair_lines ++ codes "x")
        ≡ Err (fault 50 kinds.Form) }
{}

/// Each kind of line with each kind of fault that it can have.
pub fn faults_of_each_line()
    ensures edition { read_with 1 (codes "title 2") ≡ Err (fault 1 kinds.Form) }
    ensures name_word { read_with 2 (codes "nam pair") ≡ Err (fault 2 kinds.Form) }
    ensures name_rule { map (read_with 2) (codes "name " ∷ codes "name a b" ∷ [])
        ≡ replicate 2 (Err (fault 2 kinds.Rule)) }
    ensures bits_form { map (read_with 3) (codes "m" ∷ codes "m " ∷ codes "m 04" ∷ codes "m +4"
        ∷ codes "m 4 " ∷ []) ≡ replicate 5 (Err (fault 3 kinds.Form)) }
    ensures bits_rule { map (read_with 3) (codes "m 3" ∷ codes "m 9" ∷ [])
        ≡ replicate 2 (Err (fault 3 kinds.Rule)) }
    ensures dimension_rule { map (read_with 4) (codes "k 1" ∷ codes "k 14" ∷ [])
        ≡ replicate 2 (Err (fault 4 kinds.Rule)) }
    ensures bound_rule { map (read_with 5) (codes "c 0" ∷ codes "c 9" ∷ [])
        ≡ replicate 2 (Err (fault 5 kinds.Rule)) }
    ensures prefix_rule { read_with 6 (codes "prefix v v") ≡ Err (fault 6 kinds.Rule) }
    ensures suffix_form { map (read_with 7) (codes "suffix" ∷ (codes "suffix " ++ 255 ∷ []) ∷ [])
        ≡ replicate 2 (Err (fault 7 kinds.Form)) }
    ensures suffix_rule { read_with 7 (codes "suffix .ts!") ≡ Err (fault 7 kinds.Rule) }
    ensures version_rule { map (read_with 8) (codes "version 0" ∷ codes "version 65536" ∷ [])
        ≡ replicate 2 (Err (fault 8 kinds.Rule)) }
    ensures target_rule { read_with 9 (codes "target 18446744073709551616")
        ≡ Err (fault 9 kinds.Rule) }
    ensures sequence_rule { read_with 10 (codes "sequence 18446744073709551616")
        ≡ Err (fault 10 kinds.Rule) }
    // From 2^128 on the digits are no number.
    ensures sequence_form { read_with 10 (codes "sequence 340282366920938463463374607431768211456")
        ≡ Err (fault 10 kinds.Form) }
    ensures segments_rule { read_with 11 (codes "segments 100001") ≡ Err (fault 11 kinds.Rule) }
    ensures fewer_segments { read_with 11 (codes "segments 2") ≡ Err (fault 14 kinds.Form) }
    ensures segment_form { map (read_with 12) (codes "2 6000000 s0.ts" ∷ codes "0 6000000"
        ∷ codes "0 06000000 s0.ts" ∷ codes "0,6000000,s0.ts" ∷ (codes "0 6000000 " ++ 255 ∷ [])
        ∷ []) ≡ replicate 5 (Err (fault 12 kinds.Form)) }
    ensures segment_rule { map (read_with 12) (codes "0 6000000 " ∷ codes "0 6000000 #s"
        ∷ codes "0 6000000   " ∷ codes "0 10000000000000000 s0.ts" ∷ [])
        ≡ replicate 4 (Err (fault 12 kinds.Rule)) }
    ensures marked_rule { map (read_with 15) (codes "marked 1" ∷ codes "marked 17" ∷ [])
        ≡ replicate 2 (Err (fault 15 kinds.Rule)) }
    ensures mark_form { read_with 16 (codes "x") ≡ Err (fault 16 kinds.Form) }
    ensures mark_rule { map (read_with 17) (codes "0" ∷ codes "3" ∷ [])
        ≡ replicate 2 (Err (fault 17 kinds.Rule)) }
{}

/// The lines of digests with each kind of fault.
pub fn faults_of_digests()
    ensures upper_case { read_with 18
        (codes "BA7816BF8F01CFEA414140DE5DAE2223B00361A396177A9CB410FF61F20015AD")
        ≡ Err (fault 18 kinds.Form) }
    ensures short { read_with 18 (codes
        "ba7816bf8f01cfea414140de5dae2223b00361a396177a9cb410ff61f20015a")
        ≡ Err (fault 18 kinds.Form) }
    ensures no_digit { read_with 18
        (codes "ba7816bf8f01cfea414140de5dae2223b00361a396177a9cb410ff61f20015ag")
        ≡ Err (fault 18 kinds.Form) }
    ensures next { read_with 19 (codes
        "ba7816bf8f01cfea414140de5dae2223b00361a396177a9cb410ff61f20015ad")
        ≡ Err (fault 19 kinds.Duplicate) }
    ensures last { read_with 49 (codes
        "ba7816bf8f01cfea414140de5dae2223b00361a396177a9cb410ff61f20015ad")
        ≡ Err (fault 49 kinds.Duplicate) }
{}

/// A text is read as a title exactly where it is the text of that title, and the title is valid.
///
/// So what is written is read again as itself, and no text is that of two titles.
pub fn texts_are_titles()
    ensures { (bytes : List ℕ) (t : Title)
        → (title_of bytes ≡ Ok t) ↔ (IsTitle t × (bytes ≡ title_text t)) }
{}

/// A small design, read from its document and from other spellings of it.
pub fn worked_designs()
    ensures film { designed film_lines ≡ Ok film_design }
    ensures spelled_otherwise { designed
        (codes "marked = [0, 1, 2, 3,\r\n  4, 5, 6, 7, 8, 0x9, ] # all" ∷ codes "\"m\" = 0x0_4"
        ∷ codes "k=+2" ∷ codes "c = 0b11" ∷ codes "prefix = 'v/'" ∷ codes "suffix = \"\\u002ets\""
        ∷ codes "name = \"\"\"film\"\"\"" ∷ codes "title = 1" ∷ codes "[more]" ∷ codes "m = 9"
        ∷ []) ≡ Ok film_design }
{}

/// What is wrong with documents before any rule is tested.
pub fn faults_of_documents()
    ensures twice { designed (film_with 1 (codes "m = 4\nm = 4")) ≡ Err NotToml }
    ensures wide { designed (film_with 1 (codes "m = 99999999999999999999")) ≡ Err NotToml }
    ensures garbled { designed (film_with 0 (codes "name = \"" ++ (255 ∷ codes "\"")))
        ≡ Err NotToml }
    ensures not_closed { designed (film_with 6 (codes "marked = [0")) ≡ Err NotToml }
    ensures empty { design_of [] ≡ Err (Missing keys.Name) }
    ensures missing { map (λ key. designed (film_with key [])) (range_with_len 0 7)
        ≡ map (λ key. Err (Missing key))
        (keys.Name ∷ keys.M ∷ keys.K ∷ keys.C ∷ keys.Prefix ∷ keys.Suffix ∷ keys.Marked ∷ []) }
    ensures wrong_type { map designed (film_with 0 (codes "name = 1")
        ∷ film_with 1 (codes "m = 4.0") ∷ film_with 2 (codes "k = \"2\"")
        ∷ film_with 3 (codes "c = true") ∷ film_with 4 (codes "prefix = []")
        ∷ film_with 5 (codes "suffix.x = \".ts\"") ∷ film_with 6 (codes "marked = 0") ∷ [])
        ≡ map (λ key. Err (WrongType key))
        (keys.Name ∷ keys.M ∷ keys.K ∷ keys.C ∷ keys.Prefix ∷ keys.Suffix ∷ keys.Marked ∷ []) }
    ensures table { designed (film_with 1 (codes "m.x = 4")) ≡ Err (WrongType keys.M) }
{}

/// Each rule of a design, and the values next to its bounds.
pub fn faults_of_values()
    ensures name { map designed (film_with 0 (codes "name = \"\"")
        ∷ film_with 0 (codes "name = \"a b\"") ∷ []) ≡ replicate 2 (Err BadName) }
    ensures bits { map designed (film_with 1 (codes "m = 3") ∷ film_with 1 (codes "m = 9")
        ∷ film_with 1 (codes "m = -4") ∷ film_with 1 (codes "m = 4294967300") ∷ [])
        ≡ replicate 4 (Err BadM) }
    ensures dimension { map designed (film_with 2 (codes "k = 1") ∷ film_with 2 (codes "k = 14")
        ∷ film_with 2 (codes "k = -2") ∷ []) ≡ replicate 3 (Err BadK) }
    ensures bound { map designed (film_with 3 (codes "c = 0") ∷ film_with 3 (codes "c = 9")
        ∷ film_with 3 (codes "c = -3") ∷ []) ≡ replicate 3 (Err BadBound) }
    ensures work { designed (film_with_two 2 (codes "k = 3") 3 (codes "c = 7")) ≡ Err TooMuchWork }
    ensures prefix { designed (film_with 4 (codes "prefix = \"v \"")) ≡ Err BadPrefix }
    ensures suffix { designed (film_with 5
        (codes "suffix = \"0123456789012345678901234567890123456789012345678901234567890123.\""))
        ≡ Err BadSuffix }
    ensures no_affix { IsOk (designed
        (film_with_two 4 (codes "prefix = \"\"") 5 (codes "suffix = \"\""))) }
    ensures marked_twice { designed (film_with 6 (codes "marked = [0, 0]")) ≡ Err (BadMarked 1) }
    ensures marked_back { designed (film_with 6 (codes "marked = [0, 2, 1, 0]"))
        ≡ Err (BadMarked 2) }
    ensures marked_past { map designed (film_with 6 (codes "marked = [100000]")
        ∷ film_with 6 (codes "marked = [-1]") ∷ film_with 6 (codes "marked = [\"0\"]")
        ∷ film_with 6 (codes "marked = [0.0]") ∷ []) ≡ replicate 4 (Err (BadMarked 0)) }
    ensures most_marked { IsOk (designed
        (film_with 6 (codes "marked = [0, 1, 2, 3, 4, 5, 6, 7, 8, 9, 10, 11, 12, 13, 14, 99999]"))) }
    ensures too_many { designed (film_with 6
        (codes "marked = [0, 1, 2, 3, 4, 5, 6, 7, 8, 9, 10, 11, 12, 13, 14, 15, 16]"))
        ≡ Err TooManyPlaces }
    ensures too_weak { designed (film_with 6 (codes "marked = [0, 1, 2, 3, 4, 5, 6, 7, 8]"))
        ≡ Err TooWeak }
    ensures none_marked { designed (film_with 6 (codes "marked = []")) ≡ Err TooWeak }
{}

/// Where two things are wrong with a document, which of them is reported.
pub fn first_faults()
    ensures toml_first { designed (film_with_two 0 (codes "name = 1") 1 (codes "m = "))
        ≡ Err NotToml }
    // Each key is looked up whole before the next one.
    ensures key_by_key { designed (film_with_two 0 (codes "name = 1") 1 [])
        ≡ Err (WrongType keys.Name) }
    ensures missing_first { designed (film_with_two 0 [] 1 (codes "m = \"\""))
        ≡ Err (Missing keys.Name) }
    ensures keys_before_rules { designed
        (film_with_two 0 (codes "name = \"\"") 6 (codes "marked = 0"))
        ≡ Err (WrongType keys.Marked) }
    ensures name_before_bits { designed (film_with_two 0 (codes "name = \"\"") 1 (codes "m = 9"))
        ≡ Err BadName }
    ensures bits_before_dimension { designed (film_with_two 1 (codes "m = 9") 2 (codes "k = 1"))
        ≡ Err BadM }
    ensures dimension_before_bound { designed (film_with_two 2 (codes "k = 1") 3 (codes "c = 0"))
        ≡ Err BadK }
    ensures bound_before_work { designed (film_with_two 2 (codes "k = 3") 3 (codes "c = 9"))
        ≡ Err BadBound }
    ensures bound_before_prefix { designed
        (film_with_two 3 (codes "c = 0") 4 (codes "prefix = \"v \"")) ≡ Err BadBound }
    ensures work_before_prefix { designed
        (set (film_with_two 2 (codes "k = 3") 3 (codes "c = 7")) 4 (codes "prefix = \"v \""))
        ≡ Err TooMuchWork }
    ensures prefix_before_suffix { designed
        (film_with_two 4 (codes "prefix = \"v \"") 5 (codes "suffix = \" \"")) ≡ Err BadPrefix }
    ensures suffix_before_marked { designed
        (film_with_two 5 (codes "suffix = \" \"") 6 (codes "marked = [0, 0]")) ≡ Err BadSuffix }
    ensures marked_before_places { designed
        (film_with 6 (codes "marked = [0, 1, 2, 3, 4, 5, 6, 7, 8, 9, 10, 11, 12, 13, 14, 15, 16, 16]")) ≡ Err (BadMarked 17) }
    ensures places_before_weakness { designed (film_with_two 3 (codes "c = 8") 6
        (codes "marked = [0, 1, 2, 3, 4, 5, 6, 7, 8, 9, 10, 11, 12, 13, 14, 15, 16]"))
        ≡ Err TooManyPlaces }
{}

/// Values make a design exactly where they are the values of that design, and the design is valid; so a document says none
/// that is not.
pub fn designs_keep_the_rules()
    ensures exact { (p : Proposal) (d : Design)
        → (design_from p ≡ Ok d) ↔ (IsDesign d × (p ≡ proposal d)) }
    ensures read { (bytes : List ℕ) (d : Design) → design_of bytes ≡ Ok d → IsDesign d }
{}
