//! What is proved of the definitions alone.

ghost use Rattle.std.specs.Prelude.{◌≡◌, [], ◌∷◌, map, replicate, None, Some, codes, true, false};
ghost use Rattle.code_terms.specs.Words.{readable, three_colluders};
ghost use Rattle.decoding_terms.specs.Parameters.{is_allowed_bound};
ghost use Rattle.decoder_terms.specs.Decoding.{not_enough};
ghost use Rattle.register_terms.specs.Enrolment.{Enrolment, IsValid};
ghost use Rattle.desk_terms.specs.Bounds.{iterative_product_bound, look_bound, product_bound};
ghost use Rattle.desk_terms.specs.Findings.{findings};
ghost use Rattle.desk_terms.specs.Report.{report_text};
ghost use Rattle.desk_terms.specs.Roll.{Entry, IsRoll, roll_of};
ghost use Rattle.desk_terms.specs.Examples.{first_licensees, one_place_lost, three_entries};

/// Findings and reports that were worked out apart from the definitions: three colluders who each meet a third exactly; the same
/// word with one place lost, too few for three and with nobody at half of it; a threshold met exactly; the same word where its
/// licensee is not enrolled; a word whose only readable place is met, and whose other place is lost; which bounds the
/// dimensions 5, 8 and 2 allow; a whole copy of one licensee; and a roll whose messages follow no rule.
pub fn worked_examples()
    ensures three_colluders { report_text
        (findings (roll_of (first_licensees 20)) three_colluders 3)
        ≡ codes "{\"accused\":[{\"name\":\"lic0\",\"places\":[0,4,5,6],\"serial\":0},{\"name\":\"lic1\",\"places\":[1,7,8,9],\"serial\":1},{\"name\":\"lic16\",\"places\":[0,1,2,3],\"serial\":16}],\"bound\":3,\"readable\":10}\n" }
    ensures too_few { readable one_place_lost ≡ 9 }
    ensures nine_not_enough { not_enough 2 3 ≡ 9 }
    ensures nobody { report_text (findings (roll_of (first_licensees 20)) one_place_lost 2)
        ≡ codes "{\"accused\":[],\"bound\":2,\"readable\":9}\n" }
    ensures met_exactly { report_text (findings (roll_of (first_licensees 20)) (Some 5 ∷ Some 5
        ∷ []) 1) ≡ codes "{\"accused\":[{\"name\":\"lic5\",\"places\":[0,1],\"serial\":5}],\"bound\":1,\"readable\":2}\n" }
    ensures not_enrolled { report_text (findings (roll_of (first_licensees 5)) (Some 5 ∷ Some 5
        ∷ []) 1) ≡ codes "{\"accused\":[],\"bound\":1,\"readable\":2}\n" }
    ensures lost_place { report_text (findings (roll_of (first_licensees 20)) (Some 5 ∷ None
        ∷ []) 1) ≡ codes "{\"accused\":[{\"name\":\"lic5\",\"places\":[0],\"serial\":5}],\"bound\":1,\"readable\":1}\n" }
    ensures allowed { map (is_allowed_bound 5) (0 ∷ 1 ∷ 3 ∷ 4 ∷ [])
        ≡ false ∷ true ∷ true ∷ false ∷ [] }
    ensures allowed_of_eight { map (is_allowed_bound 8) (1 ∷ 2 ∷ []) ≡ true ∷ false ∷ [] }
    ensures most_allowed { map (is_allowed_bound 2) (8 ∷ 9 ∷ []) ≡ true ∷ false ∷ [] }
    ensures whole_copy { report_text
        (findings (roll_of (first_licensees 20)) (replicate 16 (Some 0)) 3)
        ≡ codes "{\"accused\":[{\"name\":\"lic0\",\"places\":[0,1,2,3,4,5,6,7,8,9,10,11,12,13,14,15],\"serial\":0}],\"bound\":3,\"readable\":16}\n" }
    ensures no_rule { report_text (findings three_entries three_colluders 3)
        ≡ codes "{\"accused\":[{\"name\":\"u\",\"places\":[0,1,2,3],\"serial\":0},{\"name\":\"w\",\"places\":[0,4,5,6],\"serial\":2}],\"bound\":3,\"readable\":10}\n" }
{}

/// The bounds of traces, worked out apart from the definitions: of ten places against three colluders by each of the two ways to
/// a curve, of two places against one, of 64 places against three, and of 19 with three coefficients by each of the two ways.
pub fn worked_bounds()
    ensures three_colluders { product_bound 10 2 3 ≡ 7257160 }
    ensures three_colluders_iterative { iterative_product_bound 10 2 3 ≡ 1042600 }
    ensures two_places { product_bound 2 2 1 ≡ 9872 }
    ensures many_places { product_bound 64 2 3 ≡ 1899508420 }
    ensures nineteen_places { product_bound 19 3 3 ≡ 2038781334 }
    ensures nineteen_places_iterative { iterative_product_bound 19 3 3 ≡ 59664726 }
    ensures looks { look_bound 10 3 ≡ 13 }
    ensures more_looks { look_bound 64 3 ≡ 67 }
{}

/// The roll of a valid register keeps what every roll keeps.
pub fn registers_have_rolls()
    ensures { (e : Enrolment) → IsValid e → IsRoll (roll_of e) }
{}
