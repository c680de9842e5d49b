//! What is proved of the definitions alone.

ghost use Rattle.std.specs.Prelude.{◌≡◌, ℕ, ◌^◌, ◌<◌, ◌≤◌, List, [], ◌∷◌, Option, None, Some, codes, length};
ghost use Rattle.code_terms.specs.Words.{three_colluders};
ghost use Rattle.desk_terms.specs.declared.findings.Findings.{Findings};
ghost use Rattle.desk_terms.specs.Findings.{findings};
ghost use Rattle.desk_terms.specs.Report.{report_text};
ghost use Rattle.desk_terms.specs.Roll.{Roll, IsRoll};
ghost use Rattle.report_terms.specs.Examples.{twenty, licensee, first, second, third, found, one_found};
ghost use Rattle.report_terms.specs.Reports.{report_of};
ghost use Rattle.report_terms.specs.Values.{AreReportable};
ghost use Rattle.report_terms.specs.Verdicts.{verdict};
ghost use Rattle.report_terms.specs.declared.verdict.Verdict.TheVariants as verdicts;

/// A report is read again as the findings that it was written from.
pub fn reports_are_read_again()
    ensures { (f : Findings) → AreReportable f → report_of (report_text f) ≡ Some f }
{}

/// What the desk finds can be said in a report.
pub fn findings_are_reportable()
    ensures { (roll : Roll) (word : List (Option ℕ)) (c : ℕ) → IsRoll roll
        → length word ≤ 2 ^ 16 → c < 2 ^ 32 → AreReportable (findings roll word c) }
{}

/// Texts and what they say: a report with other white space, another order, a key twice and one that nobody asked for; no key; a
/// number with a point, one with an exponent, a number below 0 that is 0, a number too large; a name that is not plain.
pub fn worked_readings()
    ensures spelled { report_of
        (codes " {\"bound\":1, \"readable\" : 9,\"readable\":2,\n\"accused\":[{\"serial\":5,\"x\":[],\"places\":[0, 1],\"name\":\"lic5\"}]}")
        ≡ Some one_found }
    ensures no_key { report_of (codes "{}") ≡ None }
    ensures point { report_of (codes "{\"accused\":[],\"bound\":1.0,\"readable\":2}") ≡ None }
    ensures exponent { report_of (codes "{\"accused\":[],\"bound\":1e0,\"readable\":2}") ≡ None }
    ensures minus { report_of (codes "{\"accused\":[],\"bound\":1,\"readable\":-0}") ≡ None }
    ensures large { report_of (codes "{\"accused\":[],\"bound\":1,\"readable\":4294967296}")
        ≡ None }
    ensures name { report_of (codes "{\"accused\":[{\"name\":\"a b\",\"places\":[],\"serial\":0}],\"bound\":1,\"readable\":2}") ≡ None }
{}

/// Verdicts on findings in the word of three colluders, which are the three, and on such with one thing changed: a bound that the
/// word is too short for, another number of readable places, a serial that nobody has, another name, another order, a place left
/// out, a licensee who agrees too little, and a colluder left out.
pub fn worked_verdicts()
    ensures right { verdict twenty three_colluders (found (first ∷ second ∷ third ∷ []))
        ≡ verdicts.Right }
    ensures too_few { verdict twenty three_colluders
        (record { readable = 10; bound = 4; accused = [] }) ≡ verdicts.TooFew 10 }
    ensures readable { verdict twenty three_colluders
        (record { readable = 9; bound = 3; accused = [] }) ≡ verdicts.WrongReadable }
    ensures nobody { verdict twenty three_colluders (found (licensee 20 [] ∷ []))
        ≡ verdicts.NotEnrolled 0 }
    ensures name { verdict twenty three_colluders
        (found (first ∷ record second { name = codes "lic0" } ∷ []))
        ≡ verdicts.NotEnrolled 1 }
    ensures order { verdict twenty three_colluders (found (second ∷ first ∷ third ∷ []))
        ≡ verdicts.Order 1 }
    ensures places { verdict twenty three_colluders
        (found (licensee 0 (0 ∷ 4 ∷ 5 ∷ []) ∷ second ∷ third ∷ [])) ≡ verdicts.WrongPlaces 0 }
    ensures below { verdict twenty three_colluders
        (found (first ∷ second ∷ licensee 2 (2 ∷ []) ∷ third ∷ [])) ≡ verdicts.Below 2 }
    ensures absent { verdict twenty three_colluders (found (first ∷ second ∷ []))
        ≡ verdicts.Absent 16 }
{}
