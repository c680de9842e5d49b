//! What is proved of reports on copies.

ghost use Rattle.std.specs.Prelude.{ℕ, List, Some};
ghost use Rattle.shelf_terms.specs.Blobs.{Blobs};
ghost use Rattle.outcome_terms.specs.TraceReports.{IsTraceReport};
ghost use Rattle.copy_reports.specs.TracedCopies.{TracesExplained, TracesPackaged};

/// A report on a copy names only members of each coalition of at most c licensees that explains the copy's word, and names somebody.
/// So it does where the blobs keep the title and each segment of the copy is one that `package` gives to some member.
pub fn traced_copies()
    ensures explained { (blobs : Blobs) (title register copy : List ℕ) (c : ℕ) (text : List ℕ)
        → IsTraceReport blobs title register copy c text
        → TracesExplained (Some blobs) title register copy c }
    ensures packaged { (blobs : Blobs) (title register copy : List ℕ) (c : ℕ) (text : List ℕ)
        → IsTraceReport blobs title register copy c text
        → TracesPackaged (Some blobs) title register copy c }
{}
