//! The report that a blob holds.

ghost use Rattle.std.specs.Prelude.{IsTrue};
ghost use Rattle.text_terms.specs.Names.{is_name};
ghost use Rattle.report_terms.specs.Reports.{report_of};
ghost use Rattle.outcome_terms.specs.declared.fault.Fault.TheVariants.{BadReport};
ghost use Rattle.outcome_terms.specs.Reading.{found};
ghost use Rattle.outcome_terms.specs.CheckCommand.{findings_under};
ghost use Rattle.outcome_terms.specs.Stores.{Follows, Settles};

use command_io::bytes_under;
use desk_terms::Findings;
use outcome_terms::{Fault, Refusal};
use shelf_io::Shelf;
use std::alloc::Global;
use trace_report::{ReportError, report_read};

/// The findings that the report under a name says.
#[tactic(auto, using(outcome_terms::proofs::Readings::reading_rules), unfolding(outcome_terms::specs::CheckCommand::findings_under))]
pub(crate) fn findings_under<S: Shelf>(
    alloc: Global,
    shelf: &mut S,
    name: &str,
) -> Result<Findings, Refusal>
    requires { IsTrue (is_name name.now) }
    ensures { Follows (findings_under name.now) (S.store shelf.old)
        (S.store shelf.new) result }
{
    let bytes = bytes_under(alloc, shelf, name)?;
    findings_of_bytes(alloc, bytes)
}

/// The findings that the bytes say.
fn findings_of_bytes(alloc: Global, bytes: Vec<u8>) -> Result<Findings, Refusal>
    ensures { Settles result (found BadReport (report_of bytes.items)) }
{
    match report_read(alloc, bytes.as_slice()) {
        Ok(findings) => Ok(findings),
        Err(ReportError::NotReport) => Err(Refusal::Content(Fault::BadReport)),
        Err(ReportError::Memory) => Err(Refusal::Memory),
    }
}
