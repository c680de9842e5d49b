//! The line that a refusal puts out.

ghost use Rattle.std.specs.Prelude.{◌≡◌, ◌≢◌, IfOk};
ghost use Rattle.outcome_terms.specs.Statuses.{line_of};

use outcome_terms::Status;
use lists::Memory;
use std::alloc::Global;

/// The error line of a status: `error`, its number and the detail, with a line feed. The only error is want of memory.
#[tactic(auto, unfolding(outcome_terms::specs::Statuses::line_of))]
pub fn error_line(alloc: Global, status: Status, detail: &str) -> Result<Vec<u8>, Memory>
    requires done { status ≢ Status.Ok }
    requires out { status ≢ Status.OutFault }
    ensures { IfOk result (λ line. line.items ≡ line_of status detail.now) }
{
    let code = status.code();
    let line = format!(in alloc; "error {code} {detail}\n")?;
    Ok(line.into_bytes())
}
