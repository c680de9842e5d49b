//! A design under a name.

ghost use Rattle.std.specs.Prelude.{IsTrue};
ghost use Rattle.text_terms.specs.Names.{is_name};
ghost use Rattle.title_terms.specs.DesignText.{design_of};
ghost use Rattle.outcome_terms.specs.declared.fault.Fault.TheVariants.{BadDesign};
ghost use Rattle.outcome_terms.specs.Reading.{understood};
ghost use Rattle.outcome_terms.specs.Stores.{Follows, Settles};
ghost use Rattle.outcome_terms.specs.TitleCommand.{design_under};

use command_io::bytes_under;
use designs::{Design, DesignError};
use outcome_terms::{Fault, Refusal};
use shelf_io::Shelf;
use std::alloc::Global;

/// The design that a blob holds.
#[tactic(auto, using(outcome_terms::proofs::Readings::reading_rules), unfolding(outcome_terms::specs::TitleCommand::design_under))]
pub fn design_under<S: Shelf>(alloc: Global, shelf: &mut S, name: &str) -> Result<Design, Refusal>
    requires { IsTrue (is_name name.now) }
    ensures { Follows (design_under name.now) (S.store shelf.old)
        (S.store shelf.new) result }
{
    let bytes = bytes_under(alloc, shelf, name)?;
    design_of_bytes(alloc, bytes)
}

/// The design that the bytes say.
fn design_of_bytes(alloc: Global, bytes: Vec<u8>) -> Result<Design, Refusal>
    ensures { Settles result (understood BadDesign (design_of bytes.items)) }
{
    match Design::read(alloc, bytes.as_slice()) {
        Ok(design) => Ok(design),
        Err(DesignError::NotDesign(fault)) => Err(Refusal::Content(Fault::BadDesign(fault))),
        Err(DesignError::Memory) => Err(Refusal::Memory),
    }
}
