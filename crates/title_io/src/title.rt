//! A title under a name.

ghost use Rattle.std.specs.Prelude.{◌<◌, ◌^◌, length, IsTrue};
ghost use Rattle.text_terms.specs.Names.{is_name};
ghost use Rattle.title_terms.specs.TitleText.{title_of};
ghost use Rattle.outcome_terms.specs.declared.fault.Fault.TheVariants.{BadTitle};
ghost use Rattle.outcome_terms.specs.Reading.{understood};
ghost use Rattle.outcome_terms.specs.Stores.{Follows, Settles};
ghost use Rattle.outcome_terms.specs.PackageCommand.{title_under};

use command_io::bytes_under;
use outcome_terms::{Fault, Refusal};
use shelf_io::Shelf;
use std::alloc::Global;
use title_store::{Title, TitleReadError};

/// The title that a blob holds.
#[tactic(auto, using(outcome_terms::proofs::Readings::reading_rules), unfolding(outcome_terms::specs::PackageCommand::title_under))]
pub fn title_under<S: Shelf>(alloc: Global, shelf: &mut S, name: &str) -> Result<Title, Refusal>
    requires { IsTrue (is_name name.now) }
    ensures { Follows (title_under name.now) (S.store shelf.old)
        (S.store shelf.new) result }
{
    let bytes = bytes_under(alloc, shelf, name)?;
    title_of_bytes(alloc, bytes)
}

/// The title whose text the bytes are.
fn title_of_bytes(alloc: Global, bytes: Vec<u8>) -> Result<Title, Refusal>
    requires { length bytes.items < 2 ^ 32 }
    ensures { Settles result (understood BadTitle (title_of bytes.items)) }
{
    match Title::read(alloc, bytes.as_slice()) {
        Ok(title) => Ok(title),
        Err(TitleReadError::NotTitle(fault)) => Err(Refusal::Content(Fault::BadTitle(fault))),
        Err(TitleReadError::Memory) => Err(Refusal::Memory),
    }
}
