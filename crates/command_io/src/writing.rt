//! The text that a command writes, and what a done command leaves.

ghost use Rattle.std.specs.Prelude.{◌≡◌, Ok, IsTrue};
ghost use Rattle.text_terms.specs.Names.{is_name};
ghost use Rattle.outcome_terms.specs.Reading.{Reading};
ghost use Rattle.outcome_terms.specs.Stores.{Follows, IsWriting, Writes, Writing};
ghost use Rattle.records.specs.Stores.{Store};
ghost use Rattle.outcome_terms.specs.Commands.{Write};
ghost use Rattle.outcome_terms.specs.Outcome.{Performs};
ghost use Rattle.command_io.specs.Answers.{left_text};

use lists::Text;
use outcome_terms::Refusal;
use shelf_io::{Shelf, ShelfError};
use std::alloc::Global;

/// What a command that was not refused leaves to be put out.
#[derive(Debug, Drop)]
pub enum Done {
    /// Nothing: it wrote a blob.
    Written,
    /// A text.
    Text(Vec<u8>),
}

/// Writes the text that a command made, once for all commands that write.
pub fn write_text<S: Shelf>(
    alloc: Global,
    shelf: &mut S,
    out: &str,
    text: Vec<u8>,
) -> Result<Done, Refusal>
    requires { IsTrue (is_name out.now) }
    ensures { (reading : Reading Writing) (writing : Writing) (first : Store)
        → Follows reading first (S.store shelf.old) (Ok writing)
        → IsWriting writing text.items
        → Performs (Write out.now reading) first (S.store shelf.new)
        (left_text result) }
{
    match written(alloc, shelf, out, text) {
        Ok(()) => Ok(Done::Written),
        Err(refusal) => Err(refusal),
    }
}

/// One write of a text, told as the refusal that it is.
fn written<S: Shelf>(alloc: Global, shelf: &mut S, out: &str, text: Vec<u8>) -> Result<(), Refusal>
    requires { IsTrue (is_name out.now) }
    ensures { Writes out.now text.items (S.store shelf.old)
        (S.store shelf.new) result }
{
    match shelf.write(alloc, out, text.as_slice()) {
        Ok(()) => Ok(()),
        Err(ShelfError::Fault) => Err(Refusal::WriteFault(Text::of(alloc, out)?)),
        Err(ShelfError::Memory) => Err(Refusal::Memory),
        Err(ShelfError::Missing) => unreachable!(),
    }
}
