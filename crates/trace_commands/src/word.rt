//! The word that a blob holds.

ghost use Rattle.std.specs.Prelude.{◌≤◌, ◌^◌, length, IfOk, IsTrue};
ghost use Rattle.text_terms.specs.Names.{is_name};
ghost use Rattle.code_terms.specs.Words.{HasSymbolsBelow};
ghost use Rattle.code_terms.specs.WordText.{word_of};
ghost use Rattle.outcome_terms.specs.declared.fault.Fault.TheVariants.{BadWord};
ghost use Rattle.outcome_terms.specs.Reading.{understood};
ghost use Rattle.outcome_terms.specs.AccuseCommand.{word_under};
ghost use Rattle.outcome_terms.specs.Stores.{Follows, Settles};

use command_io::bytes_under;
use lic_register::Register;
use outcome_terms::{Fault, Refusal};
use rs_code::{Word, WordError};
use shelf_io::Shelf;
use shelf_terms::BLOB_LIMIT;
use std::alloc::Global;

/// The word that a blob holds, over the symbols of this register.
#[tactic(auto, using(outcome_terms::proofs::Readings::reading_rules), unfolding(outcome_terms::specs::AccuseCommand::word_under))]
pub fn word_under<S: Shelf>(
    alloc: Global,
    shelf: &mut S,
    name: &str,
    register: &Register,
) -> Result<Word, Refusal>
    requires { IsTrue (is_name name.now) }
    ensures word { Follows (word_under name.now register.now.bits)
        (S.store shelf.old) (S.store shelf.new) result }
    ensures least { IfOk result (λ word. 1 ≤ length word) }
    ensures most { IfOk result (λ word. length word ≤ 2 ^ register.now.bits) }
    ensures symbols { IfOk result (HasSymbolsBelow (2 ^ register.now.bits)) }
{
    let bytes = bytes_under(alloc, shelf, name)?;
    word_of_bytes(alloc, bytes, register.bits())
}

/// The word whose text the bytes are.
fn word_of_bytes(alloc: Global, bytes: Vec<u8>, m: u32) -> Result<Word, Refusal>
    requires low { 4 ≤ m }
    requires high { m ≤ 8 }
    requires short { length bytes.items ≤ BLOB_LIMIT }
    ensures word { Settles result (understood BadWord (word_of m bytes.items)) }
    ensures least { IfOk result (λ word. 1 ≤ length word) }
    ensures most { IfOk result (λ word. length word ≤ 2 ^ m) }
    ensures symbols { IfOk result (HasSymbolsBelow (2 ^ m)) }
{
    match Word::read(alloc, bytes.as_slice(), m) {
        Ok(word) => Ok(word),
        Err(WordError::NotWord(fault)) => Err(Refusal::Content(Fault::BadWord(fault))),
        Err(WordError::Memory) => Err(Refusal::Memory),
    }
}
