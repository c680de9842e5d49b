//! The blobs that commands read.

ghost use Rattle.std.specs.Prelude.{◌≡◌, ◌≤◌, length, IfOk, IsTrue};
ghost use Rattle.text_terms.specs.Names.{is_name};
ghost use Rattle.register_terms.specs.RegisterText.{register_of};
ghost use Rattle.outcome_terms.specs.declared.fault.Fault.TheVariants.{BadRegister};
ghost use Rattle.outcome_terms.specs.Reading.{blob, understood};
ghost use Rattle.outcome_terms.specs.Registers.{register_under};
ghost use Rattle.outcome_terms.specs.Stores.{Follows, Reads, Settles, seen};

use lic_register::{Register, RegisterReadError};
use lists::Text;
use outcome_terms::{Fault, Refusal};
use shelf_io::{FetchError, Shelf, fetch};
use shelf_terms::BLOB_LIMIT;
use std::alloc::Global;

/// The bytes of a blob that is not too long.
#[tactic(auto, using(outcome_terms::proofs::Readings::read_follows))]
pub fn bytes_under<S: Shelf>(alloc: Global, shelf: &mut S, name: &str) -> Result<Vec<u8>, Refusal>
    requires { IsTrue (is_name name.now) }
    ensures bytes { Follows (blob name.now) (S.store shelf.old)
        (S.store shelf.new)
        (seen (λ bytes. bytes.items) result) }
    ensures short { IfOk result (λ bytes. length bytes.items ≤ BLOB_LIMIT) }
{
    fetched(alloc, shelf, name)
}

/// One read of a blob, told as the refusal that it is.
fn fetched<S: Shelf>(alloc: Global, shelf: &mut S, name: &str) -> Result<Vec<u8>, Refusal>
    requires { IsTrue (is_name name.now) }
    ensures bytes { Reads name.now (S.store shelf.old)
        (S.store shelf.new)
        (seen (λ bytes. bytes.items) result) }
    ensures short { IfOk result (λ bytes. length bytes.items ≤ BLOB_LIMIT) }
{
    match fetch(alloc, shelf, name, BLOB_LIMIT) {
        Ok(bytes) => Ok(bytes),
        Err(FetchError::Missing) => Err(Refusal::Missing(Text::of(alloc, name)?)),
        Err(FetchError::Fault) => Err(Refusal::ReadFault(Text::of(alloc, name)?)),
        Err(FetchError::TooLong) => Err(Refusal::TooLong(Text::of(alloc, name)?)),
        Err(FetchError::Memory) => Err(Refusal::Memory),
    }
}

/// The register that a blob holds.
#[tactic(auto, using(outcome_terms::proofs::Readings::reading_rules), unfolding(outcome_terms::specs::Registers::register_under))]
pub fn register_under<S: Shelf>(
    alloc: Global,
    shelf: &mut S,
    name: &str,
) -> Result<Register, Refusal>
    requires { IsTrue (is_name name.now) }
    ensures { Follows (register_under name.now) (S.store shelf.old)
        (S.store shelf.new) result }
{
    let bytes = bytes_under(alloc, shelf, name)?;
    register_of_bytes(alloc, bytes)
}

/// The register whose text the bytes are.
fn register_of_bytes(alloc: Global, bytes: Vec<u8>) -> Result<Register, Refusal>
    ensures { Settles result (understood BadRegister (register_of bytes.items)) }
{
    match Register::read(alloc, bytes.as_slice()) {
        Ok(register) => Ok(register),
        Err(RegisterReadError::NotRegister(fault)) => {
            Err(Refusal::Content(Fault::BadRegister(fault)))
        }
        Err(RegisterReadError::Memory) => Err(Refusal::Memory),
    }
}
