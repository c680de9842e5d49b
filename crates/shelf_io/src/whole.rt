//! A whole blob, read part by part.

ghost use Rattle.std.specs.Prelude.{◌≡◌, ◌≤◌, ◌^◌, length, IfOk, IsTrue};
ghost use Rattle.text_terms.specs.Names.{is_name};
ghost use Rattle.shelf_terms.specs.Causes.{ReadCauses};
ghost use Rattle.records.specs.Parts.{Came};
ghost use Rattle.shelf_io.specs.Events.{FetchIs};
ghost use Rattle.shelf_io.specs.Reads.{FetchGives, fetch_failed, fetch_missed};

use crate::errors::{FetchError, ShelfError};
use crate::shelf::Shelf;
use records::PART_LIMIT;
use std::alloc::Global;

/// The whole blob of the name, if it has at most `limit` bytes.
pub fn fetch<S: Shelf>(
    alloc: Global,
    shelf: &mut S,
    name: &str,
    limit: u64,
) -> Result<Vec<u8>, FetchError>
    requires name { IsTrue (is_name name.now) }
    requires limit { limit ≤ 2 ^ 62 }
    ensures most { IfOk result (λ whole. length whole.items ≤ limit) }
    ensures bytes { FetchGives (λ whole. whole.items) (S.store shelf.old).told name.now limit result }
    ensures same { (S.store shelf.new).told ≡ (S.store shelf.old).told }
    // Over every store: the bytes are all that it gave for this name in this call, and it was asked for nothing else.
    ensures came { Came name.now (S.store shelf.old).events (S.store shelf.new).events
        (FetchIs (λ whole. whole.items) name.now limit result) }
    ensures causes { ReadCauses (S.store shelf.old).counts (S.store shelf.new).counts name.now
        (fetch_failed result) (fetch_missed result) }
{
    let mut whole = Vec::new(alloc);
    'parts: loop {
        let part = match shelf.part(alloc, name, whole.len() as u64, PART_LIMIT) {
            Ok(part) => part,
            Err(ShelfError::Missing) => return Err(FetchError::Missing),
            Err(ShelfError::Fault) => return Err(FetchError::Fault),
            Err(ShelfError::Memory) => return Err(FetchError::Memory),
        };
        if part.is_empty() {
            return Ok(whole);
        }
        if (whole.len() + part.len()) as u64 > limit {
            return Err(FetchError::TooLong);
        }
        let Ok(()) = whole.extend_from_slice(part.as_slice()) else {
            return Err(FetchError::Memory);
        };
    }
}
