//! A blob, handed on part by part.

ghost use Rattle.std.specs.Prelude.{◌≡◌, ◌≤◌, ◌<◌, ◌^◌, ◌+◌, IfErr, IsTrue};
ghost use Rattle.text_terms.specs.Names.{is_name};
ghost use Rattle.shelf_terms.specs.Causes.{ReadCauses};
ghost use Rattle.records.specs.Parts.{Came};
ghost use Rattle.shelf_io.specs.Events.{RefusedIs};
ghost use Rattle.shelf_io.specs.Reads.{fetch_failed, fetch_missed};
ghost use Rattle.shelf_io.specs.Pours.{PourGives, IsSpentOnlyBefore};

use crate::errors::{FetchError, ShelfError};
use crate::shelf::Shelf;
use crate::taker::Taker;
use records::PART_LIMIT;
use std::alloc::Global;

/// Hands the whole blob of the name to the taker, if it has at most `limit` bytes. It reads the parts that `fetch` reads.
pub fn pour<S: Shelf, T: Taker>(
    alloc: Global,
    shelf: &mut S,
    name: &str,
    limit: u64,
    taker: &mut T,
) -> Result<(), FetchError>
    requires name { IsTrue (is_name name.now) }
    requires room { T.taken taker.old + limit + 65536 < 2 ^ 32 }
    // What the taker stands for then: what it stood for, and the whole blob, or a prefix of it.
    ensures bytes { PourGives (T.stands taker.old) (T.stands taker.new) (S.store shelf.old)
        (S.store shelf.new) name.now limit result }
    ensures refused { IfErr result (λ e. Came name.now (S.store shelf.old).events
        (S.store shelf.new).events (RefusedIs name.now limit e)) }
    ensures taken { T.taken taker.new ≤ T.taken taker.old + limit }
    ensures spent { IsSpentOnlyBefore (T.spent taker.old) (T.spent taker.new) result }
    ensures same { (S.store shelf.new).told ≡ (S.store shelf.old).told }
    ensures causes { ReadCauses (S.store shelf.old).counts (S.store shelf.new).counts name.now
        (fetch_failed result) (fetch_missed result) }
{
    let mut from = 0;
    'parts: loop {
        let part = match shelf.part(alloc, name, from, PART_LIMIT) {
            Ok(part) => part,
            Err(ShelfError::Missing) => return Err(FetchError::Missing),
            Err(ShelfError::Fault) => return Err(FetchError::Fault),
            Err(ShelfError::Memory) => return Err(FetchError::Memory),
        };
        if part.is_empty() {
            return Ok(());
        }
        let next = from + part.len() as u64;
        if next > limit {
            return Err(FetchError::TooLong);
        }
        let Ok(()) = taker.take(part.as_slice()) else {
            return Err(FetchError::Memory);
        };
        from = next;
    }
}
