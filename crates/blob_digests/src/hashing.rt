//! A blob hashed while its parts come.

ghost use Rattle.std.specs.Prelude.{◌≡◌, IfErr, IsTrue, ℕ, List, [], false};
ghost use Rattle.text_terms.specs.Names.{is_name};
ghost use Rattle.sha2.specs.Sha256.{sha256};
ghost use Rattle.shelf_terms.specs.Causes.{ReadCauses};
ghost use Rattle.shelf_terms.specs.declared.limit.TheConstants.{BLOB_LIMIT};
ghost use Rattle.records.specs.Parts.{Came};
ghost use Rattle.shelf_io.specs.Events.{RefusedIs};
ghost use Rattle.shelf_io.specs.Reads.{fetch_failed, fetch_missed};
ghost use Rattle.blob_digests.specs.Digests.{DigestGives, Stands};

use crate::digest::Digest;
use lists::Memory;
use sha2::{Digest as _, Sha256};
use shelf_io::{FetchError, Shelf, Taker, pour};
use shelf_terms::BLOB_LIMIT;
use std::alloc::Global;

/// The SHA-256 of the blob of the name, if it has at most `BLOB_LIMIT` bytes. Each part is hashed when it comes, and none is
/// kept.
pub fn digest_of<S: Shelf>(alloc: Global, shelf: &mut S, name: &str) -> Result<Digest, FetchError>
    requires name { IsTrue (is_name name.now) }
    // The digest of all that the store gave; where the blobs are told, of the blob, or why there is none.
    ensures digest { DigestGives (S.store shelf.old) (S.store shelf.new) name.now result }
    ensures refused { IfErr result (λ e. Came name.now (S.store shelf.old).events
        (S.store shelf.new).events (RefusedIs name.now BLOB_LIMIT e)) }
    ensures same { (S.store shelf.new).told ≡ (S.store shelf.old).told }
    ensures causes { ReadCauses (S.store shelf.old).counts (S.store shelf.new).counts name.now
        (fetch_failed result) (fetch_missed result) }
{
    let mut hashing = Hashing::new();
    match pour(alloc, shelf, name, BLOB_LIMIT, &mut hashing) {
        Ok(()) => Ok(hashing.finish()),
        Err(FetchError::Missing) => Err(FetchError::Missing),
        Err(FetchError::Fault) => Err(FetchError::Fault),
        Err(FetchError::TooLong) => Err(FetchError::TooLong),
        Err(FetchError::Memory) => Err(FetchError::Memory),
    }
}

/// The bytes so far, as far as their digest hangs on them. It never wants memory.
#[derive(Drop)]
pub(crate) struct Hashing {
    hasher: Sha256,
    taken: u32,
}

impl Hashing {
    /// No bytes yet.
    fn new() -> Hashing
        ensures stands { Stands result [] }
        ensures nothing { result.taken ≡ 0 }
    {
        Hashing {
            hasher: Sha256::new(),
            taken: 0,
        }
    }

    /// The digest of all bytes that it took.
    fn finish(self) -> Digest
        ensures { (bytes : List ℕ) → Stands self bytes → result.bytes ≡ sha256 bytes }
    {
        Digest {
            bytes: self.hasher.finalize(),
        }
    }
}

impl Taker for Hashing {
    ghost use Rattle.std.specs.Prelude.{false};
    ghost use Rattle.blob_digests.specs.Digests.{Stands};

    ghost stands = { Stands };

    ghost spent = { λ _. false };

    ghost taken = { λ hashing. hashing.taken };

    fn take(&mut self, piece: &[u8]) -> Result<(), Memory> {
        self.hasher.update(piece);
        self.taken += piece.len() as u32;
        Ok(())
    }
}
