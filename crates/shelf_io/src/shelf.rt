//! A store of blobs, read in parts and written whole.

ghost use Rattle.std.specs.Prelude.{◌≡◌, ◌≤◌, length, IfOk, IsTrue};
ghost use Rattle.text_terms.specs.Names.{is_name};
ghost use Rattle.shelf_terms.specs.Causes.{ReadCauses, WriteCauses};
ghost use Rattle.records.specs.Stores.{Store};
ghost use Rattle.shelf_io.specs.Events.{after_read, after_handing};
ghost use Rattle.shelf_io.specs.Reads.{PartGives, part_failed, part_missed};
ghost use Rattle.shelf_io.specs.Writes.{WriteGives, write_failed};

use crate::errors::ShelfError;
use std::alloc::Global;

/// A store of blobs under names, which may fail at any call.
///
/// Contracts see it as a `Store`: the blobs, where it can tell them, the counts of the reads that failed, of the reads of a
/// name that was not there and of the writes that failed, with the name of the last read that failed, and the events, which
/// are all calls so far with what each was asked and how it was answered.
pub trait Shelf {
    ghost store: { Self → Store };

    /// At most `most` bytes of the blob, from the place `from` on, counted from 0. No bytes mean its end; fewer than
    /// `most` do not.
    fn part(
        &mut self,
        alloc: Global,
        name: &str,
        from: u64,
        most: usize,
    ) -> Result<Vec<u8>, ShelfError>
        requires name { IsTrue (is_name name.now) }
        requires some { 1 ≤ most }
        ensures most { IfOk result (λ part. length part.items ≤ most) }
        ensures bytes { PartGives (λ part. part.items) (store self.old).told name.now from most result }
        ensures same { (store self.new).told ≡ (store self.old).told }
        ensures causes { ReadCauses (store self.old).counts (store self.new).counts name.now
            (part_failed result) (part_missed result) }
        ensures events { (store self.new).events
            ≡ after_read (λ part. part.items) (store self.old).events name.now from most result };

    /// Makes these bytes the blob of the name, in place of the one that it had.
    fn write(&mut self, alloc: Global, name: &str, bytes: &[u8]) -> Result<(), ShelfError>
        requires { IsTrue (is_name name.now) }
        ensures bytes { WriteGives (store self.old).told (store self.new).told name.now bytes.now result }
        ensures never_missing { result ≡ Err ShelfError.Missing → ⊥ }
        ensures causes { WriteCauses (store self.old).counts (store self.new).counts (write_failed result) }
        ensures events { (store self.new).events
            ≡ after_handing (store self.old).events name.now bytes.now result };
}
