//! A store in memory, which fails where a test wants it to.

ghost use Rattle.std.specs.Prelude.{◌≡◌, ◌≤◌, ◌++◌, ◌∷◌, [], length, IfOk, IsTrue, OnErr, OnOk, is_ok, Some, Err, true, false};
ghost use Rattle.std.specs.FinMap.{empty, insert};
ghost use Rattle.text_terms.specs.Names.{is_name};
ghost use Rattle.shelf_terms.specs.Counts.{no_counts};
ghost use Rattle.shelf_terms.specs.Causes.{ReadCauses, WriteCauses};
ghost use Rattle.shelf_io.specs.MemShelf.{after_part, after_write};
ghost use Rattle.shelf_io.specs.Events.{after_read, after_handing};
ghost use Rattle.shelf_io.specs.Plan.{fails_next};
ghost use Rattle.shelf_io.specs.Reads.{PartGives, part_failed, part_missed};
ghost use Rattle.shelf_io.specs.Writes.{WriteGives, write_failed};

use crate::blob_map::{find, part_slice, store};
use crate::call_plan::CallPlan;
use crate::counts::Counts;
use crate::errors::ShelfError;
use crate::shelf::Shelf;
use lists::Memory;
use records::Record;
use std::alloc::Global;
use std::collections::BTreeMap;
use std::marker::Model;

/// A store in memory. Its calls of `part` and `write` are counted together from 1, and those that are named before fail.
#[derive(Drop)]
pub struct MemShelf {
    alloc: Global,
    blobs: BTreeMap<String, Vec<u8>>,
    plan: CallPlan,
    counts: Counts,
    events: Record,
}

impl Model for MemShelf {
    ghost use Rattle.shelf_io.specs.BlobMap.{blobs_of};
    ghost use Rattle.shelf_io.specs.MemShelf.{MemShelfView, view_code};

    ghost Value = { MemShelfView };

    ghost coded = { view_code };

    ghost view = { λ s. record { blobs = blobs_of s.blobs.entries; plan = s.plan; counts = s.counts; events = s.events.events } };
}

impl MemShelf {
    /// A store that holds nothing, and of which no call is to fail.
    pub fn new(alloc: Global) -> Self
        ensures { result ≡ record {
          blobs = empty;
          plan = record { failing = []; made = 0 };
          counts
              = no_counts;
          events = [];
        } }
    {
        MemShelf {
            alloc,
            blobs: BTreeMap::new(alloc),
            plan: CallPlan::new(alloc),
            counts: Counts::new(),
            events: Record::new(),
        }
    }

    /// Lets the call of this number fail.
    pub fn fail(&mut self, call: u64) -> Result<(), Memory>
        ensures done { OnOk result (self.new
            ≡ record self.old {
              plan = record self.old.plan {
                failing = self.old.plan.failing
                    ++ call ∷ [];
              };
            }) }
        ensures refused { OnErr result (self.new ≡ self.old) }
    {
        self.plan.fail(call)
    }

    /// Makes these bytes the blob of the name. It is no counted call.
    pub fn hold(&mut self, name: &str, bytes: &[u8]) -> Result<(), Memory>
        ensures done { OnOk result (self.new
            ≡ record self.old { blobs = insert self.old.blobs name.now bytes.now }) }
        ensures refused { OnErr result (self.new ≡ self.old) }
    {
        store(&mut self.blobs, self.alloc, name, bytes)
    }
}

impl Shelf for MemShelf {
    ghost use Rattle.std.specs.Prelude.{Some};

    ghost store = { λ s. record { told = Some s.blobs; counts = s.counts; events = s.events } };

    /// A call that is to fail does so before anything is looked up.
    fn part(
        &mut self,
        alloc: Global,
        name: &str,
        from: u64,
        most: usize,
    ) -> Result<Vec<u8>, ShelfError>
        requires name { IsTrue (is_name name.now) }
        requires some { 1 ≤ most }
        ensures most { IfOk result (λ part. length part.items ≤ most) }
        ensures bytes { PartGives (λ part. part.items) (Some self.old.blobs) name.now from most
            result }
        ensures same { Some self.new.blobs ≡ Some self.old.blobs }
        ensures causes { ReadCauses self.old.counts self.new.counts name.now (part_failed result)
            (part_missed result) }
        ensures fails { part_failed result ≡ fails_next self.old.plan }
        ensures after { self.new ≡ after_part self.old name.now (part_failed result)
            (part_missed result)
            (after_read (λ part. part.items) self.old.events name.now from most result) }
        ensures events { self.new.events
            ≡ after_read (λ part. part.items) self.old.events name.now from most result }
    {
        if self.plan.next_fails() {
            self.counts.read_failed(name);
            self.events.failed(name);
            return Err(ShelfError::Fault);
        }
        match find(&self.blobs, name) {
            None => {
                self.counts.missed();
                self.events.missed(name);
                Err(ShelfError::Missing)
            }
            Some(blob) => {
                let Ok(part) = Vec::from_slice(alloc, part_slice(blob, from, most)) else {
                    self.events.failed(name);
                    return Err(ShelfError::Memory);
                };
                self.events.gave(name, from, most, part.as_slice());
                Ok(part)
            }
        }
    }

    /// A call that is to fail, or for which there is not enough memory, changes no blob.
    fn write(&mut self, alloc: Global, name: &str, bytes: &[u8]) -> Result<(), ShelfError>
        requires { IsTrue (is_name name.now) }
        ensures bytes { WriteGives (Some self.old.blobs) (Some self.new.blobs) name.now bytes.now
            result }
        ensures never_missing { result ≡ Err ShelfError.Missing → ⊥ }
        ensures causes { WriteCauses self.old.counts self.new.counts (write_failed result) }
        ensures fails { write_failed result ≡ fails_next self.old.plan }
        ensures after { self.new ≡ after_write self.old name.now bytes.now (is_ok result)
            (write_failed result) (after_handing self.old.events name.now bytes.now result) }
        ensures events { self.new.events ≡ after_handing self.old.events name.now bytes.now result }
    {
        if self.plan.next_fails() {
            self.counts.write_failed();
            self.events.refused(name, bytes);
            return Err(ShelfError::Fault);
        }
        match store(&mut self.blobs, alloc, name, bytes) {
            Ok(()) => {
                self.events.took(name, bytes);
                Ok(())
            }
            Err(Memory) => {
                self.events.refused(name, bytes);
                Err(ShelfError::Memory)
            }
        }
    }
}
