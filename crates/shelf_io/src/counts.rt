//! The counts that every store keeps.

ghost use Rattle.std.specs.Prelude.{◌≡◌, ◌≤◌, ℕ, List, [], length, true, false};
ghost use Rattle.shelf_terms.specs.Counts.{counted_read, counted_write, no_counts};
ghost use Rattle.shelf_terms.specs.Causes.{ReadCauses, WriteCauses};

use crate::name_buffer::NameBuffer;
use std::marker::Model;

/// What went wrong with a store: how many reads failed, missed their blob, and how many writes failed.
#[derive(Drop)]
pub(crate) struct Counts {
    faults: u64,
    misses: u64,
    write_faults: u64,
    blamed: NameBuffer,
}

impl Model for Counts {
    ghost use Rattle.shelf_terms.specs.Counts.{Tally};

    ghost Value = { Tally };

    ghost view = { λ c. record { faults = c.faults; misses = c.misses; write_faults = c.write_faults; blamed = c.blamed } };
}

impl Counts {
    /// Nothing was counted.
    pub(crate) fn new() -> Self
        ensures { result ≡ no_counts }
    {
        Counts {
            faults: 0,
            misses: 0,
            write_faults: 0,
            blamed: NameBuffer::new(),
        }
    }

    /// Counts a read of the name that failed.
    pub(crate) fn read_failed(&mut self, name: &str)
        requires { length name.now ≤ 1024 }
        ensures value { self.new ≡ counted_read self.old name.now true false }
        ensures causes { ReadCauses self.old self.new name.now true false }
    {
        self.faults = self.faults.saturating_add(1);
        self.blamed.set(name);
    }

    /// Counts a read of a name that was not there.
    pub(crate) fn missed(&mut self)
        ensures value { self.new ≡ counted_read self.old [] false true }
        ensures causes { (name : List ℕ) → ReadCauses self.old self.new name false true }
    {
        self.misses = self.misses.saturating_add(1);
    }

    /// Counts a write that failed.
    pub(crate) fn write_failed(&mut self)
        ensures value { self.new ≡ counted_write self.old true }
        ensures causes { WriteCauses self.old self.new true }
    {
        self.write_faults = self.write_faults.saturating_add(1);
    }
}
