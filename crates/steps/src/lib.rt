//! Counters of steps, which contracts see and which take no bytes at run time.
#![tactic(auto)]

ghost use Rattle.std.specs.Prelude.{◌≡◌, ◌+◌, ◌<◌};

mod kinds;

pub use kinds::{LookLedger, Looks, ProductLedger, Products};
use std::marker::Model;
pub use std::sync::ledger::Ledger;
use std::sync::ledger::{Blank, Book, Share};

/// How many steps were taken, which contracts see as a number. It takes no bytes, and only `tick` and `add` change it.
///
/// What one step stands for is said by the kind of its ledger: `Products` or `Looks`.
#[derive(Drop)]
pub struct Steps<L: Ledger> {
    book: Book<L>,
    share: Share<L>,
}

impl<L: Ledger> Model for Steps<L> {
    ghost use Rattle.std.specs.Prelude.{ℕ, ◌<◌};

    ghost Value = { ℕ };

    ghost view = { λ s. s.book.total };

    ghost invariant = { λ s. 0 < s.share.parts };
}

impl<L: Ledger> Steps<L> {
    /// A counter at 0 over a ledger that nothing else counts in.
    ///
    /// It asks for the runtime, which only a program and its tests have: what a library counts, it counts for its caller.
    pub fn new(_rt: &HostRuntime, blank: Blank) -> Self
        requires name { blank.name ≡ L.name }
        requires parts { blank.parts ≡ L.parts }
        requires some { 0 < L.parts }
        ensures { result ≡ 0 }
    {
        let (book, share) = blank.open::<L>();
        Steps { book, share }
    }

    /// Counts one step.
    pub fn tick(&mut self)
        ensures { self.new ≡ self.old + 1 }
    {
        self.add(1);
    }

    /// Counts so many steps at once.
    pub fn add(&mut self, count: u64)
        ensures { self.new ≡ self.old + count }
    {
        self.book.add(&mut self.share, count);
    }
}
