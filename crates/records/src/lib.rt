//! What stores and outputs were asked and what they answered, as contracts cite it.
#![tactic(auto)]

pub mod laws;
mod limit;

ghost use Rattle.std.specs.Prelude.{◌≡◌, List, [], ◌∷◌, ◌++◌};
ghost use Rattle.std.specs.Borrow.{ftrue};
ghost use Rattle.records.specs.Events.{Event, Gave, Missed, Failed, Took, Refused};
ghost use Rattle.records.specs.Rows.{event_of, events_code};

pub use limit::PART_LIMIT;
use std::marker::{Model, PhantomData};

/// The events that were noted so far. It takes no bytes at run time, and only its methods make it longer.
#[derive(Drop)]
pub struct Record {
    marker: PhantomData<u8>,
    pub ghost events: { List Event } by { events_code },
}

impl Model for Record {
    ghost also_owns = { λ _. ftrue };
}

impl Record {
    /// Nothing was noted.
    pub fn new() -> Record
        ensures { result.events ≡ [] }
    {
        Record {
            marker: PhantomData,
        }
    }

    /// Notes a part of a blob that was given, of at most `most` bytes from the place `from` on.
    pub fn gave(&mut self, name: &str, from: u64, most: usize, part: &[u8])
        ensures { self.new.events ≡ self.old.events ++ Gave name.now from most part.now ∷ [] }
    {
        self.note(&[0, from, most as u64], name.as_bytes(), part);
    }

    /// Notes a read of a name that was not there.
    pub fn missed(&mut self, name: &str)
        ensures { self.new.events ≡ self.old.events ++ Missed name.now ∷ [] }
    {
        self.note(&[1, 0, 0], name.as_bytes(), &[]);
    }

    /// Notes a read that was refused for another reason.
    pub fn failed(&mut self, name: &str)
        ensures { self.new.events ≡ self.old.events ++ Failed name.now ∷ [] }
    {
        self.note(&[2, 0, 0], name.as_bytes(), &[]);
    }

    /// Notes bytes that were handed in under a name and taken.
    pub fn took(&mut self, name: &str, bytes: &[u8])
        ensures { self.new.events ≡ self.old.events ++ Took name.now bytes.now ∷ [] }
    {
        self.note(&[3, 0, 0], name.as_bytes(), bytes);
    }

    /// Notes bytes that were handed in under a name and refused.
    pub fn refused(&mut self, name: &str, bytes: &[u8])
        ensures { self.new.events ≡ self.old.events ++ Refused name.now bytes.now ∷ [] }
    {
        self.note(&[4, 0, 0], name.as_bytes(), bytes);
    }

    /// Notes one event more: its kind, its place and its bound, its name and its bytes.
    fn note(&mut self, _numbers: &[u64], _name: &[u8], _bytes: &[u8])
        ensures { self.new.events
            ≡ self.old.events ++ event_of _numbers.now _name.now _bytes.now ∷ [] }
    {}
}
