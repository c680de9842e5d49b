//! An output in memory, which fails where a test wants it to.

ghost use Rattle.std.specs.Prelude.{◌≡◌, ◌≤◌, ◌++◌, ◌∷◌, [], Err, IsTrue, OnErr, OnOk, is_ok, true, false};
ghost use Rattle.shelf_terms.specs.Counts.{Rose};
ghost use Rattle.shelf_io.specs.Plan.{fails_next};
ghost use Rattle.shelf_io.specs.Events.{after_putting};
ghost use Rattle.shelf_io.specs.MemSink.{after_put};
ghost use Rattle.shelf_io.specs.Puts.{PutGives, put_failed};

use crate::call_plan::CallPlan;
use crate::errors::SinkError;
use crate::sink::Sink;
use lists::Memory;
use records::Record;
use std::alloc::Global;
use std::marker::Model;

/// An output in memory. Puts are counted from 1, and those that are named before fail.
#[derive(Drop)]
pub struct MemSink {
    written: Vec<u8>,
    plan: CallPlan,
    faults: u64,
    events: Record,
}

impl Model for MemSink {
    ghost use Rattle.shelf_io.specs.MemSink.{MemSinkView, sink_code};

    ghost Value = { MemSinkView };

    ghost coded = { sink_code };

    ghost view = { λ s. record { written = s.written.items; plan = s.plan; faults = s.faults; events = s.events.events } };
}

impl MemSink {
    /// An empty output, of which no put is to fail.
    pub fn new(alloc: Global) -> Self
        ensures { result ≡ record {
          written = [];
          plan = record { failing = []; made = 0 };
          faults
              = 0;
          events = [];
        } }
    {
        MemSink {
            written: Vec::new(alloc),
            plan: CallPlan::new(alloc),
            faults: 0,
            events: Record::new(),
        }
    }

    /// Lets the put of this number fail.
    pub fn fail(&mut self, call: u64) -> Result<(), Memory>
        ensures done { OnOk result (self.new
            ≡ record self.old {
              plan = record self.old.plan {
                failing = self.old.plan.failing
                    ++ call ∷ [];
              };
            }) }
        ensures refused { OnErr result (self.new ≡ self.old) }
    {
        self.plan.fail(call)
    }

    /// What stands in the output.
    pub fn bytes(&self) -> &[u8]
        ensures { result.now ≡ self.now.written }
    {
        self.written.as_slice()
    }
}

impl Sink for MemSink {
    ghost use Rattle.std.specs.Prelude.{Some};

    ghost output = { λ s. record { written = Some s.written; faults = s.faults; events = s.events } };

    /// A put that is to fail puts the first half of its bytes, rounded down.
    fn put(&mut self, bytes: &[u8]) -> Result<(), SinkError>
        ensures bytes { PutGives (Some self.old.written) (Some self.new.written) bytes.now result }
        ensures faults_stay { self.old.faults ≤ self.new.faults }
        ensures fault { result ≡ Err SinkError.Fault → Rose self.old.faults self.new.faults }
        ensures events { self.new.events ≡ after_putting self.old.events bytes.now result }
        ensures after { self.new ≡ after_put self.old bytes.now result }
        ensures fails { fails_next self.old.plan ≡ true → is_ok result ≡ false }
        ensures fails_only { fails_next self.old.plan ≡ false → put_failed result ≡ false }
    {
        if self.plan.next_fails() {
            self.events.refused("", bytes);
            self.written.extend_from_slice(&bytes[..bytes.len() / 2])?;
            self.faults = self.faults.saturating_add(1);
            return Err(SinkError::Fault);
        }
        let Ok(()) = self.written.extend_from_slice(bytes) else {
            self.events.refused("", bytes);
            return Err(SinkError::Memory);
        };
        self.events.took("", bytes);
        Ok(())
    }
}
