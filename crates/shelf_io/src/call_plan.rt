//! Counted calls, of which some are to fail.

ghost use Rattle.std.specs.Prelude.{◌≡◌, ◌++◌, ◌∷◌, [], OnErr, OnOk};
ghost use Rattle.shelf_io.specs.Plan.{after_call, fails_next};

use lists::Memory;
use std::alloc::Global;
use std::marker::Model;

/// Which of the calls that are counted with it are to fail.
#[derive(Drop)]
pub(crate) struct CallPlan {
    failing: Vec<u64>,
    made: u64,
}

impl Model for CallPlan {
    ghost use Rattle.shelf_io.specs.Plan.{Plan};

    ghost Value = { Plan };

    ghost view = { λ p. record { failing = p.failing.items; made = p.made } };
}

impl CallPlan {
    /// No call yet, and none that is to fail.
    pub(crate) fn new(alloc: Global) -> Self
        ensures { result ≡ record { failing = []; made = 0 } }
    {
        CallPlan {
            failing: Vec::new(alloc),
            made: 0,
        }
    }

    /// Lets the call of this number fail, counted from 1.
    pub(crate) fn fail(&mut self, call: u64) -> Result<(), Memory>
        ensures done { OnOk result (self.new
            ≡ record { failing = self.old.failing ++ call ∷ []; made = self.old.made }) }
        ensures refused { OnErr result (self.new ≡ self.old) }
    {
        self.failing.push(call)?;
        Ok(())
    }

    /// Counts a call, and says whether it is to fail.
    pub(crate) fn next_fails(&mut self) -> bool
        ensures fails { result ≡ fails_next self.old }
        ensures counted { self.new ≡ after_call self.old }
    {
        self.made = self.made.saturating_add(1);
        let call = self.made;
        self.failing.iter().any(|failing| *failing == call)
    }
}
