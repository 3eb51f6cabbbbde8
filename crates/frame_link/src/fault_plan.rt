//! Which calls of an object in memory fail.

ghost use Rattle.std.specs.Prelude.{◌≡◌, ◌≤◌, true, false, OnOk, OnErr};
ghost use Rattle.frame_link.specs.Faults.{HasCause};
ghost use Rattle.frame_link.specs.Plan.{plan_of, counted, fails_now, passed, failed};

use crate::outside::Failed;
use std::marker::Model;

/// A count of calls, the numbers of those that fail, and a count of faults.
#[derive(Drop)]
pub(crate) struct FaultPlan {
    calls: u64,
    fails: Vec<u64>,
    faults: u64,
}

impl Model for FaultPlan {
    ghost use Rattle.frame_link.specs.Plan.{Plan};

    ghost Value = { Plan };

    ghost view = { λ p. record { calls = p.calls; fails = p.fails.items; faults = p.faults } };
}

impl FaultPlan {
    pub(crate) fn new(fails: Vec<u64>) -> FaultPlan
        ensures { result ≡ plan_of fails.items }
    {
        FaultPlan {
            calls: 0,
            fails,
            faults: 0,
        }
    }

    // Counts a call, and fails where it is one of the list.
    pub(crate) fn begin(&mut self) -> Result<(), Failed>
        ensures ok { OnOk result ((fails_now self.old ≡ false) × (self.new ≡ passed self.old)) }
        ensures err { OnErr result ((fails_now self.old ≡ true) × (self.new ≡ failed self.old)) }
        ensures cause { HasCause self.old.faults self.new.faults result }
    {
        let call = self.calls;
        self.calls = call.saturating_add(1);
        if self.fails.contains(&call) {
            self.faults = self.faults.saturating_add(1);
            return Err(Failed);
        }
        Ok(())
    }

    // Counts a fault of the call that has begun.
    pub(crate) fn fault(&mut self)
        ensures fault { self.new ≡ record self.old { faults = counted self.old.faults } }
        ensures later { self.old.faults ≤ self.new.faults }
    {
        self.faults = self.faults.saturating_add(1);
    }

    pub(crate) fn faults(&self) -> u64
        ensures { result ≡ self.now.faults }
    {
        self.faults
    }
}
