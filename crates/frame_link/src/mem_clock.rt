//! A clock in memory.

ghost use Rattle.std.specs.Prelude.{◌≡◌, ◌<◌, List, ℕ, length, Option, Some};
ghost use Rattle.frame_link.specs.Faults.{HasCause};
ghost use Rattle.frame_link.specs.Plan.{plan_of};
ghost use Rattle.frame_link.specs.Readings.{Reads};
ghost use Rattle.frame_link.specs.Streams.{stream};
ghost use Rattle.frame_link.specs.Times.{TellsTime};

use crate::fault_plan::FaultPlan;
use crate::outside::{Clock, Failed};
use std::marker::Model;

/// Readings in memory. The last one repeats.
#[derive(Drop)]
pub struct MemClock {
    readings: Vec<u64>,
    at: usize,
    plan: FaultPlan,
}

impl Model for MemClock {
    ghost use Rattle.std.specs.Prelude.{◌<◌, length, drop};
    ghost use Rattle.frame_link.specs.Times.{Times};

    ghost Value = { Times };

    ghost view = { λ c. record { readings = drop c.at c.readings.items; plan = c.plan } };

    // A reading is left.
    ghost invariant = { λ c. c.at < length c.readings.items };
}

impl MemClock {
    /// A clock of at least one reading. `fails` has the numbers of the calls that fail, counted
    /// from 0.
    pub fn new(readings: Vec<u64>, fails: Vec<u64>) -> MemClock
        requires { 0 < length readings.items }
        ensures { result ≡ record { readings = readings.items; plan = plan_of fails.items } }
    {
        MemClock {
            readings,
            at: 0,
            plan: FaultPlan::new(fails),
        }
    }

    /// How often a call has failed.
    pub fn faults(&self) -> u64
        ensures { result ≡ self.now.plan.faults }
    {
        self.plan.faults()
    }
}

impl Clock for MemClock {
    ghost shown = { λ c. stream (Some c.readings) c.plan.faults };

    fn now(&mut self) -> Result<u64, Failed>
        ensures reading { Reads (Some self.old.readings) (Some self.new.readings) result }
        ensures cause { HasCause self.old.plan.faults self.new.plan.faults result }
        ensures exact { TellsTime self.old self.new result }
    {
        self.plan.begin()?;
        let reading = self.readings[self.at];
        if self.at + 1 < self.readings.len() {
            self.at += 1;
        }
        Ok(reading)
    }
}
