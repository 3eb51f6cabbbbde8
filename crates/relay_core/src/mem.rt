//! A relay at hand that fails at some calls.

ghost use Rattle.std.specs.Prelude.{◌≡◌, ◌≤◌, length, IfOk, true, false, MatchResult};
ghost use Rattle.frame_link.specs.Faults.{HasCause};
ghost use Rattle.frame_link.specs.Plan.{Plan, fails_now, passed, failed};
ghost use Rattle.frame_link.specs.Relay.{HasRelayCode, Reseals};
ghost use Rattle.relay_core.specs.Plans.{plan, mem_link};

use crate::local::LocalRelay;
use arrayvec::ArrayVec;
use frame_link::{Failed, RelayAnswer, RelayLink};

/// A relay that counts its calls from 0, and fails at those of the list alone. `faults` is how
/// often it has failed. Both counts stay at their last value.
#[derive(Drop)]
pub struct MemRelay {
    pub relay: LocalRelay,
    pub fails: Vec<u64>,
    pub calls: u64,
    pub faults: u64,
}

impl RelayLink for MemRelay {
    ghost shown = { λ r. mem_link r };

    fn reseal(
        &mut self,
        node: u32,
        sealed: &[u8],
        out: &mut ArrayVec<u8, 2048>,
    ) -> Result<RelayAnswer, Failed>
        ensures reseals { Reseals (mem_link self.old) (mem_link self.new) node sealed.now result
            out.new.items }
        ensures same { self.new.relay ≡ self.old.relay }
        ensures exact { MatchResult result
            (λ _. (fails_now (plan self.old) ≡ false) × (plan self.new ≡ passed (plan self.old)))
            (λ _. (fails_now (plan self.old) ≡ true) × (plan self.new ≡ failed (plan self.old))) }
        ensures codes { IfOk result HasRelayCode }
        ensures cause { HasCause self.old.faults self.new.faults result }
    {
        let call = self.calls;
        self.calls = call.saturating_add(1);
        if self.fails.contains(&call) {
            self.faults = self.faults.saturating_add(1);
            out.clear();
            return Err(Failed);
        }
        self.relay.reseal(node, sealed, out)
    }
}
