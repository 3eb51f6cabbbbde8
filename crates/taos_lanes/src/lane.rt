//! What one worker has.

ghost use Rattle.std.specs.Prelude.{◌≡◌, None};

use crate::tally::Tally;
use agent_shards::{Passes, RackPasses};
use cred_pull::Fetch;
use frame_link::{Clock, Door, RelayLink};
use goal_search::Workbench;
use lemma_memo::Lemmas;

/// What a lane has while the workers run: its passes of each shard and of each object, its decider,
/// and what it has counted.
#[derive(Drop)]
pub struct Stock {
    pub(crate) passes: Passes,
    pub(crate) racked: RackPasses,
    pub(crate) bench: Lemmas<Workbench>,
    pub(crate) tally: Tally,
}

/// What one worker has.
#[derive(Drop)]
pub struct Lane<C: Clock, R: RelayLink, D: Door, P: Fetch> {
    pub clock: C,
    pub relay: R,
    pub door: D,
    pub fetch: P,
    // Empty but while the workers run.
    pub(crate) work: Option<Stock>,
    // What its worker counted as a relay.
    pub(crate) tally: Tally,
}

impl<C: Clock, R: RelayLink, D: Door, P: Fetch> Lane<C, R, D, P> {
    /// A lane that does no work yet.
    pub fn of(clock: C, relay: R, door: D, fetch: P) -> Lane<C, R, D, P>
        ensures clock { result.clock ≡ clock }
        ensures relay { result.relay ≡ relay }
        ensures door { result.door ≡ door }
        ensures fetch { result.fetch ≡ fetch }
        ensures work { result.work ≡ None }
    {
        Lane {
            clock,
            relay,
            door,
            fetch,
            work: None,
            tally: Tally::new(),
        }
    }
}
