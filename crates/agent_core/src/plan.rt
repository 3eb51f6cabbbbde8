//! What a shard is opened with.

ghost use Rattle.std.specs.Prelude.{◌↔◌, IsTrue};
ghost use Rattle.std.specs.List.Sorted.{IsStrictlyIncreasing};

use crate::limits::{MAX_CHANNELS, MAX_COMMONS, MAX_JOURNAL};
use prin_term::Anchor;
use std::sync::Arc;
use stmt_codec::Cert;
use taos_calculus::MAX_ANCHORS;

/// The plan of the shard `number` of so many `shards`.
#[derive(Drop)]
pub struct ShardPlan {
    pub number: u32,
    pub shards: u32,
    pub anchors: Arc<Vec<Anchor>>,
    /// The channels of this shard, ascending.
    pub channels: Vec<u32>,
    /// The certificates that are held in common at first.
    pub commons: Vec<Arc<Cert>>,
    /// How long a certificate that ended is held, in the unit of the clock.
    pub keep: u64,
    /// How many entries the journal has at most.
    pub limit: u64,
}

// Whether each number is above the one before it.
fn rises(numbers: &[u32]) -> bool
    ensures { IsTrue result ↔ IsStrictlyIncreasing numbers.now }
{
    for place in 1..numbers.len() {
        if numbers[place] <= numbers[place - 1] {
            return false;
        }
    }
    true
}

impl ShardPlan {
    ghost use Rattle.std.specs.Prelude.{◌↔◌, IsTrue};
    ghost use Rattle.agent_core.specs.Plans.{IsPlan};
    ghost use Rattle.agent_core.specs.Views.{plan_of};

    /// Whether a shard may be opened with it: its channels ascend, and it is within the limits.
    pub fn is_sound(&self) -> bool
        ensures { IsTrue result ↔ IsPlan (plan_of self.now) }
    {
        rises(&self.channels)
            && self.anchors.len() <= MAX_ANCHORS
            && self.channels.len() <= MAX_CHANNELS
            && self.commons.len() <= MAX_COMMONS
            && self.limit <= MAX_JOURNAL
    }
}
