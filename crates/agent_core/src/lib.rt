//! Shards: what each event makes of them, and an ask over many.
#![tactic(auto)]

mod asked;
mod event;
mod gate;
mod laws;
mod limit_laws;
mod limits;
mod plan;
mod shards;
mod told;
mod whole_ask;

pub use asked::{Asked, Denial, Settled, Verdict};
pub use event::{Ask, Event, ShardEntry, ask_in};
pub use gate::{FreeGate, Gate};
pub use laws::{
    asks_are_verdicts, cached_equals_uncached, decisions_are_verdicts, events_have_one_journal,
    few_proofs_are_kept, fronts_are_legal, hits_are_grants, how_an_ask_ended_stays,
    kept_proofs_hold, legal_is_allowed, one_more_is_legal, opened_are_shards, shards_hold_few,
    steps_may_be_alone, the_clock_never_falls, the_withdrawn_are_not_held, verdicts_differ,
    what_is_meant_stays,
};
pub use limit_laws::limits_are;
pub use limits::{
    MAX_CHANNELS, MAX_COMMONS, MAX_JOURNAL, MAX_OWN, MAX_PRESENTED, MAX_SHARDS, MAX_WITHDRAWN,
};
pub use plan::ShardPlan;
pub use shards::Shards;
pub use told::{Answer, DropCause, Snapshot, Told};
pub use whole_ask::{Decision, ask, granting_entry, judge, proof_for};
