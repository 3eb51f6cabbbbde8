//! What happens to a shard, and the entry that its journal has of it.

ghost use Rattle.std.specs.Prelude.{◌≡◌};
ghost use Rattle.std.specs.Option.{option_map};
ghost use Rattle.agent_core.specs.State.{ask_in};
ghost use Rattle.agent_core.specs.Views.{ask_of, event_of};

use crate::told::Told;
use prin_term::{Entry, Term};
use proof_cache::Cached;
use std::sync::Arc;
use stmt_codec::Cert;

/// A channel asks for a right on an access list, and presents certificates.
#[derive(Drop)]
pub struct Ask {
    pub channel: u32,
    /// The request's number, which has to be above all earlier ones of its channel.
    pub seq: u64,
    /// What the clock read.
    pub reading: u64,
    /// The channel's key, alone or quoting another principal.
    pub subject: Term,
    pub list: Arc<Vec<Entry>>,
    pub right: u8,
    pub presented: Vec<Arc<Cert>>,
}

#[derive(Drop)]
pub enum Event {
    Ask(Arc<Ask>),
    /// The proof that was made for the Ask at a place of the journal, and grants it by an entry of
    /// its list, is kept.
    Keep {
        ask: u64,
        entry: u8,
        cached: Arc<Cached>,
    },
    /// These are held in common.
    Hold(Arc<Vec<Arc<Cert>>>),
    /// The certificates of this digest are let go.
    Discard([u8; 32]),
    /// The channel's own certificates are let go.
    Forget(u32),
    /// The clock read this: certificates that ended long enough ago are let go.
    Expire(u64),
    /// The issuer's certificates are let go, and none of them is held from then on.
    Withdraw(u32),
}

/// The Ask that an event is, if it is one.
pub fn ask_in(event: &Event) -> Option<&Ask>
    ensures { option_map (λ a. ask_of a.now) result ≡ ask_in (event_of event.now) }
{
    match event {
        Event::Ask(asked) => Some(asked),
        Event::Keep { .. }
        | Event::Hold(_)
        | Event::Discard(_)
        | Event::Forget(_)
        | Event::Expire(_)
        | Event::Withdraw(_) => None,
    }
}

/// An entry of a shard's journal.
#[derive(Drop)]
pub struct ShardEntry {
    pub event: Event,
    pub told: Told,
}

const _: () = prove!(size_of::<ShardEntry>() <= 256);
