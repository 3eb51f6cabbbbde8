//! Entries of shards as their bytes say them.

use agent_core::{Ask, Told};
use std::sync::Arc;
use stmt_codec::Cert;
use taos_calculus::Proof;

/// What is spelled of an event.
#[derive(Drop)]
pub enum SpelledEvent {
    Ask(Ask),
    /// The proof that was made for the Ask at a place of the journal, by an entry of its list. Whose
    /// it is and when its lease ends are not spelled: they follow from that Ask and the cites.
    Keep {
        ask: u64,
        entry: u8,
        proof: Proof,
        cites: Vec<Arc<Cert>>,
    },
    Hold(Vec<Arc<Cert>>),
    Discard([u8; 32]),
    Forget(u32),
    Expire(u64),
    Withdraw(u32),
}

/// What is spelled of an entry of a shard's journal.
#[derive(Drop)]
pub struct SpelledEntry {
    pub event: SpelledEvent,
    pub told: Told,
}
