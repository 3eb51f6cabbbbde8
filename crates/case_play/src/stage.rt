//! What a call is handed: its words, what it reads from and writes to, and two lanes.

use crate::case::{Conversation, Setting};
use crate::linking::{CaseLink, link_of};
use crate::objects::{
    Around, LaneDoor, Manner, around_of, door_of, faults_at, no_door, readings_of, room_of,
    sink_of, source_of,
};
use cred_pull::LinkFetch;
use frame_link::{MemClock, MemSink, MemSource};
use std::alloc::{AllocError, Global};

/// A fetch from the wallet of a conversation.
pub type CaseFetch = LinkFetch<MemSource, MemSink>;

/// What a lane of a conversation has.
#[derive(Drop)]
pub struct CaseLane {
    pub clock: MemClock,
    pub relay: CaseLink,
    pub door: LaneDoor,
    pub fetch: CaseFetch,
}

impl CaseLane {
    /// How often the clock, the door and the fetch of a lane failed.
    pub fn faults(&self) -> u64 {
        let both = self.clock.faults().saturating_add(faults_at(&self.door));
        both.saturating_add(self.fetch.faults())
    }
}

/// What a call is handed. No door of the second lane has a connection.
#[derive(Drop)]
pub struct Stage {
    pub words: Vec<String>,
    pub around: Around,
    pub first: CaseLane,
    pub second: CaseLane,
}

fn clock_of(alloc: Global, setting: &Setting) -> Result<MemClock, AllocError> {
    let readings = readings_of(alloc, &setting.readings)?;
    Ok(MemClock::new(readings, setting.fails.clock.to_vec(alloc)?))
}

// A fetch from a wallet that says nothing, and is heard by nobody.
fn no_fetch(alloc: Global) -> Result<CaseFetch, AllocError> {
    LinkFetch::new(alloc, source_of(alloc, &[], &[])?, sink_of(alloc, 0, &[])?)
}

// A fetch from the wallet of a conversation.
fn fetch_of(alloc: Global, case: &Conversation) -> Result<CaseFetch, AllocError> {
    let wallet = &case.setting.wallet;
    let says = source_of(alloc, &wallet.says, &wallet.says_fails)?;
    let wanted = match &case.wanted.wallet_hears {
        Some(bytes) => bytes.len(),
        None => 0,
    };
    let hears = sink_of(alloc, room_of(None, wanted), &wallet.hears_fails)?;
    LinkFetch::new(alloc, says, hears)
}

/// A lane that asks no relay and fetches nothing, at whose door these calls fail.
pub fn spare_lane(alloc: Global, fails: &[u64]) -> Result<CaseLane, AllocError> {
    Ok(CaseLane {
        clock: MemClock::new(readings_of(alloc, &[])?, Vec::new(alloc)),
        relay: CaseLink::absent(),
        door: no_door(alloc, fails)?,
        fetch: no_fetch(alloc)?,
    })
}

// The first lane of a conversation.
fn first_lane(alloc: Global, case: &Conversation, manner: Manner) -> Result<CaseLane, AllocError> {
    Ok(CaseLane {
        clock: clock_of(alloc, &case.setting)?,
        relay: link_of(alloc, case)?,
        door: door_of(alloc, case, manner)?,
        fetch: fetch_of(alloc, case)?,
    })
}

/// What the call of a conversation is handed.
pub fn stage_of(alloc: Global, case: &Conversation, manner: Manner) -> Result<Stage, AllocError> {
    Ok(Stage {
        words: case.setting.words.clone()?,
        around: around_of(alloc, case, manner)?,
        first: first_lane(alloc, case, manner)?,
        second: spare_lane(alloc, &case.setting.fails.second_door)?,
    })
}
