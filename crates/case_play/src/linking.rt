//! The link of a lane to the relay of a conversation.

ghost use Rattle.case_play.specs.Linked.{case_link};

use crate::case::{Conversation, NumberedKey, Setting};
use crate::objects::{room_of, sink_of, source_of};
use arrayvec::ArrayVec;
use frame_link::{Failed, MemSink, MemSource, NoRelay, RelayAnswer, RelayLink};
use keyed_seal::KeyTable;
use relay_core::{LinkRelay, LocalRelay, MemRelay, RelayTable};
use std::alloc::{AllocError, Global};

/// A link, by what a conversation says of its relay.
#[derive(Drop)]
pub enum CaseLink {
    /// There is no relay, and each call fails.
    Absent(NoRelay),
    /// A relay of the conversation's keys.
    AtHand(MemRelay),
    /// A relay that says the conversation's bytes.
    ByFrames(LinkRelay<MemSource, MemSink>),
}

impl CaseLink {
    /// A link to no relay.
    pub fn absent() -> CaseLink {
        CaseLink::Absent(NoRelay::new())
    }

    /// How often a call has failed.
    pub fn faults(&self) -> u64 {
        match self {
            CaseLink::Absent(none) => none.faults(),
            CaseLink::AtHand(relay) => relay.faults,
            CaseLink::ByFrames(frames) => frames.faults(),
        }
    }

    /// What the relay at the other end of the frames heard.
    pub fn into_heard(self) -> Option<MemSink> {
        match self {
            CaseLink::ByFrames(frames) => {
                let (_, hears) = frames.into_parts();
                Some(hears)
            }
            _ => None,
        }
    }
}

impl RelayLink for CaseLink {
    ghost shown = { λ l. case_link l };

    fn reseal(
        &mut self,
        node: u32,
        sealed: &[u8],
        out: &mut ArrayVec<u8, 2048>,
    ) -> Result<RelayAnswer, Failed> {
        match self {
            CaseLink::Absent(none) => none.reseal(node, sealed, out),
            CaseLink::AtHand(relay) => relay.reseal(node, sealed, out),
            CaseLink::ByFrames(frames) => frames.reseal(node, sealed, out),
        }
    }
}

fn table_of(alloc: Global, keys: &[NumberedKey]) -> Result<KeyTable, AllocError> {
    let mut table = KeyTable::new(alloc, keys.len())?;
    for key in keys {
        // Their numbers are distinct, and there is room for all.
        let _ = table.add(key.number, key.key);
    }
    Ok(table)
}

// A relay of the conversation's keys.
fn relay_of(alloc: Global, setting: &Setting) -> Result<MemRelay, AllocError> {
    let side = &setting.relay;
    let table = RelayTable {
        issuers: table_of(alloc, &side.issuers)?,
        nodes: table_of(alloc, &side.nodes)?,
    };
    Ok(MemRelay {
        relay: LocalRelay { alloc, table },
        fails: setting.fails.relay.to_vec(alloc)?,
        calls: 0,
        faults: side.faults.unwrap_or(0),
    })
}

// Frames of a relay that says these bytes.
fn frames_of(
    alloc: Global,
    case: &Conversation,
    says: &[u8],
) -> Result<LinkRelay<MemSource, MemSink>, AllocError> {
    let setting = &case.setting;
    let says = source_of(alloc, says, &setting.fails.says)?;
    let wanted = match &case.wanted.hears {
        Some(bytes) => bytes.len(),
        None => 0,
    };
    let room = room_of(setting.rooms.hears, wanted);
    let hears = sink_of(alloc, room, &setting.fails.hears)?;
    LinkRelay::new(alloc, says, hears)
}

/// The link of a conversation's first lane.
pub fn link_of(alloc: Global, case: &Conversation) -> Result<CaseLink, AllocError> {
    let side = &case.setting.relay;
    if let Some(says) = &side.says {
        return Ok(CaseLink::ByFrames(frames_of(alloc, case, says)?));
    }
    if side.nodes.is_empty() && side.issuers.is_empty() {
        return Ok(CaseLink::absent());
    }
    Ok(CaseLink::AtHand(relay_of(alloc, &case.setting)?))
}
