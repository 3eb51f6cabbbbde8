//! What came of a call.

use crate::case::{Conversation, Setting};
use crate::objects::{Around, LaneDoor, left_of, written_to};
use crate::stage::Stage;
use frame_link::MemSink;
use std::alloc::{AllocError, Global};

/// What came of a call.
#[derive(Drop)]
pub struct Played {
    pub status: u8,
    pub around: Around,
    /// What the first lane's connections gave, one after the other; without a number of them the input.
    pub asked: Vec<u8>,
    /// What was written to the connections of the first lane's door, in order, and then to the output.
    pub written: Vec<u8>,
    /// How often the objects of the call failed, all together.
    pub faults: u64,
    /// What the relay at the other end of a link heard.
    pub hears: Option<MemSink>,
    /// What the wallet at the other end of a link heard.
    pub wallet_hears: MemSink,
    /// What was not taken of the input.
    pub left: Vec<u8>,
}

// What was not taken of the input, where that is wanted.
fn rest_of(alloc: Global, case: &Conversation, around: &mut Around) -> Result<Vec<u8>, AllocError> {
    match &case.wanted.left {
        Some(_) => left_of(alloc, &mut around.input),
        None => Ok(Vec::new(alloc)),
    }
}

// What was written to the door's connections, and then to the output.
fn all_written(alloc: Global, around: &Around, door: &LaneDoor) -> Result<Vec<u8>, AllocError> {
    let mut written = written_to(alloc, door)?;
    written.extend_from_slice(around.output.written())?;
    Ok(written)
}

// The input as often as it was given.
fn all_asked(alloc: Global, setting: &Setting) -> Result<Vec<u8>, AllocError> {
    let times = setting.connections.unwrap_or(1) as usize;
    setting.input.as_slice().repeat(alloc, times)
}

/// What came of a call that ended with this status and left this.
pub fn played_of(
    alloc: Global,
    case: &Conversation,
    status: u8,
    stage: Stage,
) -> Result<Played, AllocError> {
    let Stage {
        words: _,
        mut around,
        first,
        second,
    } = stage;
    let both = first.faults().saturating_add(second.faults());
    let faults = around.faults().saturating_add(both);
    let written = all_written(alloc, &around, &first.door)?;
    let left = rest_of(alloc, case, &mut around)?;
    let faults = faults.saturating_add(first.relay.faults());
    let (_, wallet_hears) = first.fetch.into_parts();
    Ok(Played {
        status,
        around,
        asked: all_asked(alloc, &case.setting)?,
        written,
        faults,
        hears: first.relay.into_heard(),
        wallet_hears,
        left,
    })
}
