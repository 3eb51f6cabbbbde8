//! A node of channels 2 and 3, and object 5, which nobody may read; and reads of it.

ghost use Rattle.std.specs.Prelude.{◌<◌, ◌^◌, IfOk};
ghost use Rattle.taos_lanes.specs.Parts.{ArePartsNew};

use frame_link::MemSource;
use keyed_seal::{KeyTable, Sealer};
use object_core::{Object, Op};
use shard_core::{Lone, open_shards};
use std::alloc::{AllocError, Global};
use std::sync::Arc;
use std::test::Fail;
use taos_lanes::{NodeParts, keys_fit};
use taos_monitor::NodeKeys;
use taos_wire::{Request, write_request};

/// The key of each channel.
pub(crate) const KEY: [u8; 32] = [1; 32];

pub(crate) fn keys_of(alloc: Global) -> Result<NodeKeys, Fail> {
    let mut channels = KeyTable::new(alloc, 2)?;
    for number in [2, 3] {
        if channels.add(number, KEY).is_err() {
            return Err(Fail::new("no room for a key"));
        }
    }
    Ok(NodeKeys {
        node: 1,
        relay_key: Sealer::of(&KEY),
        channels,
    })
}

/// The node's parts, with one shard.
pub(crate) fn parts(alloc: Global) -> Result<NodeParts, Fail>
    ensures { IfOk result ArePartsNew }
{
    let keys = keys_of(alloc)?;
    let anchors = Arc::new(alloc, Vec::new(alloc))?;
    let shards = open_shards(alloc, &[2, 3], 1, &anchors, &[], 3600, 1000)?;
    let lone = Lone::new(shards, Arc::try_clone(&anchors)?);
    if !keys_fit(&keys, &lone) {
        return Err(Fail::new("no channel"));
    }
    let object = Object::new(alloc, 5, &[], Arc::new(alloc, Vec::new(alloc))?, 10)?;
    Ok(NodeParts {
        keys,
        shards: lone.close(),
        anchors,
        commons: Vec::new(alloc),
        objects: vec![in alloc; object]?,
    })
}

/// The bytes as a frame.
pub(crate) fn frame_of(alloc: Global, payload: &[u8]) -> Result<MemSource, AllocError> {
    let mut frame = vec![in alloc; 0, 0, 0, payload.len().min(255) as u8]?;
    frame.extend_from_slice(payload)?;
    Ok(MemSource::new(frame, Vec::new(alloc), Vec::new(alloc)))
}

/// A frame in which the channel reads the object.
pub(crate) fn read_by(alloc: Global, channel: u32, seq: u64) -> Result<MemSource, AllocError> {
    let mut payload = Vec::new(alloc);
    let asked = Request {
        channel,
        seq,
        quoted: None,
        object: 5,
        op: Arc::new(alloc, Op::Read)?,
        certs: Vec::new(alloc),
    };
    write_request(&mut payload, &KEY, &asked)?;
    frame_of(alloc, &payload)
}
