//! What the node of a drill is opened with.

ghost use Rattle.std.specs.Prelude.{◌≡◌, ◌+◌, ◌≤◌, List, [], ◌∷◌, ◌++◌, ℕ, length, map, IfOk, OnOk};
ghost use Rattle.std.specs.Prelude.{if◌then◌else◌};
ghost use Rattle.std.specs.List.{range_with_len};
ghost use Rattle.prin_term.specs.View.{grant};
ghost use Rattle.prin_text.specs.Held.{HoldsKeys};
ghost use Rattle.node_file.specs.OpeningView.{Represents};
ghost use Rattle.node_file.specs.Plans.{plan};
ghost use Rattle.taos_drill.specs.Opened.{drill_channels, drill_objects, drill_opening};
ghost use Rattle.taos_drill.specs.Opened.{empty_object, reader};
ghost use Rattle.taos_drill.specs.Words.{keys_of};

use crate::numbers::{CLOSED, ISSUER, MAX_LANES, MAX_REQUESTS, NAME};
use crate::words::key_at;
use keyed_seal::KeyTable;
use node_file::{ObjectPlan, ObjectPlans, Opening};
use prin_term::{Anchor, Entry, Term};
use prin_text::Names;
use std::alloc::{AllocError, Global};
use std::sync::Arc;

const NODE: u32 = 1;

const SHARDS: u32 = 4;

const KEEP: u64 = 3_600;

const READ: u8 = 1;

// The channels, numbered from 1, with the keys behind the relay's.
fn channels_of(alloc: Global, keys: &[[u8; 32]], lanes: u32) -> Result<KeyTable, AllocError>
    requires few { lanes ≤ MAX_LANES }
    requires keys { length keys.now ≡ lanes + 1 }
    ensures { IfOk result (λ table. (seed : ℕ) → keys.now ≡ keys_of seed lanes
        → HoldsKeys table (drill_channels seed lanes)) }
{
    let mut table = KeyTable::new(alloc, lanes as usize)?;
    'lanes: for lane in 0..lanes {
        let channel = lane + 1;
        table.add(channel, key_at(keys, channel)).unwrap();
    }
    Ok(table)
}

// The access list of an object that name 1 may read, or of one that nobody may.
fn list_of(alloc: Global, is_open: bool) -> Result<Vec<Entry>, AllocError>
    ensures { IfOk result (λ list. map grant list.items
        ≡ (if is_open then reader ∷ [] else [])) }
{
    let mut list = Vec::new(alloc);
    if is_open {
        list.push(Entry {
            rights: READ,
            who: Term::Name(NAME),
        })?;
    }
    Ok(list)
}

// An empty object.
fn object_of(alloc: Global, number: u32, is_open: bool) -> Result<ObjectPlan, AllocError>
    ensures { IfOk result (λ object. plan object
        ≡ empty_object (if is_open then reader ∷ [] else []) number) }
{
    Ok(ObjectPlan {
        number,
        content: Vec::new(alloc),
        list: Arc::new(alloc, list_of(alloc, is_open)?)?,
    })
}

// So many empty objects more, numbered from `first` on.
fn add_objects(
    alloc: Global,
    plans: &mut Vec<ObjectPlan>,
    first: u32,
    lanes: u32,
    is_open: bool,
) -> Result<(), AllocError>
    requires few { lanes ≤ MAX_LANES }
    requires low { first ≤ 101 }
    ensures { OnOk result (map plan plans.new.items ≡ map plan plans.old.items
        ++ map (empty_object (if is_open then reader ∷ [] else [])) (range_with_len first lanes)) }
{
    'lanes: for lane in 0..lanes {
        plans.push(object_of(alloc, first + lane, is_open)?)?;
    }
    Ok(())
}

// The objects that name 1 may read, then those that nobody may.
fn objects_of(alloc: Global, lanes: u32) -> Result<ObjectPlans, AllocError>
    requires { lanes ≤ MAX_LANES }
    ensures { IfOk result (λ plans. plans ≡ drill_objects lanes) }
{
    let mut plans = Vec::with_capacity(alloc, 2 * lanes as usize)?;
    add_objects(alloc, &mut plans, 1, lanes, true)?;
    add_objects(alloc, &mut plans, CLOSED + 1, lanes, false)?;
    Ok(ObjectPlans::of(plans))
}

// The opening, by the relay's key and those of the channels.
pub(crate) fn opening_of(
    alloc: Global,
    keys: &[[u8; 32]],
    requests: u32,
    lanes: u32,
) -> Result<Opening, AllocError>
    requires few_requests { requests ≤ MAX_REQUESTS }
    requires few_lanes { lanes ≤ MAX_LANES }
    requires keys { length keys.now ≡ lanes + 1 }
    ensures { IfOk result (λ o. (seed : ℕ) → keys.now ≡ keys_of seed lanes
        → Represents o (drill_opening seed requests lanes)) }
{
    let issuer = Anchor {
        key: ISSUER,
        name: NAME,
    };
    Ok(Opening {
        node: NODE,
        relay_key: key_at(keys, 0),
        shards: SHARDS,
        keep: KEEP,
        limit: 2 * requests as u64 + 16,
        names: Names::new(alloc)?,
        channels: channels_of(alloc, keys, lanes)?,
        anchors: Arc::new(alloc, vec![in alloc; issuer]?)?,
        commons: Vec::new(alloc),
        objects: objects_of(alloc, lanes)?,
    })
}
