//! All shards of a node are opened.

ghost use Rattle.std.specs.Prelude.{◌≡◌, ◌≤◌, map, IfOk};
ghost use Rattle.stmt_codec.specs.View.{certificates};
ghost use Rattle.shard_core.specs.Alone.{plans_in};
ghost use Rattle.agent_core.specs.Opened.{MayOpen, own_channels, plans_for};
ghost use Rattle.shard_core.specs.Opened.{plan_by, new_shard};
ghost use Rattle.agent_core.specs.Plans.{AreShards};

use crate::shard::Shard;
use agent_core::ShardPlan;
use prin_term::Anchor;
use std::alloc::{AllocError, Global};
use std::sync::Arc;
use stmt_codec::Cert;

// What all shards of a node are opened with.
#[derive(Clone, Copy)]
struct Whole<'a> {
    channels: &'a [u32],
    shards: u32,
    anchors: &'a Arc<Vec<Anchor>>,
    commons: &'a [Arc<Cert>],
    keep: u64,
    limit: u64,
}

// The channels of one shard.
fn channels_of(
    alloc: Global,
    channels: &[u32],
    shards: u32,
    number: u32,
) -> Result<Vec<u32>, AllocError>
    requires { 1 ≤ shards }
    ensures { IfOk result (λ own. own.items ≡ own_channels channels.now shards number) }
{
    let mut own = Vec::new(alloc);
    for place in 0..channels.len() {
        let channel = channels[place];
        if channel % shards == number {
            own.push(channel)?;
        }
    }
    Ok(own)
}

// More handles to the certificates.
fn handles_to(alloc: Global, certs: &[Arc<Cert>]) -> Result<Vec<Arc<Cert>>, AllocError>
    ensures { IfOk result (λ handles. certificates handles.items ≡ certificates certs.now) }
{
    let mut handles = Vec::with_capacity(alloc, certs.len())?;
    for place in 0..certs.len() {
        handles.push(Arc::try_clone(&certs[place])?)?;
    }
    Ok(handles)
}

// One of the shards.
fn open_shard(alloc: Global, whole: Whole<'_>, number: u32) -> Result<Shard, AllocError>
    requires { MayOpen whole.channels.now whole.shards whole.anchors.now.value.items
        (certificates whole.commons.now) whole.limit }
    ensures { IfOk result (λ shard. shard ≡ new_shard (plan_by whole.entry number)) }
{
    let plan = ShardPlan {
        number,
        shards: whole.shards,
        anchors: Arc::try_clone(whole.anchors)?,
        channels: channels_of(alloc, whole.channels, whole.shards, number)?,
        commons: handles_to(alloc, whole.commons)?,
        keep: whole.keep,
        limit: whole.limit,
    };
    Shard::new(alloc, plan)
}

/// The shards of a node in the order of their numbers, each with an empty journal and the channels
/// that are its own. All their memory is taken here, but for what Asks present and are handed out.
pub fn open_shards(
    alloc: Global,
    channels: &[u32],
    shards: u32,
    anchors: &Arc<Vec<Anchor>>,
    commons: &[Arc<Cert>],
    keep: u64,
    limit: u64,
) -> Result<Vec<Shard>, AllocError>
    requires { MayOpen channels.now shards anchors.now.value.items (certificates commons.now)
        limit }
    ensures value { IfOk result (λ opened. opened.items ≡ map new_shard (plans_for channels.now
        shards anchors.now.value.items (certificates commons.now) keep limit)) }
    ensures whole { IfOk result (λ opened. AreShards (plans_in opened.items)
        anchors.now.value.items) }
{
    let mut opened = Vec::with_capacity(alloc, shards as usize)?;
    for number in 0..shards {
        let whole = Whole {
            channels,
            shards,
            anchors,
            commons,
            keep,
            limit,
        };
        opened.push(open_shard(alloc, whole, number)?)?;
    }
    Ok(opened)
}
