//! What is to be done in the shards once an operation is granted.

ghost use Rattle.std.specs.Prelude.{◌≡◌, ◌<◌, ◌≤◌, List, length, All, IfOk};
ghost use Rattle.std.specs.Option.{option_map};
ghost use Rattle.agent_core.specs.State.{Plan};
ghost use Rattle.agent_core.specs.Views.{event_of};
ghost use Rattle.object_core.specs.View.{operation};
ghost use Rattle.stmt_codec.specs.View.{certificates};
ghost use Rattle.taos_monitor.specs.Performing.{IsDueOf, IsReady};
ghost use Rattle.request_course.specs.Operations.{effect_of};

use agent_core::Event;
use object_core::Op;
use std::alloc::{AllocError, Global};
use std::sync::Arc;
use stmt_codec::Cert;

/// One event, for each of some shards that follow one another, from the first on.
#[derive(Drop)]
pub(crate) struct Due {
    pub(crate) first: u32,
    pub(crate) events: Vec<Event>,
}

// More handles to the certificates.
fn handles_to(alloc: Global, certs: &[Arc<Cert>]) -> Result<Vec<Arc<Cert>>, AllocError>
    ensures { IfOk result (λ handles. certificates handles.items ≡ certificates certs.now) }
{
    let mut handles = Vec::with_capacity(alloc, certs.len())?;
    for place in 0..certs.len() {
        handles.push(Arc::try_clone(&certs[place])?)?;
    }
    Ok(handles)
}

// The event that a granted operation is to a shard, if it is one.
fn effect_for(
    alloc: Global,
    op: &Op,
    certs: &[Arc<Cert>],
    reading: u64,
) -> Result<Option<Event>, AllocError>
    ensures { IfOk result (λ e. option_map event_of e
        ≡ effect_of (operation op.now) (certificates certs.now) reading) }
{
    Ok(match op {
        Op::Read | Op::Write(_) | Op::SetList(_) => None,
        Op::Hold => Some(Event::Hold(Arc::new(alloc, handles_to(alloc, certs)?)?)),
        Op::Discard(digest) => Some(Event::Discard(*digest)),
        Op::Forget(channel) => Some(Event::Forget(*channel)),
        Op::Sweep => Some(Event::Expire(reading)),
        Op::Withdraw(issuer) => Some(Event::Withdraw(*issuer)),
    })
}

// An equal event.
fn copy_of(event: &Event) -> Result<Event, AllocError>
    ensures { IfOk result (λ e. event_of e ≡ event_of event.now) }
{
    Ok(match event {
        Event::Ask(asked) => Event::Ask(Arc::try_clone(asked)?),
        Event::Keep { ask, entry, cached } => Event::Keep {
            ask: *ask,
            entry: *entry,
            cached: Arc::try_clone(cached)?,
        },
        Event::Hold(certs) => Event::Hold(Arc::try_clone(certs)?),
        Event::Discard(digest) => Event::Discard(*digest),
        Event::Forget(channel) => Event::Forget(*channel),
        Event::Expire(reading) => Event::Expire(*reading),
        Event::Withdraw(issuer) => Event::Withdraw(*issuer),
    })
}

// So many equal events.
fn copies_of(alloc: Global, event: &Event, count: u32) -> Result<Vec<Event>, AllocError>
    ensures count { IfOk result (λ v. length v.items ≡ count) }
    ensures same { IfOk result (λ v. All (λ e. event_of e ≡ event_of event.now) v.items) }
{
    let mut events = Vec::with_capacity(alloc, count as usize)?;
    for _ in 0..count {
        events.push(copy_of(event)?)?;
    }
    Ok(events)
}

/// What a granted operation is to do in so many shards. All memory that this takes is taken here.
pub(crate) fn due_for(
    alloc: Global,
    count: u32,
    op: &Op,
    certs: &[Arc<Cert>],
    reading: u64,
) -> Result<Due, AllocError>
    requires some { 0 < count }
    requires few { length certs.now ≤ 16 }
    ensures ready { IfOk result (λ d. (plans : List Plan) → length plans ≡ count
        → IsReady plans d) }
    ensures due { IfOk result (λ d. (plans : List Plan) → length plans ≡ count
        → IsDueOf plans (operation op.now) (certificates certs.now) reading d) }
{
    let Some(event) = effect_for(alloc, op, certs, reading)? else {
        return Ok(Due {
            first: 0,
            events: Vec::new(alloc),
        });
    };
    let (first, shards) = match op {
        Op::Forget(channel) => (*channel % count, 1),
        _ => (0, count),
    };
    Ok(Due {
        first,
        events: copies_of(alloc, &event, shards)?,
    })
}
