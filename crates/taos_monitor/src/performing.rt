//! The steps of a granted operation, in one shard after another.

ghost use Rattle.std.specs.Prelude.{◌≡◌, ◌↔◌, ◌⊎◌, ◌<◌, IfSome, IsTrue};
ghost use Rattle.std.specs.Option.{option_map};
ghost use Rattle.object_core.specs.Operation.{FitsOperation};
ghost use Rattle.object_core.specs.View.{operation};
ghost use Rattle.taos_wire.specs.Reply.{FitsReply, status_of};
ghost use Rattle.taos_wire.specs.View.{reply};
ghost use Rattle.request_course.specs.Cells.{AreLegalShards, ShardsStay};
ghost use Rattle.taos_monitor.specs.Performing.{EndAs, IsReady, Performs, PerformsRuled, SteppedBy, TellsHeld, effect_due, shards_due};
ghost use Rattle.request_course.specs.Effects.{lacks_room};

use crate::due::Due;
use crate::stepping::{Went, step_one};
use agent_core::{Shards, Told};
use object_core::{Op, Ruling};
use std::alloc::Global;
use std::sync::Wait;
use taos_wire::Reply;

/// How the steps of an operation ended.
#[derive(Clone, Copy, PartialEq, Eq)]
pub(crate) enum Effected {
    /// Each was done; whether any certificate was let go.
    Through { removed: bool },
    /// This shard has no room for what the event brings, and tells this.
    NoRoom { shard: u32, told: Told },
    /// The journal of this shard has as many entries as its plan allows.
    Full { shard: u32, length: u64 },
}

// The mark of a shard's journal.
const SHARD: u8 = 1;

// Whether any was let go before, or now.
fn is_any(before: bool, count: u32) -> bool
    ensures { IsTrue result ↔ (IsTrue before ⊎ (0 < count)) }
{
    before || count > 0
}

// Steps the shards that are due, up to one that does not do it.
fn step_due<W: Wait + Sync, S: Shards>(rt: &W, alloc: Global, shards: &mut S, due: Due) -> Effected
    requires ready { IsReady (S.shown shards.old).plans due }
    requires legal { AreLegalShards (S.shown shards.old).plans (S.shown shards.old).seen }
    ensures ends { SteppedBy (S.shown shards.old) (S.shown shards.new)
        (λ steps. EndAs (S.shown shards.new).seen (effect_due due) (S.shown shards.old).plans
        (shards_due due) steps result) }
    ensures stays { ShardsStay (S.shown shards.old) (S.shown shards.new) }
{
    let first = due.first;
    let mut events = due.events;
    let count = events.len() as u32;
    let mut removed = false;
    for place in 0..count {
        let event = events.pop().unwrap();
        let shard = first + place;
        match step_one(rt, alloc, shards, shard, event) {
            Went::Done { removed: count } => removed = is_any(removed, count),
            Went::NoRoom { told } => return Effected::NoRoom { shard, told },
            Went::Full { length } => return Effected::Full { shard, length },
        }
    }
    Effected::Through { removed }
}

// The reply where an operation was to let certificates go, and none was.
fn not_held(op: &Op, removed: bool) -> Option<Reply>
    requires { FitsOperation (operation op.now) }
    ensures told { TellsHeld (operation op.now) removed (option_map reply result) }
    ensures fits { IfSome result (λ r. FitsReply (reply r) × (0 < status_of (reply r))) }
{
    match op {
        Op::Discard(digest) => {
            if removed {
                None
            } else {
                Some(Reply::NotHeld { digest: *digest })
            }
        }
        Op::Read
        | Op::Write(_)
        | Op::SetList(_)
        | Op::Hold
        | Op::Forget(_)
        | Op::Sweep
        | Op::Withdraw(_) => None,
    }
}

// The reply where a shard was told this for want of room.
fn no_room(shard: u32, told: Told) -> Option<Reply>
    ensures told { option_map reply result ≡ lacks_room shard told }
    ensures fits { IfSome result (λ r. FitsReply (reply r) × (0 < status_of (reply r))) }
{
    match told {
        Told::CommonsFull { held } => Some(Reply::CommonsFull { held, shard }),
        Told::WithdrawnFull { held } => Some(Reply::WithdrawnFull { held, shard }),
        Told::Replayed { .. }
        | Told::Full { .. }
        | Told::Hit { .. }
        | Told::Miss
        | Told::Kept
        | Told::Dropped(_)
        | Told::Held { .. }
        | Told::Removed { .. } => None,
    }
}

// Does in the shards what is due for a granted operation. The reply comes where it is not that of
// the grant.
fn perform<W: Wait + Sync, S: Shards>(
    rt: &W,
    alloc: Global,
    shards: &mut S,
    op: &Op,
    due: Due,
) -> Option<Reply>
    requires ready { IsReady (S.shown shards.old).plans due }
    requires legal { AreLegalShards (S.shown shards.old).plans (S.shown shards.old).seen }
    requires limits { FitsOperation (operation op.now) }
    ensures performed { Performs (S.shown shards.old) (S.shown shards.new) (operation op.now) due
        (option_map reply result) }
    ensures fits { IfSome result (λ r. FitsReply (reply r) × (0 < status_of (reply r))) }
    ensures stays { ShardsStay (S.shown shards.old) (S.shown shards.new) }
{
    match step_due(rt, alloc, shards, due) {
        Effected::Through { removed } => not_held(op, removed),
        Effected::NoRoom { shard, told } => no_room(shard, told),
        Effected::Full { shard, length } => Some(Reply::JournalFull {
            which: SHARD,
            number: shard,
            length,
        }),
    }
}

/// Does in the shards what is due for an operation, if it is granted. The reply comes where it is
/// not that of the ruling.
pub(crate) fn perform_ruled<W: Wait + Sync, S: Shards>(
    rt: &W,
    alloc: Global,
    shards: &mut S,
    op: &Op,
    due: Due,
    ruling: Ruling,
) -> Option<Reply>
    requires ready { IsReady (S.shown shards.old).plans due }
    requires legal { AreLegalShards (S.shown shards.old).plans (S.shown shards.old).seen }
    requires limits { FitsOperation (operation op.now) }
    ensures performed { PerformsRuled (S.shown shards.old) (S.shown shards.new) (operation op.now)
        due ruling (option_map reply result) }
    ensures fits { IfSome result (λ r. FitsReply (reply r) × (0 < status_of (reply r))) }
    ensures stays { ShardsStay (S.shown shards.old) (S.shown shards.new) }
{
    match ruling {
        Ruling::Granted { .. } => perform(rt, alloc, shards, op, due),
        Ruling::Denied => None,
    }
}
