//! The ask of a request that came to its object, and the reply that tells how that ended.

ghost use Rattle.std.specs.Prelude.{◌≡◌, ◌<◌, ◌≤◌, ◌^◌, All, IfOk, IfSome, OnErr, length, map};
ghost use Rattle.object_core.specs.Objects.{content_after};
ghost use Rattle.object_core.specs.Operation.{IsAccessList, IsContent};
ghost use Rattle.object_core.specs.declared.ruling.Ruling.TheVariants as rulings;
ghost use Rattle.object_core.specs.View.{operation};
ghost use Rattle.prin_term.specs.View.{grant};
ghost use Rattle.agent_core.specs.Plans.{IsPlan};
ghost use Rattle.agent_core.specs.Shards.{home_of};
ghost use Rattle.agent_core.specs.Views.{ask_of};
ghost use Rattle.taos_wire.specs.Request.{FitsRequest};
ghost use Rattle.taos_wire.specs.View.{lent_grant, request};
ghost use Rattle.taos_monitor.specs.Arriving.{StandsFor};
ghost use Rattle.request_course.specs.Cells.{AreLegalShards, ShardsStay};
ghost use Rattle.request_course.specs.Operations.{result_of};
ghost use Rattle.taos_monitor.specs.Planned.{IsPlanned};
ghost use Rattle.taos_monitor.specs.Ruling.{DecidedTo, Drafts, EndsAsked, HasPart, IsToldBy, LacksAsked, MayTell, TellsDenied, TellsGrant, ask_seen, list_of, ruled_at, telling};

use crate::arrival::Arrived;
use crate::reply::ReplyBuf;
use agent_core::{Ask, Asked, Denial, Gate, Shards, Verdict, ask};
use object_core::{Object, Op, Ruling};
use prin_term::Entry;
use std::alloc::{AllocError, Global};
use std::sync::{Arc, Wait};
use taos_calculus::Decide;
use taos_wire::{LentGrant, LentPart, LinkSent, MAX_CITED, Reply, Request};

/// A request that came to its object and to the clock: at which shard it is asked, and what the
/// clock read.
#[derive(Drop)]
pub(crate) struct Came<'a> {
    pub(crate) asked: &'a Request,
    pub(crate) shard: u32,
    pub(crate) arrived: Arrived,
    pub(crate) reading: u64,
}

/// The ruling on a request, with the shard and the place of its Ask.
#[derive(Clone, Copy)]
pub(crate) struct Ruled {
    pub(crate) shard: u32,
    pub(crate) place: u64,
    pub(crate) ruling: Ruling,
}

/// What a decision is made by, and what it passes.
#[derive(Drop)]
pub(crate) struct Deciding<'d, 'g, D, G> {
    pub(crate) bench: &'d mut D,
    pub(crate) gate: &'g mut G,
}

// The marks of the journals of objects and of shards.
const OBJECT: u8 = 0;

const SHARD: u8 = 1;

// The ask that a request makes, of the access list, at what the clock read.
fn ask_for(
    alloc: Global,
    asked: &Request,
    arrived: Arrived,
    list: &Arc<Vec<Entry>>,
    reading: u64,
) -> Result<Arc<Ask>, AllocError>
    ensures { IfOk result (λ a. ask_of a.value
        ≡ ask_seen (request asked.now) arrived (map grant list.now.value.items) reading) }
{
    let list = Arc::try_clone(list)?;
    let made = Ask {
        channel: asked.channel,
        seq: asked.seq,
        reading,
        subject: arrived.subject,
        list,
        right: arrived.right,
        presented: arrived.certs,
    };
    Ok(Arc::new(alloc, made)?)
}

// The ask at the shard of the channel, of the access list, and how it ended.
fn ask_at_home<W: Wait + Sync, S: Shards, D: Decide, G: Gate>(
    rt: &W,
    alloc: Global,
    shards: &mut S,
    by: Deciding<'_, '_, D, G>,
    came: Came<'_>,
    list: &Arc<Vec<Entry>>,
) -> Result<Asked, AllocError>
    requires limits { FitsRequest (request came.asked.now) }
    requires stands { StandsFor (request came.asked.now) came.arrived }
    requires list { IsAccessList (map grant list.now.value.items) }
    requires there { home_of (S.shown shards.old) came.asked.now.channel
        < length (S.shown shards.old).plans }
    requires legal { AreLegalShards (S.shown shards.old).plans (S.shown shards.old).seen }
    requires planned { IsPlanned (S.shown shards.old).plans came.asked.now.channel }
    ensures ended { IfOk result (EndsAsked (S.shown shards.old) (S.shown shards.new) came.entry
        (map grant list.now.value.items)) }
    ensures lacked { OnErr result (LacksAsked (S.shown shards.old) (S.shown shards.new) came.entry
        (map grant list.now.value.items)) }
    ensures stays { ShardsStay (S.shown shards.old) (S.shown shards.new) }
{
    let made = ask_for(alloc, came.asked, came.arrived, list, came.reading)?;
    let Deciding { bench, gate } = by;
    ask(rt, alloc, shards, bench, gate, made)
}

// Drafts a denial: a part of an entry is told by itself.
fn draft_denied(
    out: &mut ReplyBuf,
    asked: &Request,
    list: &[Entry],
    shard: u32,
    place: u64,
    denial: Denial,
)
    requires list { IsAccessList (map grant list.now) }
    requires named { HasPart (map grant list.now) denial }
    ensures { Drafts asked.now.channel asked.now.seq out.new
        (TellsDenied (map grant list.now) shard place denial) }
{
    let (channel, seq) = (asked.channel, asked.seq);
    let link = match denial {
        Denial::Missing { entry, node } => {
            let part = list[entry as usize].who.part(node).unwrap();
            let missing = LentPart {
                shard,
                place,
                entry,
                part,
            };
            out.draft_missing(channel, seq, &missing);
            return;
        }
        Denial::Expired { entry, digest } => LinkSent::Expired { entry, digest },
        Denial::Early { entry, digest } => LinkSent::Early { entry, digest },
        Denial::NoEntry => LinkSent::NoEntry,
    };
    let answer = Reply::Denied { shard, place, link };
    out.draft(channel, seq, &answer);
}

// What an operation gives: the content for a Read.
fn result_for<'a>(op: &Op, object: &'a Object) -> &'a [u8]
    ensures value { result.now ≡ result_of (operation op.now)
        (content_after object.now.plan object.now.journal) }
    ensures fits { IsContent result.now }
{
    match op {
        Op::Read => object.content(),
        _ => &[],
    }
}

// Drafts a grant, with what its operation gives; there is a ruling where memory was enough.
fn draft_grant(out: &mut ReplyBuf, asked: &Request, grant: &LentGrant<'_>) -> Option<Ruled>
    requires few { length grant.now.certs.now ≤ MAX_CITED }
    requires short { length grant.now.content.now < 2 ^ 16 }
    ensures { Drafts asked.now.channel asked.now.seq out.new
        (TellsGrant (lent_grant grant.now)
        (ruled_at grant.now.shard grant.now.place (rulings.Granted grant.now.entry)) result) }
{
    if out.draft_granted(asked.channel, asked.seq, grant) {
        Some(Ruled {
            shard: grant.shard,
            place: grant.place,
            ruling: Ruling::Granted { entry: grant.entry },
        })
    } else {
        None
    }
}

// Drafts what an ask ended with; the ruling, if there is one.
fn draft_ended(
    out: &mut ReplyBuf,
    asked: &Request,
    object: &Object,
    shard: u32,
    ended: &Asked,
) -> Option<Ruled>
    requires named { MayTell (list_of object.now) ended.now.verdict }
    ensures { Drafts asked.now.channel asked.now.seq out.new
        (IsToldBy (telling (request asked.now) object.now shard ended.now.place ended.now.kept)
        ended.now.verdict result) }
{
    let place = ended.place;
    let answer = match &ended.verdict {
        Verdict::Granted { entry, cached } => {
            let grant = LentGrant {
                kept: ended.kept,
                entry: *entry,
                shard,
                place,
                proof: &cached.proof,
                certs: &cached.cites,
                content: result_for(&asked.op, object),
            };
            return draft_grant(out, asked, &grant);
        }
        Verdict::Denied(denial) => {
            draft_denied(out, asked, object.list(), shard, place, *denial);
            return Some(Ruled {
                shard,
                place,
                ruling: Ruling::Denied,
            });
        }
        Verdict::Replayed { last } => Reply::Replayed { last: *last },
        Verdict::Full { held } => Reply::ChannelFull { held: *held },
        Verdict::JournalFull { length } => Reply::JournalFull {
            which: SHARD,
            number: shard,
            length: *length,
        },
    };
    out.draft(asked.channel, asked.seq, &answer);
    None
}

/// Asks at the shard of the channel for the object, unless its journal is full, and drafts what
/// came of it; the ruling, if there is one.
pub(crate) fn decide<W: Wait + Sync, S: Shards, D: Decide, G: Gate>(
    rt: &W,
    alloc: Global,
    shards: &mut S,
    by: Deciding<'_, '_, D, G>,
    came: Came<'_>,
    object: &Object,
    out: &mut ReplyBuf,
) -> Option<Ruled>
    requires shard { came.shard ≡ home_of (S.shown shards.old) came.asked.now.channel }
    requires there { home_of (S.shown shards.old) came.asked.now.channel
        < length (S.shown shards.old).plans }
    requires sound { All IsPlan (S.shown shards.old).plans }
    requires legal { AreLegalShards (S.shown shards.old).plans (S.shown shards.old).seen }
    requires limits { FitsRequest (request came.asked.now) }
    requires stands { StandsFor (request came.asked.now) came.arrived }
    requires planned { IsPlanned (S.shown shards.old).plans came.asked.now.channel }
    ensures decided { Drafts came.entry.asked.now.channel came.entry.asked.now.seq out.new
        (DecidedTo (S.shown shards.old) (S.shown shards.new) (came.entry, object.now, result)) }
    ensures room { IfSome result (λ r. length object.now.journal < object.now.limit) }
    ensures stays { ShardsStay (S.shown shards.old) (S.shown shards.new) }
{
    let (asked, shard) = (came.asked, came.shard);
    if !object.has_room() {
        let full = Reply::JournalFull {
            which: OBJECT,
            number: asked.object,
            length: object.journal().len() as u64,
        };
        out.draft(asked.channel, asked.seq, &full);
        return None;
    }
    match ask_at_home(rt, alloc, shards, by, came, object.list()) {
        Ok(ended) => draft_ended(out, asked, object, shard, &ended),
        Err(AllocError) => {
            out.draft(asked.channel, asked.seq, &Reply::NoMemory);
            None
        }
    }
}
