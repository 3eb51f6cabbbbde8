//! Writing a reply.

ghost use Rattle.std.specs.Prelude.{◌≡◌, ◌++◌, ◌+◌, ◌<◌, ◌≤◌, ◌^◌, ◌∷◌, [], drop, length, OnOk};
ghost use Rattle.std.specs.Int.{w32, w64, to_be_bytes};
ghost use Rattle.std.specs.Option.{option_copied};
ghost use Rattle.byte_fields.specs.Appends.{Appends, Pushes};
ghost use Rattle.prin_term.specs.Principal.{spelling as term_spelling};
ghost use Rattle.prin_term.specs.View.{principal};
ghost use Rattle.taos_wire.specs.Reply.{FitsReply, answered_bytes, fields_of, link_bytes};
ghost use Rattle.taos_wire.specs.Reply.{reply_text, seal_of, sent, spelling, status_of};
ghost use Rattle.taos_wire.specs.View.{link, reply};

use crate::reply::{LAST_STATUS, LentGrant, LinkSent, Reply};
use crate::reply_granting::push_granted;
use keyed_seal::Sealer;
use prin_term::{Term, write_term};
use std::alloc::AllocError;

/// The version of a reply.
pub const VERSION: u8 = 4;

/// The status of a grant.
pub const GRANTED: u8 = 0;

/// The status of a denial.
pub const DENIED: u8 = 1;

const MISSING: u8 = 2;

/// Appends the reply's one spelling, under the tag of the key or, without one, with a tag of
/// zeros. The reply has to be within the limits of replies. An `Err` changes nothing.
pub fn write_reply(
    out: &mut Vec<u8>,
    key: Option<&[u8; 32]>,
    channel: u32,
    seq: u64,
    answer: &Reply,
) -> Result<(), AllocError>
    requires limits { FitsReply (reply answer.now) }
    ensures appends { Appends out.old out.new
        (spelling (sent (option_copied key.entry) channel seq (reply answer.now))) result }
    // A reply's frame is short enough for a frame of replies.
    ensures short { OnOk result (length
        (spelling (sent (option_copied key.entry) channel seq (reply answer.now))) < 2 ^ 26) }
    // All but a grant fit a small buffer.
    ensures small { 0 < status_of (reply answer.now)
        → length (spelling (sent (option_copied key.entry) channel seq (reply answer.now))) ≤ 256 }
{
    match key {
        Some(key) => write_reply_with(out, Some(&Sealer::of(key)), channel, seq, answer),
        None => write_reply_with(out, None, channel, seq, answer),
    }
}

/// The same under a key that is ready to seal.
pub fn write_reply_with(
    out: &mut Vec<u8>,
    sealer: Option<&Sealer>,
    channel: u32,
    seq: u64,
    answer: &Reply,
) -> Result<(), AllocError>
    requires limits { FitsReply (reply answer.now) }
    ensures appends { Appends out.old out.new
        (spelling (sent (option_copied sealer.entry) channel seq (reply answer.now))) result }
    ensures short { OnOk result (length
        (spelling (sent (option_copied sealer.entry) channel seq (reply answer.now))) < 2 ^ 26) }
    // All but a grant fit a small buffer.
    ensures small { 0 < status_of (reply answer.now) → length
        (spelling (sent (option_copied sealer.entry) channel seq (reply answer.now))) ≤ 256 }
{
    let len = out.len();
    let written = push_reply(out, sealer, channel, seq, answer);
    if written.is_err() {
        out.truncate(len);
    }
    written
}

// Appends the text and its seal.
fn push_reply(
    out: &mut Vec<u8>,
    sealer: Option<&Sealer>,
    channel: u32,
    seq: u64,
    answer: &Reply,
) -> Result<(), AllocError>
    requires limits { FitsReply (reply answer.now) }
    ensures pushes { Pushes out.old out.new
        (spelling (sent (option_copied sealer.entry) channel seq (reply answer.now))) result }
    ensures short { OnOk result (length
        (spelling (sent (option_copied sealer.entry) channel seq (reply answer.now))) < 2 ^ 26) }
{
    let start = out.len();
    push_text(out, channel, seq, answer)?;
    push_seal(out, sealer, start)
}

// The seal of what stands from `start` on.
pub(crate) fn push_seal(
    out: &mut Vec<u8>,
    sealer: Option<&Sealer>,
    start: usize,
) -> Result<(), AllocError>
    requires within { start ≤ length out.old.items }
    ensures { Appends out.old out.new
        (seal_of (option_copied sealer.entry) (drop start out.old.items)) result }
{
    let seal = match sealer {
        Some(sealer) => sealer.tag(&out[start..]),
        None => [0; 32],
    };
    out.extend_from_slice(&seal)
}

#[tactic(auto, unfolding(crate::specs::Reply::reply_text))]
fn push_text(out: &mut Vec<u8>, channel: u32, seq: u64, answer: &Reply) -> Result<(), AllocError>
    requires limits { FitsReply (reply answer.now) }
    ensures pushes { Pushes out.old out.new (reply_text channel seq (reply answer.now)) result }
    ensures short { OnOk result
        (length (reply_text channel seq (reply answer.now)) < 2 ^ 25 + 2 ^ 18) }
{
    push_head(out, channel, seq, status_of(answer))?;
    push_fields(out, answer)
}

// The version, the channel and the number that are answered, and the status.
pub(crate) fn push_head(
    out: &mut Vec<u8>,
    channel: u32,
    seq: u64,
    status: u8,
) -> Result<(), AllocError>
    ensures { Pushes out.old out.new (answered_bytes channel seq ++ status ∷ []) result }
{
    out.extend_from_slice(&head_of(channel, seq, status))
}

fn head_of(channel: u32, seq: u64, status: u8) -> [u8; 14]
    ensures { result ≡ answered_bytes channel seq ++ status ∷ [] }
{
    let c = channel.to_be_bytes();
    let s = seq.to_be_bytes();
    [
        VERSION, c[0], c[1], c[2], c[3], s[0], s[1], s[2], s[3], s[4], s[5], s[6], s[7], status,
    ]
}

fn status_of(answer: &Reply) -> u8
    ensures { result ≡ status_of (reply answer.now) }
{
    match answer {
        Reply::Granted { .. } => GRANTED,
        Reply::Denied { .. } => DENIED,
        Reply::Malformed { .. } => 2,
        Reply::UnknownChannel { .. } => 3,
        Reply::BadSeal => 4,
        Reply::Replayed { .. } => 5,
        Reply::CertRefused { .. } => 6,
        Reply::ChannelFull { .. } => 7,
        Reply::RelayFailed { .. } => 8,
        Reply::UnknownObject { .. } => 9,
        Reply::JournalFull { .. } => 10,
        Reply::NoMemory => 11,
        Reply::CommonsFull { .. } => 12,
        Reply::NotHeld { .. } => 13,
        Reply::WithdrawnFull { .. } => LAST_STATUS,
    }
}

fn push_fields(out: &mut Vec<u8>, answer: &Reply) -> Result<(), AllocError>
    requires limits { FitsReply (reply answer.now) }
    ensures pushes { Pushes out.old out.new (fields_of (reply answer.now)) result }
    ensures short { OnOk result (length (fields_of (reply answer.now)) < 2 ^ 25 + 2 ^ 17 + 2 ^ 16) }
{
    match answer {
        Reply::Granted {
            kept,
            entry,
            shard,
            place,
            proof,
            certs,
            result,
        } => {
            let grant = LentGrant {
                kept: *kept,
                entry: *entry,
                shard: *shard,
                place: *place,
                proof,
                certs,
                content: result,
            };
            push_granted(out, &grant)
        }
        Reply::Denied { shard, place, link } => push_denied(out, *shard, *place, link),
        Reply::Malformed { offset: number }
        | Reply::UnknownChannel { number }
        | Reply::UnknownObject { number } => out.extend_from_slice(&number.to_be_bytes()),
        Reply::Replayed { last } => out.extend_from_slice(&last.to_be_bytes()),
        Reply::CertRefused { index, code } => out.extend_from_slice(&[*index, *code]),
        Reply::ChannelFull { held: byte } | Reply::RelayFailed { index: byte } => {
            out.extend_from_slice(&[*byte])
        }
        Reply::JournalFull {
            which,
            number,
            length,
        } => { out.extend_from_slice(&journal_of(*which, *number, *length)) }
        Reply::CommonsFull { held, shard } | Reply::WithdrawnFull { held, shard } => {
            out.extend_from_slice(&full_of(*held, *shard))
        }
        Reply::NotHeld { digest } => out.extend_from_slice(digest),
        Reply::BadSeal | Reply::NoMemory => Ok(()),
    }
}

fn journal_of(which: u8, number: u32, length: u64) -> [u8; 13]
    ensures { result ≡ which ∷ to_be_bytes w32 number ++ to_be_bytes w64 length }
{
    let n = number.to_be_bytes();
    let l = length.to_be_bytes();
    [
        which, n[0], n[1], n[2], n[3], l[0], l[1], l[2], l[3], l[4], l[5], l[6], l[7],
    ]
}

// How many are held, and the shard that has no room for more.
fn full_of(held: u8, shard: u32) -> [u8; 5]
    ensures { result ≡ held ∷ to_be_bytes w32 shard }
{
    let s = shard.to_be_bytes();
    [held, s[0], s[1], s[2], s[3]]
}

// A shard, and a place of its journal.
pub(crate) fn place_of(shard: u32, place: u64) -> [u8; 12]
    ensures { result ≡ to_be_bytes w32 shard ++ to_be_bytes w64 place }
{
    let s = shard.to_be_bytes();
    let p = place.to_be_bytes();
    [
        s[0], s[1], s[2], s[3], p[0], p[1], p[2], p[3], p[4], p[5], p[6], p[7],
    ]
}

fn push_denied(
    out: &mut Vec<u8>,
    shard: u32,
    place: u64,
    named: &LinkSent,
) -> Result<(), AllocError>
    ensures { Pushes out.old out.new
        (to_be_bytes w32 shard ++ to_be_bytes w64 place ++ link_bytes (link named.now)) result }
{
    out.extend_from_slice(&place_of(shard, place))?;
    push_link(out, named)
}

fn push_digest(out: &mut Vec<u8>, kind: u8, entry: u8, digest: &[u8; 32]) -> Result<(), AllocError>
    ensures { Pushes out.old out.new (kind ∷ entry ∷ digest.now) result }
{
    out.extend_from_slice(&[kind, entry])?;
    out.extend_from_slice(digest)
}

fn push_link(out: &mut Vec<u8>, named: &LinkSent) -> Result<(), AllocError>
    ensures { Pushes out.old out.new (link_bytes (link named.now)) result }
{
    match named {
        LinkSent::Expired { entry, digest } => push_digest(out, 1, *entry, digest),
        LinkSent::Missing { entry, part } => push_part(out, *entry, part),
        LinkSent::NoEntry => {
            out.push(3)?;
            Ok(())
        }
        LinkSent::Early { entry, digest } => push_digest(out, 4, *entry, digest),
    }
}

pub(crate) fn push_part(out: &mut Vec<u8>, entry: u8, part: &Term) -> Result<(), AllocError>
    ensures { Pushes out.old out.new
        (2 ∷ entry ∷ term_spelling (principal part.now)) result }
{
    out.extend_from_slice(&[MISSING, entry])?;
    write_term(out, part)
}
