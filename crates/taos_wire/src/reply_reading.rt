//! Reading a reply from its bytes.

ghost use Rattle.std.specs.Prelude.{◌≡◌, ◌≤◌, ℕ, length, IfOk, IfErr, MatchResult};
ghost use Rattle.byte_fields.specs.Formats.{IsPlaceIn};
ghost use Rattle.byte_fields.specs.Readers.{made};
ghost use Rattle.byte_fields.specs.Steps.{Gives};
ghost use Rattle.byte_fields.specs.declared.fault.FormatFault.TheVariants.{NoMemory};
ghost use Rattle.taos_wire.specs.Reply as math;
ghost use Rattle.taos_wire.specs.Reply.{SpellsReply};
ghost use Rattle.taos_wire.specs.ReplyReading.{answered_at, denied_at, fields_at, is_status};
ghost use Rattle.taos_wire.specs.ReplyReading.{digest_at, link_at, named_at, place_at, reply_at, reply_of};
ghost use Rattle.taos_wire.specs.ReplyReading.{status_at};
ghost use Rattle.taos_wire.specs.View.{link, reply};

use crate::fault::WireFault;
use crate::reply::{LAST_STATUS, LinkSent, Reply};
use crate::reply_grant::granted_of;
use byte_fields::{array_at, byte_within, ended, slice_at, u8_at, u32_at, u64_at};
use keyed_seal::TAG_LEN;
use prin_term::{ENTRY_NODES, read_term};
use std::alloc::Global;

// The channel and the number that are answered, behind the version.
#[tactic(auto, unfolding(crate::specs::ReplyReading::answered_at))]
fn answered_of(bytes: &[u8], at: usize) -> Result<(u32, u64, usize), WireFault>
    requires { at ≤ length bytes.now }
    ensures value { Gives NoMemory (λ x. ((x.0, x.1), x.2)) result (answered_at bytes.now at) }
    ensures within { IfOk result (λ x. x.2 ≤ length bytes.now) }
{
    let (_, next) = byte_within(bytes, at, 4, 4)?;
    let (channel, next) = u32_at(bytes, next, ended(bytes))?;
    let (seq, next) = u64_at(bytes, next, ended(bytes))?;
    Ok((channel, seq, next))
}

// A shard, and a place of its journal.
#[tactic(auto, unfolding(crate::specs::ReplyReading::place_at))]
pub(crate) fn place_of(bytes: &[u8], at: usize) -> Result<(u32, u64, usize), WireFault>
    requires { at ≤ length bytes.now }
    ensures value { Gives NoMemory (λ x. ((x.0, x.1), x.2)) result (place_at bytes.now at) }
    ensures within { IfOk result (λ x. x.2 ≤ length bytes.now) }
{
    let (shard, next) = u32_at(bytes, at, ended(bytes))?;
    let (place, next) = u64_at(bytes, next, ended(bytes))?;
    Ok((shard, place, next))
}

// An entry, and the digest of a certificate.
#[tactic(auto, unfolding(crate::specs::ReplyReading::digest_at))]
fn digest_of(bytes: &[u8], at: usize) -> Result<(u8, [u8; 32], usize), WireFault>
    requires { at ≤ length bytes.now }
    ensures value { Gives NoMemory (λ x. ((x.0, x.1), x.2)) result
        (digest_at bytes.now at) }
    ensures within { IfOk result (λ x. x.2 ≤ length bytes.now) }
{
    let (entry, next) = u8_at(bytes, at, ended(bytes))?;
    let (digest, next) = array_at::<32, _>(bytes, next, ended(bytes))?;
    Ok((entry, digest, next))
}

// The link that a byte names.
#[tactic(auto, unfolding(crate::specs::ReplyReading::named_at))]
fn named_of(
    alloc: Global,
    bytes: &[u8],
    at: usize,
    kind: u8,
) -> Result<(LinkSent, usize), WireFault>
    requires { at ≤ length bytes.now }
    ensures value { Gives NoMemory (λ x. (link x.0, x.1)) result (named_at bytes.now kind at) }
    ensures within { IfOk result (λ x. x.1 ≤ length bytes.now) }
{
    match kind {
        1 => {
            let (entry, digest, next) = digest_of(bytes, at)?;
            Ok((LinkSent::Expired { entry, digest }, next))
        }
        2 => {
            let (entry, next) = u8_at(bytes, at, ended(bytes))?;
            let (part, next) = read_term(alloc, bytes, next, ENTRY_NODES)?;
            Ok((LinkSent::Missing { entry, part }, next))
        }
        3 => Ok((LinkSent::NoEntry, at)),
        _ => {
            let (entry, digest, next) = digest_of(bytes, at)?;
            Ok((LinkSent::Early { entry, digest }, next))
        }
    }
}

#[tactic(auto, unfolding(crate::specs::ReplyReading::link_at))]
fn link_of(alloc: Global, bytes: &[u8], at: usize) -> Result<(LinkSent, usize), WireFault>
    requires { at ≤ length bytes.now }
    ensures value { Gives NoMemory (λ x. (link x.0, x.1)) result (link_at bytes.now at) }
    ensures within { IfOk result (λ x. x.1 ≤ length bytes.now) }
{
    let (kind, next) = byte_within(bytes, at, 1, 4)?;
    named_of(alloc, bytes, next, kind)
}

#[tactic(auto, unfolding(crate::specs::ReplyReading::denied_at))]
fn denied_of(alloc: Global, bytes: &[u8], at: usize) -> Result<(Reply, usize), WireFault>
    requires { at ≤ length bytes.now }
    ensures value { Gives NoMemory (λ x. (reply x.0, x.1)) result (denied_at bytes.now at) }
    ensures within { IfOk result (λ x. x.1 ≤ length bytes.now) }
{
    let (shard, place, next) = place_of(bytes, at)?;
    let (link, next) = link_of(alloc, bytes, next)?;
    Ok((Reply::Denied { shard, place, link }, next))
}

// The fields that a status has.
#[tactic(auto, unfolding(crate::specs::ReplyReading::fields_at))]
fn fields_of(
    alloc: Global,
    bytes: &[u8],
    at: usize,
    status: u8,
) -> Result<(Reply, usize), WireFault>
    requires { at ≤ length bytes.now }
    ensures value { Gives NoMemory (λ x. (reply x.0, x.1)) result (fields_at bytes.now status at) }
    ensures within { IfOk result (λ x. x.1 ≤ length bytes.now) }
{
    match status {
        0 => granted_of(alloc, bytes, at),
        1 => denied_of(alloc, bytes, at),
        2 => {
            let (offset, next) = u32_at(bytes, at, ended(bytes))?;
            Ok((Reply::Malformed { offset }, next))
        }
        3 => {
            let (number, next) = u32_at(bytes, at, ended(bytes))?;
            Ok((Reply::UnknownChannel { number }, next))
        }
        4 => Ok((Reply::BadSeal, at)),
        5 => {
            let (last, next) = u64_at(bytes, at, ended(bytes))?;
            Ok((Reply::Replayed { last }, next))
        }
        6 => {
            let (index, next) = u8_at(bytes, at, ended(bytes))?;
            let (code, next) = u8_at(bytes, next, ended(bytes))?;
            Ok((Reply::CertRefused { index, code }, next))
        }
        7 => {
            let (held, next) = u8_at(bytes, at, ended(bytes))?;
            Ok((Reply::ChannelFull { held }, next))
        }
        8 => {
            let (index, next) = u8_at(bytes, at, ended(bytes))?;
            Ok((Reply::RelayFailed { index }, next))
        }
        9 => {
            let (number, next) = u32_at(bytes, at, ended(bytes))?;
            Ok((Reply::UnknownObject { number }, next))
        }
        10 => {
            let (which, next) = byte_within(bytes, at, 0, 1)?;
            let (number, length, next) = place_of(bytes, next)?;
            Ok((
                Reply::JournalFull {
                    which,
                    number,
                    length,
                },
                next,
            ))
        }
        11 => Ok((Reply::NoMemory, at)),
        12 => {
            let (held, next) = u8_at(bytes, at, ended(bytes))?;
            let (shard, next) = u32_at(bytes, next, ended(bytes))?;
            Ok((Reply::CommonsFull { held, shard }, next))
        }
        13 => {
            let (digest, next) = array_at::<32, _>(bytes, at, ended(bytes))?;
            Ok((Reply::NotHeld { digest }, next))
        }
        _ => {
            let (held, next) = u8_at(bytes, at, ended(bytes))?;
            let (shard, next) = u32_at(bytes, next, ended(bytes))?;
            Ok((Reply::WithdrawnFull { held, shard }, next))
        }
    }
}

#[tactic(auto, unfolding(crate::specs::ReplyReading::status_at))]
fn status_of(alloc: Global, bytes: &[u8], at: usize) -> Result<(Reply, usize), WireFault>
    requires { at ≤ length bytes.now }
    ensures value { Gives NoMemory (λ x. (reply x.0, x.1)) result (status_at bytes.now at) }
    ensures within { IfOk result (λ x. x.1 ≤ length bytes.now) }
{
    let (status, next) = u8_at(bytes, at, ended(bytes))?;
    if status <= LAST_STATUS {
        fields_of(alloc, bytes, next, status)
    } else {
        Err(WireFault::Malformed { offset: at })
    }
}

// The reply, and the offset behind its tag.
#[tactic(auto, unfolding(crate::specs::ReplyReading::reply_at, crate::specs::RequestReading::tag_at))]
fn fronted_of(alloc: Global, bytes: &[u8]) -> Result<(u32, u64, Reply, usize), WireFault>
    ensures value { Gives NoMemory (λ x. ((x.0, x.1, reply x.2), x.3)) result
        (made (λ x. x.0) (reply_at bytes.now) 0) }
    ensures within { IfOk result (λ x. x.3 ≤ length bytes.now) }
{
    let (channel, seq, next) = answered_of(bytes, 0)?;
    let (answer, next) = status_of(alloc, bytes, next)?;
    let (_, end) = slice_at(bytes, next, TAG_LEN, ended(bytes))?;
    Ok((channel, seq, answer, end))
}

#[tactic(auto, unfolding(crate::specs::ReplyReading::reply_of))]
fn all_of(alloc: Global, bytes: &[u8]) -> Result<(u32, u64, Reply), WireFault>
    ensures { Gives NoMemory (λ x. (x.0, x.1, reply x.2)) result (reply_of bytes.now) }
{
    let (channel, seq, answer, end) = fronted_of(alloc, bytes)?;
    if end < bytes.len() {
        Err(WireFault::Malformed { offset: end })
    } else {
        Ok((channel, seq, answer))
    }
}

/// The channel, the number and the reply that all of the bytes spell, whatever the tag (see
/// `sealed_by`); a proof is read and not checked. Memory is taken for what the reply holds; where
/// it is refused, the fault is `NoMemory`.
pub fn read_reply(alloc: Global, bytes: &[u8]) -> Result<(u32, u64, Reply), WireFault>
    // What is read is spelled so.
    ensures found { IfOk result (λ x. SpellsReply x.0 x.1 (reply x.2) bytes.now) }
    // What is spelled so is read, unless memory runs out.
    ensures only { (channel seq : ℕ) (r : math.Reply) → SpellsReply channel seq r bytes.now
        → MatchResult result (λ x. (x.0 ≡ channel) × (x.1 ≡ seq) × (reply x.2 ≡ r))
        (λ f. f ≡ NoMemory) }
    // Which fault it is, and that its place is one of the bytes, or behind the last.
    ensures exact { Gives NoMemory (λ x. (x.0, x.1, reply x.2)) result (reply_of bytes.now) }
    ensures place { IfErr result (IsPlaceIn bytes.now) }
{
    all_of(alloc, bytes)
}
