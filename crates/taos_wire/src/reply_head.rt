//! What the front of a reply says.

ghost use Rattle.std.specs.Prelude.{◌≡◌, ◌↔◌, ◌++◌, ◌+◌, ◌≤◌, ℕ, true, List, Ok, Some, IfSome};
ghost use Rattle.std.specs.Prelude.{IsSome, length};
ghost use Rattle.byte_fields.specs.Formats.{u8_in, u32_in, u64_in};
ghost use Rattle.taos_wire.specs.Heads as math;
ghost use Rattle.taos_wire.specs.Heads.{head_of, read};
ghost use Rattle.taos_wire.specs.Reply.{Reply, SpellsReply};

use crate::reply_writing::{DENIED, GRANTED, VERSION};
use byte_fields::{ended, u8_at, u32_at, u64_at};

/// The bytes of a reply in which all stands that its head says.
pub const HEAD: usize = 27;

const UNKNOWN_CHANNEL: u8 = 3;

const JOURNAL_FULL: u8 = 10;

const COMMONS_FULL: u8 = 12;

const WITHDRAWN_FULL: u8 = 14;

/// What a reply says before its tag of the request that it answers.
#[derive(Clone, Copy, PartialEq, Eq)]
pub struct ReplyHead {
    pub channel: u32,
    pub number: u64,
    pub status: u8,
    /// The shard and the place that the fields of the status have, but of no grant.
    pub shard: Option<u32>,
    pub place: Option<u64>,
    /// The channel that is unknown.
    pub unknown: Option<u32>,
}

impl ReplyHead {
    /// Whether the reply is a grant.
    pub fn is_grant(&self) -> bool
        ensures { (result ≡ true) ↔ (self.now.status ≡ GRANTED) }
    {
        self.status == GRANTED
    }

    /// Whether the reply is a denial.
    pub fn is_denial(&self) -> bool
        ensures { (result ≡ true) ↔ (self.now.status ≡ DENIED) }
    {
        self.status == DENIED
    }
}

/// The byte at this place, if it is there.
#[tactic(auto, unfolding(byte_fields::specs::Steps::byte_at))]
pub fn byte_of(front: &[u8], at: usize) -> Option<u8>
    ensures exact { result ≡ read (u8_in front.now at) }
    ensures value { IfSome result (λ byte. u8_in front.now at ≡ Ok (byte, at + 1)) }
    ensures found { IsSome result ↔ at + 1 ≤ length front.now }
{
    if at > front.len() {
        return None;
    }
    match u8_at(front, at, ended(front)) {
        Ok((byte, _)) => Some(byte),
        Err(_) => None,
    }
}

/// The number of four bytes from this place on, if they are there.
#[tactic(auto, unfolding(byte_fields::specs::Steps::number_at))]
pub fn word_of(front: &[u8], at: usize) -> Option<u32>
    ensures exact { result ≡ read (u32_in front.now at) }
    ensures value { IfSome result (λ word. u32_in front.now at ≡ Ok (word, at + 4)) }
    ensures found { IsSome result ↔ at + 4 ≤ length front.now }
{
    if at > front.len() {
        return None;
    }
    match u32_at(front, at, ended(front)) {
        Ok((word, _)) => Some(word),
        Err(_) => None,
    }
}

/// The same of eight bytes.
#[tactic(auto, unfolding(byte_fields::specs::Steps::number_at))]
pub fn long_of(front: &[u8], at: usize) -> Option<u64>
    ensures exact { result ≡ read (u64_in front.now at) }
    ensures value { IfSome result (λ long. u64_in front.now at ≡ Ok (long, at + 8)) }
    ensures found { IsSome result ↔ at + 8 ≤ length front.now }
{
    if at > front.len() {
        return None;
    }
    match u64_at(front, at, ended(front)) {
        Ok((long, _)) => Some(long),
        Err(_) => None,
    }
}

// The shard that the fields of a status have.
#[tactic(auto, unfolding(crate::specs::Heads::shard_at))]
fn shard_of(front: &[u8], status: u8) -> Option<u32>
    ensures { result ≡ math.shard_at front.now status }
{
    match status {
        DENIED => word_of(front, 14),
        JOURNAL_FULL => match byte_of(front, 14) {
            Some(1) => word_of(front, 15),
            _ => None,
        },
        COMMONS_FULL | WITHDRAWN_FULL => word_of(front, 15),
        _ => None,
    }
}

#[tactic(auto, unfolding(crate::specs::Heads::head_at))]
fn front_of(front: &[u8]) -> Option<ReplyHead>
    ensures exact { result ≡ math.head_at front.now }
    ensures found { IsSome result ↔ (14 ≤ length front.now)
        × (u8_in front.now 0 ≡ Ok (VERSION, 1)) }
    ensures channel { IfSome result (λ head. u32_in front.now 1 ≡ Ok (head.channel, 5)) }
    ensures number { IfSome result (λ head. u64_in front.now 5 ≡ Ok (head.number, 13)) }
    ensures status { IfSome result (λ head. u8_in front.now 13 ≡ Ok (head.status, 14)) }
{
    if byte_of(front, 0)? != VERSION {
        return None;
    }
    let channel = word_of(front, 1)?;
    let number = long_of(front, 5)?;
    let status = byte_of(front, 13)?;
    Some(ReplyHead {
        channel,
        number,
        status,
        shard: shard_of(front, status),
        place: match status {
            DENIED => long_of(front, 18),
            _ => None,
        },
        unknown: match status {
            UNKNOWN_CHANNEL => word_of(front, 14),
            _ => None,
        },
    })
}

/// What the front of some bytes says, where they begin as a reply does: `None` where they do not.
pub fn head_at(front: &[u8]) -> Option<ReplyHead>
    // Of the first bytes of a reply it says what the reply says.
    ensures said { (channel seq : ℕ) (r : Reply) (more : List ℕ)
        → SpellsReply channel seq r (front.now ++ more) → HEAD ≤ length front.now
        → result ≡ Some (head_of channel seq r) }
    // Of others that begin as one it says what stands at these places.
    ensures found { IsSome result ↔ (14 ≤ length front.now)
        × (u8_in front.now 0 ≡ Ok (VERSION, 1)) }
    ensures channel { IfSome result (λ head. u32_in front.now 1 ≡ Ok (head.channel, 5)) }
    ensures number { IfSome result (λ head. u64_in front.now 5 ≡ Ok (head.number, 13)) }
    ensures status { IfSome result (λ head. u8_in front.now 13 ≡ Ok (head.status, 14)) }
{
    front_of(front)
}
