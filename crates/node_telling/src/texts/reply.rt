//! What the front of a reply says, of a grant too.

ghost use Rattle.std.specs.Prelude.{
  ◌≡◌,
  ◌↔◌,
  ◌++◌,
  ◌≤◌,
  ℕ,
  List,
  Ok,
  Some,
  IsSome,
  IsTrue,
  length,
};
ghost use Rattle.byte_fields.specs.Formats.{u8_in};
ghost use Rattle.taos_wire.specs.Reply.{Reply, SpellsReply};
ghost use Rattle.taos_wire.specs.declared.reply_writing.TheConstants.{VERSION};
ghost use Rattle.node_telling.specs.Replies.{
  IsEntry,
  code_at,
  front_by,
  front_with,
  is_named,
  link_at,
  told_by,
  with_grant,
};
ghost use Rattle.node_telling.specs.Words.{link_word};

use taos_wire::{ReplyHead, byte_of, head_at, long_of, word_of};

/// The bytes of a reply in which all stands that is told of it.
pub const FRONT: usize = 28;

const EXPIRED: u8 = 1;

const MISSING: u8 = 2;

const NO_ENTRY: u8 = 3;

const CERT_REFUSED: u8 = 6;

const NO_MEMORY: u8 = 11;

const COMMONS_FULL: u8 = 12;

const NOT_HELD: u8 = 13;

const WITHDRAWN_FULL: u8 = 14;

/// What the front of a reply says.
#[derive(Clone, Copy, PartialEq, Eq)]
pub struct ReplyFront {
    /// With the shard and the place of a grant, too.
    pub head: ReplyHead,
    /// The kind of a denial's link: 1 expired, 2 missing, 3 no entry, 4 early.
    pub link: Option<u8>,
    /// Why a certificate was refused.
    pub code: Option<u8>,
}

/// Whether a reply names a request: one that is sealed by nobody names none.
pub fn names_request(head: &ReplyHead) -> bool
    ensures { result ≡ is_named head.now }
{
    match head.status {
        2..=4 => false,
        NO_MEMORY => head.channel != 0 || head.number != 0,
        _ => true,
    }
}

/// Whether a reply stands for an entry of its object's journal. A full journal of a shard may, and is not
/// taken for one.
pub fn is_entry(head: &ReplyHead) -> bool
    ensures { IsTrue result ↔ IsEntry head.now }
{
    head.is_grant()
        || head.is_denial()
        || head.status == COMMONS_FULL
        || head.status == NOT_HELD
        || head.status == WITHDRAWN_FULL
}

// The word of a link's kind.
pub(crate) fn link_word_of(kind: u8) -> &'static str
    ensures { result.now ≡ link_word kind }
{
    match kind {
        EXPIRED => "expired",
        MISSING => "missing",
        NO_ENTRY => "no-entry",
        _ => "early",
    }
}

// A head with what the bytes of a grant say.
#[tactic(auto, unfolding(crate::specs::Replies::with_grant))]
fn granted_at(front: &[u8], head: ReplyHead) -> ReplyHead
    ensures { result ≡ with_grant front.now head }
{
    if !head.is_grant() {
        return head;
    }
    ReplyHead {
        shard: word_of(front, 16),
        place: long_of(front, 20),
        ..head
    }
}

// The kind of link that the bytes of a denial name.
#[tactic(auto, unfolding(crate::specs::Replies::link_at))]
fn link_of(front: &[u8], head: ReplyHead) -> Option<u8>
    ensures { result ≡ link_at front.now head }
{
    if !head.is_denial() {
        return None;
    }
    byte_of(front, 26)
}

// The code that the bytes say by which a certificate was refused.
#[tactic(auto, unfolding(crate::specs::Replies::code_at))]
fn code_of(front: &[u8], head: ReplyHead) -> Option<u8>
    ensures { result ≡ code_at front.now head }
{
    if head.status != CERT_REFUSED {
        return None;
    }
    byte_of(front, 15)
}

// A head with all that the bytes say besides.
fn front_of(front: &[u8], head: ReplyHead) -> ReplyFront
    ensures { result ≡ front_with front.now head }
{
    ReplyFront {
        head: granted_at(front, head),
        link: link_of(front, head),
        code: code_of(front, head),
    }
}

/// What the front of some bytes says, where they begin as a reply does: `head_at`, with the shard and the
/// place of a grant, the kind of a denial's link and the code of a certificate that was refused.
pub fn reply_at(front: &[u8]) -> Option<ReplyFront>
    // Of the first bytes of a reply it says what the reply says.
    ensures said { (channel seq : ℕ) (r : Reply) (more : List ℕ)
        → SpellsReply channel seq r (front.now ++ more) → FRONT ≤ length front.now
        → result ≡ Some (front_by channel seq r) }
    ensures found { IsSome result ↔ (14 ≤ length front.now)
        × (u8_in front.now 0 ≡ Ok (VERSION, 1)) }
{
    match head_at(front) {
        Some(head) => Some(front_of(front, head)),
        None => None,
    }
}

/// Whether a payload shows that the frame which it answers was sealed right: a reply where it names a
/// request, and any other, as a relay's answer is.
pub fn shows_seal(payload: &[u8]) -> bool
    ensures { (channel seq : ℕ) (r : Reply) (more : List ℕ)
        → SpellsReply channel seq r (payload.now ++ more) → FRONT ≤ length payload.now
        → result ≡ is_named (told_by channel seq r) }
{
    match reply_at(payload) {
        Some(front) => names_request(&front.head),
        None => true,
    }
}
