//! Room for a reply.

ghost use Rattle.std.specs.Prelude.{◌≡◌, ◌<◌, ◌≤◌, ◌^◌, if◌then◌else◌, ℕ, List, [], None, Some};
ghost use Rattle.std.specs.Prelude.{IfOk, length};
ghost use Rattle.prin_term.specs.Refusal.{FitsLimits};
ghost use Rattle.prin_term.specs.View.{principal};
ghost use Rattle.taos_wire.specs.Reply.{FitsReply, NoMemory, PullFailed, sent, spelling, status_of};
ghost use Rattle.taos_wire.specs.Reply.{under_seal, unsealed};
ghost use Rattle.taos_wire.specs.View.{lent_grant, lent_part, reply};
ghost use Rattle.taos_monitor.specs.Refusals.{refusal};

use crate::refusal::{Refusal, reply_of};
use cred_pull::{ReplyBytes, write_pull_failed_with};
use keyed_seal::Sealer;
use prin_term::ENTRY_NODES;
use std::alloc::{AllocError, Global};
use std::marker::Model;
use taos_wire::{
    LentGrant, LentPart, MAX_CITED, Reply, draft_granted, draft_missing, seal_over,
    write_reply_with,
};

/// Every reply but a grant fits this many bytes.
pub const REPLY_ROOM: usize = 256;

/// Room for one reply, which is taken once. A contract sees the reply that was left there last.
#[derive(Drop)]
pub struct ReplyBuf {
    bytes: Vec<u8>,
}

impl Model for ReplyBuf {
    ghost use Rattle.std.specs.Prelude.{◌≤◌, vec_capacity, List, ℕ};

    ghost Value = { List ℕ };

    ghost view = { λ b. b.bytes.items };

    // There is memory for every reply but a grant.
    ghost invariant = { λ b. 256 ≤ vec_capacity b.bytes };
}

impl ReplyBuf {
    /// Takes the room.
    pub fn new(alloc: Global) -> Result<ReplyBuf, AllocError>
        ensures { IfOk result (λ b. b ≡ []) }
    {
        Ok(ReplyBuf {
            bytes: Vec::with_capacity(alloc, REPLY_ROOM)?,
        })
    }

    /// The reply that was left last; nothing before the first.
    pub fn bytes(&self) -> &[u8]
        ensures { result.now ≡ self.now }
    {
        &self.bytes
    }

    /// Leaves the reply of a refusal before the seal of the request was found right.
    pub fn leave_unsealed(&mut self, why: Refusal)
        ensures reply { self.new ≡ spelling (unsealed (refusal why)) }
        ensures short { length self.new < 2 ^ 26 }
    {
        self.draft(0, 0, &reply_of(why));
    }

    /// Leaves the reply of a refusal under a key.
    pub fn leave_refused(&mut self, sealer: &Sealer, channel: u32, seq: u64, why: Refusal)
        ensures reply { self.new ≡ spelling (sent (Some sealer.now) channel seq (refusal why)) }
        ensures short { length self.new < 2 ^ 26 }
    {
        self.draft(channel, seq, &reply_of(why));
        self.seal(sealer);
    }

    /// Leaves the reply to a request whose certificates could not be fetched, under a key.
    pub fn leave_pull_failed(&mut self, sealer: &Sealer, channel: u32, seq: u64)
        ensures reply { self.new ≡ spelling (sent (Some sealer.now) channel seq PullFailed) }
        ensures short { length self.new < 2 ^ 26 }
    {
        let mut reply = ReplyBytes::new();
        write_pull_failed_with(&mut reply, sealer, channel, seq);
        self.bytes.clear();
        self.bytes.extend_from_slice(reply.as_slice()).unwrap();
    }

    /// Leaves any reply but a grant, which fits the room, without a seal.
    pub(crate) fn draft(&mut self, channel: u32, seq: u64, answer: &Reply)
        requires limits { FitsReply (reply answer.now) }
        requires no_grant { 0 < status_of (reply answer.now) }
        ensures reply { self.new ≡ spelling (sent None channel seq (reply answer.now)) }
        ensures short { length self.new < 2 ^ 26 }
    {
        self.bytes.clear();
        write_reply_with(&mut self.bytes, None, channel, seq, answer).unwrap();
    }

    /// Leaves a denial that names a part of an entry, which is lent, without a seal.
    pub(crate) fn draft_missing(&mut self, channel: u32, seq: u64, denial: &LentPart<'_>)
        requires limits { FitsLimits ENTRY_NODES (principal denial.now.part.now) }
        ensures reply { self.new ≡ spelling (sent None channel seq (lent_part denial.now)) }
        ensures short { length self.new < 2 ^ 26 }
    {
        self.bytes.clear();
        draft_missing(&mut self.bytes, channel, seq, denial).unwrap();
    }

    /// Leaves a grant, with what its operation gives, or the reply of want of memory; without a
    /// seal. Whether it is the grant.
    pub(crate) fn draft_granted(&mut self, channel: u32, seq: u64, grant: &LentGrant<'_>) -> bool
        requires few { length grant.now.certs.now ≤ MAX_CITED }
        requires short { length grant.now.content.now < 2 ^ 16 }
        ensures reply { self.new ≡ spelling (sent None channel seq
            (if result then lent_grant grant.now else NoMemory)) }
        ensures short { length self.new < 2 ^ 26 }
    {
        self.bytes.clear();
        if draft_granted(&mut self.bytes, channel, seq, grant).is_err() {
            self.draft(channel, seq, &Reply::NoMemory);
            return false;
        }
        true
    }

    /// Seals what was left without a seal.
    pub(crate) fn seal(&mut self, sealer: &Sealer)
        requires { 32 ≤ length self.old }
        ensures sealed { (text : List ℕ) → self.old ≡ under_seal None text
            → self.new ≡ under_seal (Some sealer.now) text }
        ensures length { length self.new ≡ length self.old }
    {
        seal_over(sealer, &mut self.bytes);
    }
}
