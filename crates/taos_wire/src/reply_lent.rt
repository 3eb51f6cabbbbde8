//! Writing a reply whose parts are lent.

ghost use Rattle.std.specs.Prelude.{◌+◌, ◌<◌, ◌≤◌, ◌^◌, None, Some, length, OnOk};
ghost use Rattle.std.specs.Option.{option_copied};
ghost use Rattle.byte_fields.specs.Appends.{Appends, Pushes};
ghost use Rattle.prin_term.specs.Refusal.{FitsLimits};
ghost use Rattle.prin_term.specs.View.{principal};
ghost use Rattle.taos_wire.specs.Reply.{fields_of, reply_text, sent, spelling};
ghost use Rattle.taos_wire.specs.View.{lent_grant, lent_part};

use crate::reply::{LentGrant, LentPart, MAX_CITED};
use crate::reply_granting::push_granted;
use crate::reply_writing::{DENIED, GRANTED, place_of, push_head, push_part, push_seal};
use keyed_seal::Sealer;
use prin_term::ENTRY_NODES;
use std::alloc::AllocError;

/// Appends the reply of a grant whose parts are lent: what `write_reply_with` appends for a
/// `Granted` of these. An `Err` changes nothing.
pub fn write_granted(
    out: &mut Vec<u8>,
    sealer: &Sealer,
    channel: u32,
    seq: u64,
    grant: &LentGrant<'_>,
) -> Result<(), AllocError>
    requires few_certs { length grant.now.certs.now ≤ MAX_CITED }
    requires short { length grant.now.content.now < 2 ^ 16 }
    ensures appends { Appends out.old out.new
        (spelling (sent (Some sealer.now) channel seq (lent_grant grant.now))) result }
    // A reply's frame is short enough for a frame of replies.
    ensures short { OnOk result
        (length (spelling (sent (Some sealer.now) channel seq (lent_grant grant.now))) < 2 ^ 26) }
{
    append_grant(out, Some(sealer), channel, seq, grant)
}

/// The same without a seal, for which the room is taken: `seal_over` puts it there.
pub fn draft_granted(
    out: &mut Vec<u8>,
    channel: u32,
    seq: u64,
    grant: &LentGrant<'_>,
) -> Result<(), AllocError>
    requires few_certs { length grant.now.certs.now ≤ MAX_CITED }
    requires short { length grant.now.content.now < 2 ^ 16 }
    ensures appends { Appends out.old out.new
        (spelling (sent None channel seq (lent_grant grant.now))) result }
    ensures short { OnOk result
        (length (spelling (sent None channel seq (lent_grant grant.now))) < 2 ^ 26) }
{
    append_grant(out, None, channel, seq, grant)
}

fn append_grant(
    out: &mut Vec<u8>,
    sealer: Option<&Sealer>,
    channel: u32,
    seq: u64,
    grant: &LentGrant<'_>,
) -> Result<(), AllocError>
    requires few_certs { length grant.now.certs.now ≤ MAX_CITED }
    requires short { length grant.now.content.now < 2 ^ 16 }
    ensures appends { Appends out.old out.new
        (spelling (sent (option_copied sealer.entry) channel seq (lent_grant grant.now))) result }
    ensures short { OnOk result (length
        (spelling (sent (option_copied sealer.entry) channel seq (lent_grant grant.now))) < 2 ^ 26) }
{
    let len = out.len();
    let written = push_sealed_grant(out, sealer, channel, seq, grant);
    if written.is_err() {
        out.truncate(len);
    }
    written
}

fn push_sealed_grant(
    out: &mut Vec<u8>,
    sealer: Option<&Sealer>,
    channel: u32,
    seq: u64,
    grant: &LentGrant<'_>,
) -> Result<(), AllocError>
    requires few_certs { length grant.now.certs.now ≤ MAX_CITED }
    requires short { length grant.now.content.now < 2 ^ 16 }
    ensures pushes { Pushes out.old out.new
        (spelling (sent (option_copied sealer.entry) channel seq (lent_grant grant.now))) result }
    ensures short { OnOk result (length
        (spelling (sent (option_copied sealer.entry) channel seq (lent_grant grant.now))) < 2 ^ 26) }
{
    let start = out.len();
    push_grant_text(out, channel, seq, grant)?;
    push_seal(out, sealer, start)
}

#[tactic(auto, unfolding(crate::specs::Reply::reply_text))]
fn push_grant_text(
    out: &mut Vec<u8>,
    channel: u32,
    seq: u64,
    grant: &LentGrant<'_>,
) -> Result<(), AllocError>
    requires few_certs { length grant.now.certs.now ≤ MAX_CITED }
    requires short { length grant.now.content.now < 2 ^ 16 }
    ensures pushes { Pushes out.old out.new
        (reply_text channel seq (lent_grant grant.now)) result }
    ensures short { OnOk result
        (length (reply_text channel seq (lent_grant grant.now)) < 2 ^ 25 + 2 ^ 18) }
{
    push_head(out, channel, seq, GRANTED)?;
    push_granted(out, grant)
}

/// Appends the reply of a denial whose part is lent: what `write_reply` appends for a `Denied` with
/// `Missing` of this entry and part. An `Err` changes nothing.
pub fn write_missing(
    out: &mut Vec<u8>,
    key: &[u8; 32],
    channel: u32,
    seq: u64,
    denial: &LentPart<'_>,
) -> Result<(), AllocError>
    requires limits { FitsLimits ENTRY_NODES (principal denial.now.part.now) }
    ensures appends { Appends out.old out.new
        (spelling (sent (Some key.now) channel seq (lent_part denial.now))) result }
    ensures short { length (spelling (sent (Some key.now) channel seq (lent_part denial.now)))
        ≤ 256 }
{
    let sealer = Sealer::of(key);
    write_missing_with(out, &sealer, channel, seq, denial)
}

/// The same under a key that is ready to seal.
pub fn write_missing_with(
    out: &mut Vec<u8>,
    sealer: &Sealer,
    channel: u32,
    seq: u64,
    denial: &LentPart<'_>,
) -> Result<(), AllocError>
    requires limits { FitsLimits ENTRY_NODES (principal denial.now.part.now) }
    ensures appends { Appends out.old out.new
        (spelling (sent (Some sealer.now) channel seq (lent_part denial.now))) result }
    ensures short { length (spelling (sent (Some sealer.now) channel seq (lent_part denial.now)))
        ≤ 256 }
{
    append_part(out, Some(sealer), channel, seq, denial)
}

/// The same without a seal, for which the room is taken: `seal_over` puts it there.
pub fn draft_missing(
    out: &mut Vec<u8>,
    channel: u32,
    seq: u64,
    denial: &LentPart<'_>,
) -> Result<(), AllocError>
    requires limits { FitsLimits ENTRY_NODES (principal denial.now.part.now) }
    ensures appends { Appends out.old out.new
        (spelling (sent None channel seq (lent_part denial.now))) result }
    ensures short { length (spelling (sent None channel seq (lent_part denial.now))) ≤ 256 }
{
    append_part(out, None, channel, seq, denial)
}

fn append_part(
    out: &mut Vec<u8>,
    sealer: Option<&Sealer>,
    channel: u32,
    seq: u64,
    denial: &LentPart<'_>,
) -> Result<(), AllocError>
    requires limits { FitsLimits ENTRY_NODES (principal denial.now.part.now) }
    ensures appends { Appends out.old out.new
        (spelling (sent (option_copied sealer.entry) channel seq (lent_part denial.now))) result }
    ensures short { length
        (spelling (sent (option_copied sealer.entry) channel seq (lent_part denial.now))) ≤ 256 }
{
    let len = out.len();
    let written = push_sealed_part(out, sealer, channel, seq, denial);
    if written.is_err() {
        out.truncate(len);
    }
    written
}

fn push_sealed_part(
    out: &mut Vec<u8>,
    sealer: Option<&Sealer>,
    channel: u32,
    seq: u64,
    denial: &LentPart<'_>,
) -> Result<(), AllocError>
    ensures { Pushes out.old out.new
        (spelling (sent (option_copied sealer.entry) channel seq (lent_part denial.now))) result }
{
    let start = out.len();
    push_part_text(out, channel, seq, denial)?;
    push_seal(out, sealer, start)
}

#[tactic(auto, unfolding(crate::specs::Reply::reply_text))]
fn push_part_text(
    out: &mut Vec<u8>,
    channel: u32,
    seq: u64,
    denial: &LentPart<'_>,
) -> Result<(), AllocError>
    ensures { Pushes out.old out.new (reply_text channel seq (lent_part denial.now)) result }
{
    push_head(out, channel, seq, DENIED)?;
    push_missing(out, denial)
}

fn push_missing(out: &mut Vec<u8>, denial: &LentPart<'_>) -> Result<(), AllocError>
    ensures { Pushes out.old out.new (fields_of (lent_part denial.now)) result }
{
    out.extend_from_slice(&place_of(denial.shard, denial.place))?;
    push_part(out, denial.entry, denial.part)
}
