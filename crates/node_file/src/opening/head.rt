//! The fields of an opening before its lists.

ghost use Rattle.std.specs.Prelude.{◌≡◌, ◌≤◌, length, IfOk};
ghost use Rattle.byte_fields.specs.Steps.{Gives};
ghost use Rattle.byte_fields.specs.declared.fault.FormatFault.TheVariants.{NoMemory};
ghost use Rattle.node_file.specs.OpeningReading.{mark_at, shards_at, head_at};

use crate::limits::{MAX_KEEP, MAX_LIMIT, MAX_SHARDS};
use crate::opening::field::{exactly, number_of};
use byte_fields::{FormatFault, array_at, ended, u32_at};

// The fields before the lists.
#[derive(Clone, Copy)]
pub(super) struct Head {
    pub(super) node: u32,
    pub(super) relay_key: [u8; 32],
    pub(super) shards: u32,
    pub(super) keep: u64,
    pub(super) limit: u64,
}

#[tactic(auto, unfolding(crate::specs::OpeningReading::mark_at))]
fn mark_of(bytes: &[u8], at: usize) -> Result<usize, FormatFault>
    requires { at ≤ length bytes.now }
    ensures value { Gives NoMemory (λ end. ((0, 1), end)) result (mark_at bytes.now at) }
    ensures within { IfOk result (λ end. end ≤ length bytes.now) }
{
    let next = exactly(bytes, at, 0)?;
    exactly(bytes, next, 1)
}

#[tactic(auto, unfolding(crate::specs::OpeningReading::shards_at))]
fn shards_of(bytes: &[u8], at: usize) -> Result<(u32, usize), FormatFault>
    requires { at ≤ length bytes.now }
    ensures value { result ≡ shards_at bytes.now at }
    ensures within { IfOk result (λ x. x.1 ≤ length bytes.now) }
{
    let (shards, next) = u32_at(bytes, at, ended(bytes))?;
    if 1 <= shards && shards <= MAX_SHARDS {
        Ok((shards, next))
    } else {
        Err(FormatFault::Malformed { offset: at })
    }
}

#[tactic(auto, unfolding(crate::specs::OpeningReading::head_at))]
pub(super) fn head_of(bytes: &[u8], at: usize) -> Result<(Head, usize), FormatFault>
    requires { at ≤ length bytes.now }
    ensures value { Gives NoMemory (λ x. x) result (head_at bytes.now at) }
    ensures within { IfOk result (λ x. x.1 ≤ length bytes.now) }
{
    let next = mark_of(bytes, at)?;
    let (node, next) = u32_at(bytes, next, ended(bytes))?;
    let (relay_key, next) = array_at::<32, _>(bytes, next, ended(bytes))?;
    let (shards, next) = shards_of(bytes, next)?;
    let (keep, next) = number_of(bytes, next, 1, MAX_KEEP)?;
    let (limit, next) = number_of(bytes, next, 1, MAX_LIMIT)?;
    let head = Head {
        node,
        relay_key,
        shards,
        keep,
        limit,
    };
    Ok((head, next))
}
