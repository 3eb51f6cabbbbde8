//! Reading the content of an object, its access list, and the fields of an operation.

ghost use Rattle.std.specs.Prelude.{◌≡◌, ◌≤◌, [], length, map, IfOk};
ghost use Rattle.object_core.specs.Reading.{content_at, entry_at, fields_at, kind_at, list_at};
ghost use Rattle.object_core.specs.View.{operation};
ghost use Rattle.byte_fields.specs.declared.fault.FormatFault.TheVariants.{NoMemory};
ghost use Rattle.byte_fields.specs.Readers.{items_behind};
ghost use Rattle.byte_fields.specs.Steps.{Gives};
ghost use Rattle.prin_term.specs.View.{grant};

use crate::limits::{MAX_CONTENT, MAX_ENTRIES, MAX_RIGHTS};
use crate::operation::{LAST_KIND, Op};
use byte_fields::{
    FormatFault, array_at, byte_within, count_up_to, ended, length_up_to, slice_at, u32_at,
};
use prin_term::{ENTRY_NODES, Entry, read_term};
use std::alloc::Global;
use std::sync::Arc;

/// The content that is spelled at `at`, after its length, and the offset after it.
#[tactic(auto, unfolding(crate::specs::Reading::content_at))]
pub fn read_content(alloc: Global, bytes: &[u8], at: usize) -> Result<(Vec<u8>, usize), FormatFault>
    requires { at ≤ length bytes.now }
    // `contents_are_read` tells what it gives.
    ensures exact { Gives NoMemory (λ x. (x.0.items, x.1)) result (content_at bytes.now at) }
    ensures within { IfOk result (λ x. x.1 ≤ length bytes.now) }
{
    let (count, next) = length_up_to(bytes, at, MAX_CONTENT)?;
    let (content, next) = slice_at(bytes, next, count as usize, ended(bytes))?;
    Ok((Vec::from_slice(alloc, content)?, next))
}

#[tactic(auto, unfolding(crate::specs::Reading::entry_at))]
fn entry_of(alloc: Global, bytes: &[u8], at: usize) -> Result<(Entry, usize), FormatFault>
    requires { at ≤ length bytes.now }
    ensures value { Gives NoMemory (λ x. (grant x.0, x.1)) result (entry_at bytes.now at) }
    ensures within { IfOk result (λ x. x.1 ≤ length bytes.now) }
{
    let (rights, next) = byte_within(bytes, at, 1, MAX_RIGHTS)?;
    let (who, next) = read_term(alloc, bytes, next, ENTRY_NODES)?;
    Ok((Entry { rights, who }, next))
}

// So many entries.
fn entries_of(
    alloc: Global,
    bytes: &[u8],
    at: usize,
    count: u8,
) -> Result<(Vec<Entry>, usize), FormatFault>
    requires { at ≤ length bytes.now }
    ensures value { Gives NoMemory (λ x. (map grant x.0.items, x.1)) result
        (items_behind (λ _. entry_at bytes.now) count [] at) }
    ensures within { IfOk result (λ x. x.1 ≤ length bytes.now) }
{
    let mut list = Vec::with_capacity(alloc, count as usize)?;
    let mut next = at;
    for _ in 0..count {
        let (entry, after) = entry_of(alloc, bytes, next)?;
        list.push(entry)?;
        next = after;
    }
    Ok((list, next))
}

/// The access list that is spelled at `at`, after its count, and the offset after it.
#[tactic(auto, unfolding(crate::specs::Reading::list_at))]
pub fn read_list(alloc: Global, bytes: &[u8], at: usize) -> Result<(Vec<Entry>, usize), FormatFault>
    requires { at ≤ length bytes.now }
    // `lists_are_read` tells what it gives.
    ensures exact { Gives NoMemory (λ x. (map grant x.0.items, x.1)) result
        (list_at bytes.now at) }
    ensures within { IfOk result (λ x. x.1 ≤ length bytes.now) }
{
    let (count, next) = count_up_to(bytes, at, MAX_ENTRIES)?;
    entries_of(alloc, bytes, next, count)
}

/// The byte at `at` that names an operation, and the offset after it; another is refused at its
/// place.
pub fn read_kind(bytes: &[u8], at: usize) -> Result<(u8, usize), FormatFault>
    requires { at ≤ length bytes.now }
    ensures exact { result ≡ kind_at bytes.now at }
    ensures within { IfOk result (λ x. x.1 ≤ length bytes.now) }
{
    byte_within(bytes, at, 1, LAST_KIND)
}

/// The operation of a kind, whose fields are spelled at `at`, and the offset after them.
#[tactic(auto, unfolding(crate::specs::Reading::fields_at))]
pub fn read_fields(
    alloc: Global,
    bytes: &[u8],
    at: usize,
    kind: u8,
) -> Result<(Op, usize), FormatFault>
    requires { at ≤ length bytes.now }
    // `operations_are_read` tells what it gives.
    ensures exact { Gives NoMemory (λ x. (operation x.0, x.1)) result
        (fields_at bytes.now kind at) }
    ensures within { IfOk result (λ x. x.1 ≤ length bytes.now) }
{
    match kind {
        1 => Ok((Op::Read, at)),
        2 => {
            let (content, next) = read_content(alloc, bytes, at)?;
            Ok((Op::Write(content), next))
        }
        3 => {
            let (list, next) = read_list(alloc, bytes, at)?;
            Ok((Op::SetList(Arc::new(alloc, list)?), next))
        }
        4 => Ok((Op::Hold, at)),
        5 => {
            let (digest, next) = array_at::<32, _>(bytes, at, ended(bytes))?;
            Ok((Op::Discard(digest), next))
        }
        6 => {
            let (channel, next) = u32_at(bytes, at, ended(bytes))?;
            Ok((Op::Forget(channel), next))
        }
        7 => Ok((Op::Sweep, at)),
        _ => {
            let (issuer, next) = u32_at(bytes, at, ended(bytes))?;
            Ok((Op::Withdraw(issuer), next))
        }
    }
}
