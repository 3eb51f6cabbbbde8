//! Whether a reply is the grant that is wanted.

use crate::case::Grant;
use crate::objects::{Around, sink_of, source_of};
use crate::stage::{Stage, spare_lane};
use std::alloc::{AllocError, Global};

// The line of a check has no more bytes.
const LINE: usize = 1000;

// Where the entry stands in the payload of a grant.
const ENTRY: usize = 15;

// What stands behind a length of four bytes and that many bytes.
fn behind(bytes: &[u8]) -> Option<&[u8]> {
    let (word, rest) = bytes.split_first_chunk::<4>()?;
    let (_, rest) = rest.split_at_checked(u32::from_be_bytes(*word) as usize)?;
    Some(rest)
}

// The bytes behind a length of two bytes, and the rest.
fn counted(bytes: &[u8]) -> Option<(&[u8], &[u8])> {
    let (word, rest) = bytes.split_first_chunk::<2>()?;
    rest.split_at_checked(u16::from_be_bytes(*word) as usize)
}

// The content of a granted reply, from the length of its proof on.
fn content_of(bytes: &[u8]) -> Option<&[u8]> {
    let (count, mut rest) = behind(bytes)?.split_first()?;
    for _ in 0..*count {
        rest = counted(rest)?.1;
    }
    Some(counted(rest)?.0)
}

// Whether a payload begins as the grant does, and has its content.
fn is_alike(payload: &[u8], grant: &Grant) -> bool {
    match payload.strip_prefix(grant.front.as_slice()) {
        Some(rest) => content_of(rest) == Some(grant.content.as_slice()),
        None => false,
    }
}

/// Whether a reply's frame is the grant that is wanted, but for its proof.
pub fn is_told(reply: &[u8], grant: &Grant) -> bool {
    match reply.split_first_chunk::<4>() {
        Some((_, payload)) => is_alike(payload, grant),
        None => false,
    }
}

/// A reply whose proof has to be checked: it is a grant that is wanted if `check` bears it out.
#[derive(Drop)]
pub struct Claim<'a> {
    /// The number of the grant among those of its conversation, counted from 0.
    pub number: usize,
    pub request: &'a [u8],
    pub reply: &'a [u8],
    pub grant: &'a Grant,
}

// What stands round a check of a request and its reply, by this node file.
fn around_check(
    alloc: Global,
    file: &[u8],
    request: &[u8],
    reply: &[u8],
) -> Result<Around, AllocError> {
    let mut frames = request.to_vec(alloc)?;
    frames.extend_from_slice(reply)?;
    Ok(Around {
        file: source_of(alloc, file, &[])?,
        input: source_of(alloc, &frames, &[])?,
        output: sink_of(alloc, LINE, &[])?,
        notes: sink_of(alloc, LINE, &[])?,
    })
}

/// What the call of `check` is handed that a claim needs, by this node file.
pub fn stage_of_check(alloc: Global, file: &[u8], claim: &Claim<'_>) -> Result<Stage, AllocError> {
    let word = String::from_str(alloc, "check")?;
    Ok(Stage {
        words: vec![in alloc; word]?,
        around: around_check(alloc, file, claim.request, claim.reply)?,
        first: spare_lane(alloc, &[])?,
        second: spare_lane(alloc, &[])?,
    })
}
// Whether the line tells a grant of this entry by so many certificates, whatever the lines of its
// proof.
fn tells(alloc: Global, line: &[u8], entry: u8, certificates: u64) -> Result<bool, AllocError> {
    let front = format!(in alloc; "granted entry {entry} lines ")?;
    let back = format!(in alloc; " certificates {certificates}\n")?;
    let Some(rest) = line.strip_prefix(front.as_bytes()) else {
        return Ok(false);
    };
    let Some(lines) = rest.strip_suffix(back.as_bytes()) else {
        return Ok(false);
    };
    Ok(!lines.is_empty() && lines.iter().all(|digit| digit.is_ascii_digit()))
}

/// Whether the call of `check` that ended with this status and left this bears a claim out.
pub fn is_borne_out(
    alloc: Global,
    claim: &Claim<'_>,
    status: u8,
    stage: &Stage,
) -> Result<bool, AllocError> {
    let Some(entry) = claim.grant.front.get(ENTRY) else {
        return Ok(false);
    };
    let line = stage.around.output.written();
    Ok(status == 0 && tells(alloc, line, *entry, claim.grant.certificates)?)
}
