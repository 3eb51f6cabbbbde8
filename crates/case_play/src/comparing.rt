//! What differs between what came of a call and what is wanted.

use crate::case::{Conversation, Part};
use crate::frames::Exchange;
use crate::granting::{Claim, is_told};
use crate::played::Played;
use std::alloc::{AllocError, Global};
use std::fmt;

/// What differs.
#[derive(Clone, Copy)]
pub enum Difference {
    Status { is: u64, wanted: u64 },
    /// The first byte that differs, or lacks, or is too much.
    Output { from: usize },
    /// The number of a grant among those of its conversation, counted from 0.
    Grant { number: usize },
    Note,
    Faults { are: u64, wanted: u64 },
    Hears,
    WalletHears,
    Left,
}

impl fmt::Display for Difference {
    fn fmt<W: fmt::Write>(&self, f: &mut fmt::Formatter<W>) -> fmt::Result {
        match self {
            Difference::Status { is, wanted } => write!(f, "status {is}, not {wanted}"),
            Difference::Output { from } => write!(f, "output, from byte {from}"),
            Difference::Grant { number } => write!(f, "grant {number}"),
            Difference::Note => write!(f, "note"),
            Difference::Faults { are, wanted } => write!(f, "faults {are}, not {wanted}"),
            Difference::Hears => write!(f, "hears"),
            Difference::WalletHears => write!(f, "wallet-hears"),
            Difference::Left => write!(f, "left"),
        }
    }
}

// How many bytes two texts have alike at their front.
fn alike(left: &[u8], right: &[u8]) -> usize {
    let most = left.len().min(right.len());
    for at in 0..most {
        if left[at] != right[at] {
            return at;
        }
    }
    most
}

/// What differs as far as no proof has to be checked: the first claim that is not borne out is the
/// first that differs, and where all are borne out it is what stands here.
#[derive(Drop)]
pub struct Compared<'a> {
    pub claims: Vec<Claim<'a>>,
    pub differs: Option<Difference>,
}

// What differs in the output, behind these claims.
fn output_difference<'a>(
    case: &'a Conversation,
    exchange: &Exchange<'a>,
    output: &'a [u8],
    claims: &mut Vec<Claim<'a>>,
) -> Result<Option<Difference>, AllocError> {
    let mut at = 0usize;
    let mut number = 0usize;
    for part in &case.wanted.output {
        match part {
            Part::Bytes(bytes) => {
                let same = alike(output.get(at..).unwrap_or(&[]), bytes);
                at = at.saturating_add(same);
                if same < bytes.len() {
                    return Ok(Some(Difference::Output { from: at }));
                }
            }
            Part::Granted(grant) => {
                let Some((request, reply)) = exchange.frames_at(at) else {
                    return Ok(Some(Difference::Grant { number }));
                };
                if !is_told(reply, grant) {
                    return Ok(Some(Difference::Grant { number }));
                }
                claims.push(Claim {
                    number,
                    request,
                    reply,
                    grant,
                })?;
                at = at.saturating_add(reply.len());
                number = number.saturating_add(1);
            }
        }
    }
    if at < output.len() {
        return Ok(Some(Difference::Output { from: at }));
    }
    Ok(None)
}

// What differs besides the status and the output.
fn other_difference(case: &Conversation, played: &Played) -> Option<Difference> {
    let wanted = &case.wanted;
    if played.around.notes.written() != wanted.notes() {
        return Some(Difference::Note);
    }
    if played.faults != wanted.faults() {
        return Some(Difference::Faults {
            are: played.faults,
            wanted: wanted.faults(),
        });
    }
    let heard = match &played.hears {
        Some(sink) => sink.written(),
        None => &[],
    };
    if wanted
        .hears
        .as_ref()
        .is_some_and(|bytes| bytes.as_slice() != heard)
    {
        return Some(Difference::Hears);
    }
    let heard = played.wallet_hears.written();
    if wanted
        .wallet_hears
        .as_ref()
        .is_some_and(|bytes| bytes.as_slice() != heard)
    {
        return Some(Difference::WalletHears);
    }
    if wanted
        .left
        .as_ref()
        .is_some_and(|bytes| bytes.as_slice() != played.left.as_slice())
    {
        return Some(Difference::Left);
    }
    None
}

/// Compares what came of a call with what is wanted.
pub fn compare<'a>(
    alloc: Global,
    case: &'a Conversation,
    played: &'a Played,
) -> Result<Compared<'a>, AllocError> {
    let mut claims = Vec::new(alloc);
    let (is, wanted) = (played.status as u64, case.wanted.status());
    if is != wanted {
        let differs = Some(Difference::Status { is, wanted });
        return Ok(Compared { claims, differs });
    }
    let exchange = Exchange::new(alloc, &played.asked, &played.written)?;
    let found = output_difference(case, &exchange, &played.written, &mut claims)?;
    let differs = found.or(other_difference(case, played));
    Ok(Compared { claims, differs })
}
