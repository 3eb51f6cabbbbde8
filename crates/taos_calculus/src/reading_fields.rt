//! Fields of a proof, read at an offset.

ghost use Rattle.std.specs.Prelude.{◌≡◌, ◌≤◌, ◌-◌, ◌/◌, min, length, IfOk};
ghost use Rattle.byte_fields.specs.Formats.{ended};
ghost use Rattle.taos_calculus.specs.ProofReading.{byte_up_to, number_in, pair_in};

use crate::fault::ProofFault;
use byte_fields::{u8_at, u16_at};

// The fewest bytes of a node, and of a line.
const LEAST: usize = 5;

// The fault of bytes that are lacking.
pub(crate) fn ended(bytes: &[u8]) -> ProofFault
    ensures { result ≡ ended bytes.now }
{
    ProofFault::Malformed {
        offset: bytes.len(),
    }
}

// A byte from 1 to the last.
pub(crate) fn byte_up_to(bytes: &[u8], at: usize, last: u8) -> Result<(u8, usize), ProofFault>
    requires { at ≤ length bytes.now }
    ensures value { result ≡ byte_up_to last bytes.now at }
    ensures within { IfOk result (λ x. x.1 ≤ length bytes.now) }
{
    let (byte, next) = u8_at(bytes, at, ended(bytes))?;
    if 1 <= byte && byte <= last {
        Ok((byte, next))
    } else {
        Err(ProofFault::Malformed { offset: at })
    }
}

// The number of one of so many nodes.
pub(crate) fn number_of(bytes: &[u8], at: usize, nodes: usize) -> Result<(u16, usize), ProofFault>
    requires { at ≤ length bytes.now }
    ensures value { result ≡ number_in nodes bytes.now at }
    ensures within { IfOk result (λ x. x.1 ≤ length bytes.now) }
{
    let (number, next) = u16_at(bytes, at, ended(bytes))?;
    if (number as usize) < nodes {
        Ok((number, next))
    } else {
        Err(ProofFault::Malformed { offset: at })
    }
}

#[tactic(auto, unfolding(crate::specs::ProofReading::pair_in))]
pub(crate) fn pair_of(
    bytes: &[u8],
    at: usize,
    nodes: usize,
) -> Result<((u16, u16), usize), ProofFault>
    requires { at ≤ length bytes.now }
    ensures value { result ≡ pair_in nodes bytes.now at }
    ensures within { IfOk result (λ x. x.1 ≤ length bytes.now) }
{
    let (first, next) = number_of(bytes, at, nodes)?;
    let (second, next) = number_of(bytes, next, nodes)?;
    Ok(((first, second), next))
}

// So many, or as many as the bytes from an offset on can hold.
pub(crate) fn room_for(bytes: &[u8], at: usize, count: usize) -> usize
    requires { at ≤ length bytes.now }
    ensures { result ≡ min count ((length bytes.now - at) / LEAST) }
{
    let most = (bytes.len() - at) / LEAST;
    if count < most { count } else { most }
}
