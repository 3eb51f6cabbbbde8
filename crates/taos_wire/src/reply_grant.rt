//! Reading the fields of a grant.

ghost use Rattle.std.specs.Prelude.{◌≡◌, ◌≤◌, ◌==◌, length, IfOk};
ghost use Rattle.byte_fields.specs.Steps.{Gives};
ghost use Rattle.byte_fields.specs.declared.fault.FormatFault.TheVariants.{NoMemory};
ghost use Rattle.taos_wire.specs.ReplyReading.{granted_at};
ghost use Rattle.taos_wire.specs.View.{reply};

use crate::fault::WireFault;
use crate::reply::{MAX_CITED, Reply};
use crate::reply_reading::place_of;
use byte_fields::{byte_within, counted16_at, ended, u8_at};
use std::alloc::Global;
use std::sync::Arc;
use stmt_codec::read_bodies;
use taos_calculus::read_counted_proof;

#[tactic(auto, unfolding(crate::specs::ReplyReading::granted_at))]
pub(crate) fn granted_of(
    alloc: Global,
    bytes: &[u8],
    at: usize,
) -> Result<(Reply, usize), WireFault>
    requires { at ≤ length bytes.now }
    ensures value { Gives NoMemory (λ x. (reply x.0, x.1)) result (granted_at bytes.now at) }
    ensures within { IfOk result (λ x. x.1 ≤ length bytes.now) }
{
    let (flag, next) = byte_within(bytes, at, 0, 1)?;
    let (entry, next) = u8_at(bytes, next, ended(bytes))?;
    let (shard, place, next) = place_of(bytes, next)?;
    let (proof, next) = read_counted_proof(alloc, bytes, next)?;
    let (certs, next) = read_bodies(alloc, bytes, next, MAX_CITED)?;
    let (content, next) = counted16_at(bytes, next, ended(bytes))?;
    let reply = Reply::Granted {
        kept: flag == 1,
        entry,
        shard,
        place,
        proof: Arc::new(alloc, proof)?,
        certs,
        result: Vec::from_slice(alloc, content)?,
    };
    Ok((reply, next))
}
