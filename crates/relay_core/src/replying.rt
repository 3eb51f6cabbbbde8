//! The reply to one payload.

ghost use Rattle.std.specs.Prelude.{◌≡◌, ◌≤◌, ◌∷◌, length};
ghost use Rattle.relay_core.specs.Messages.{Replies};
ghost use Rattle.relay_core.specs.Asked.{asked_at, second_of, AnswersTo};

use crate::message::{ANSWER, NO_MEMORY, RESEALED, asked};
use crate::resealing::{RelayTable, reseal};
use arrayvec::ArrayVec;
use frame_link::RelayAnswer;
use std::alloc::Global;

fn second_of(answer: RelayAnswer) -> u8
    ensures { result ≡ second_of answer }
{
    match answer {
        RelayAnswer::Resealed => RESEALED,
        RelayAnswer::Refused { code } => code,
        RelayAnswer::NoMemory => NO_MEMORY,
    }
}

fn answer_to(
    alloc: Global,
    table: &RelayTable,
    payload: &[u8],
    out: &mut ArrayVec<u8, 2048>,
) -> RelayAnswer
    ensures { AnswersTo table.now.issuers.entries table.now.nodes.entries payload.now
        (asked_at payload.now) result out.new.items }
{
    match asked(payload) {
        Ok((node, at)) => reseal(alloc, table, node, &payload[at..], out),
        Err(code) => {
            out.clear();
            RelayAnswer::Refused { code }
        }
    }
}

fn lay_reply(answer: RelayAnswer, certificate: &[u8], reply: &mut ArrayVec<u8, 2050>)
    requires { length certificate.now ≤ 2048 }
    ensures { reply.new.items ≡ ANSWER ∷ second_of answer ∷ certificate.now }
{
    reply.clear();
    reply.push(ANSWER);
    reply.push(second_of(answer));
    reply.try_extend_from_slice(certificate).unwrap();
}

// Answers a payload, of whatever form.
pub(crate) fn reply_to(
    alloc: Global,
    table: &RelayTable,
    payload: &[u8],
    reply: &mut ArrayVec<u8, 2050>,
)
    ensures reply { Replies table.now.issuers.entries table.now.nodes.entries payload.now
        reply.new.items }
    ensures short { length reply.new.items ≤ 2050 }
{
    let mut out = ArrayVec::new();
    let answer = answer_to(alloc, table, payload, &mut out);
    lay_reply(answer, out.as_slice(), reply);
}
