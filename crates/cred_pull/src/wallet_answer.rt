//! What a wallet writes to a payload.

ghost use Rattle.std.specs.Prelude.{◌≡◌, ◌≤◌, ◌∷◌, ◌++◌, [], All, List, length, map};
ghost use Rattle.cred_pull.specs.declared.limits.TheConstants.{LONGEST_ANSWER};
ghost use Rattle.cred_pull.specs.FetchMessages.{asked_at, giving};
ghost use Rattle.cred_pull.specs.WalletFile.{AreShort, WalletRow};
ghost use Rattle.cred_pull.specs.WalletServing.{Replies, given_for};
ghost use Rattle.cred_pull.specs.WalletView.{row_of, rows_of};

use crate::limits::{FETCH, GIVES};
use crate::wallet::{Wallet, WalletLine};
use arrayvec::ArrayVec;
use byte_fields::{FormatFault, ended, mark_at, u32_at, u64_at};

// The channel and the request's number that a payload asks for.
#[tactic(auto, unfolding(crate::specs::FetchMessages::asked_at))]
fn asked(payload: &[u8]) -> Result<(u32, u64), FormatFault>
    ensures { result ≡ asked_at payload.now }
{
    let bad = FormatFault::Malformed { offset: 0 };
    let next = mark_at(payload, 0, FETCH, ended(payload), bad)?;
    let (channel, next) = u32_at(payload, next, ended(payload))?;
    let (seq, end) = u64_at(payload, next, ended(payload))?;
    if end < payload.len() {
        Err(FormatFault::Malformed { offset: end })
    } else {
        Ok((channel, seq))
    }
}

// Gives the certificate of a line of the channel, while fewer than 16 are given.
fn give_line<'a>(certs: &mut ArrayVec<&'a [u8], 16>, line: &'a WalletLine, channel: u32)
    ensures { (above : List WalletRow) → map (λ t. t.now) certs.old.items ≡ given_for above channel
        → map (λ t. t.now) certs.new.items ≡ given_for (above ++ row_of line.now ∷ []) channel }
{
    if line.channel != channel {
        return;
    }
    if certs.is_full() {
        return;
    }
    certs.push(line.cert.as_slice());
}

// The first certificates of a channel.
fn given_for(lines: &[WalletLine], channel: u32) -> ArrayVec<&[u8], 16>
    ensures { map (λ t. t.now) result.items ≡ given_for (map row_of lines.now) channel }
{
    let mut certs = ArrayVec::new();
    for line in lines {
        give_line(&mut certs, line, channel);
    }
    certs
}

// Lays the payload that gives these.
fn lay_answer(certs: &[&[u8]], reply: &mut ArrayVec<u8, 16418>)
    requires few { length certs.now ≤ 16 }
    requires short { All (λ t. length t ≤ 1024) (map (λ c. c.now) certs.now) }
    ensures reply { reply.new.items ≡ giving (map (λ c. c.now) certs.now) }
    ensures short { length reply.new.items ≤ LONGEST_ANSWER }
{
    reply.clear();
    reply.push(GIVES);
    reply.push(certs.len() as u8);
    for cert in certs {
        let length = cert.len() as u16;
        reply.try_extend_from_slice(&length.to_be_bytes()).unwrap();
        reply.try_extend_from_slice(*cert).unwrap();
    }
}

// Answers a payload, of whatever form.
pub(crate) fn reply_to(wallet: &Wallet, payload: &[u8], reply: &mut ArrayVec<u8, 16418>)
    requires { AreShort (rows_of wallet.now) }
    ensures reply { Replies (rows_of wallet.now) payload.now reply.new.items }
    ensures short { length reply.new.items ≤ LONGEST_ANSWER }
{
    match asked(payload) {
        Ok((channel, _)) => lay_answer(given_for(&wallet.lines, channel).as_slice(), reply),
        Err(_) => lay_answer(&[], reply),
    }
}
