//! The reply to a request whose certificates could not be fetched.

ghost use Rattle.std.specs.Prelude.{◌≡◌, Some};
ghost use Rattle.taos_wire.specs.Reply.{PullFailed, reply_text, sent, spelling};

use crate::limits::PULL_FAILED;
use arrayvec::ArrayVec;
use keyed_seal::Sealer;

/// The bytes of a short reply.
pub type ReplyBytes = ArrayVec<u8, 64>;

// The reply up to its tag: the version of replies, what is answered, and the status.
#[tactic(auto, unfolding(taos_wire::specs::Reply::reply_text))]
fn text_of(channel: u32, seq: u64) -> [u8; 14]
    ensures { result ≡ reply_text channel seq PullFailed }
{
    let c = channel.to_be_bytes();
    let s = seq.to_be_bytes();
    [
        4,
        c[0],
        c[1],
        c[2],
        c[3],
        s[0],
        s[1],
        s[2],
        s[3],
        s[4],
        s[5],
        s[6],
        s[7],
        PULL_FAILED,
    ]
}

/// Writes the reply that says that the certificates of the channel's request could not be fetched,
/// under a key that is ready to seal. It takes no memory.
pub fn write_pull_failed_with(out: &mut ReplyBytes, sealer: &Sealer, channel: u32, seq: u64)
    ensures { out.new.items ≡ spelling (sent (Some sealer.now) channel seq PullFailed) }
{
    let text = text_of(channel, seq);
    let tag = sealer.tag(&text);
    out.clear();
    out.try_extend_from_slice(&text).unwrap();
    out.try_extend_from_slice(&tag).unwrap();
}

/// The same under the channel's key.
pub fn write_pull_failed(out: &mut ReplyBytes, key: &[u8; 32], channel: u32, seq: u64)
    ensures { out.new.items ≡ spelling (sent (Some key.now) channel seq PullFailed) }
{
    write_pull_failed_with(out, &Sealer::of(key), channel, seq);
}
