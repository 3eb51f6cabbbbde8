//! Writing a request.

ghost use Rattle.std.specs.Prelude.{◌≡◌, ◌++◌, ◌<◌, ◌≤◌, ◌^◌, ◌∷◌, All, drop, length, map};
ghost use Rattle.std.specs.Int.{w16, w32, w64, to_be_bytes};
ghost use Rattle.std.specs.List.{flat_map};
ghost use Rattle.std.specs.Option.{option_map};
ghost use Rattle.keyed_seal.specs.Tag.{tag_of};
ghost use Rattle.object_core.specs.Operation.{FitsOperation};
ghost use Rattle.object_core.specs.View.{operation};
ghost use Rattle.byte_fields.specs.Appends.{Appends, Pushes};
ghost use Rattle.byte_fields.specs.Steps.{counted};
ghost use Rattle.prin_term.specs.View.{principal};
ghost use Rattle.taos_wire.specs.Request.{FitsRequest, IsCertText, asked_bytes, certs_bytes};
ghost use Rattle.taos_wire.specs.Request.{origin_bytes, request_text, sealed};
ghost use Rattle.taos_wire.specs.View.{request, text_of};

use crate::request::Request;
use keyed_seal::hmac;
use object_core::{Op, kind_of, write_fields};
use prin_term::{Term, write_optional_term};
use std::alloc::AllocError;

/// Appends the request's one spelling under the tag of the key. The request has to be within the
/// limits of requests. An `Err` changes nothing.
pub fn write_request(out: &mut Vec<u8>, key: &[u8; 32], asked: &Request) -> Result<(), AllocError>
    requires limits { FitsRequest (request asked.now) }
    ensures { Appends out.old out.new (sealed key.now (request asked.now)) result }
{
    let len = out.len();
    let written = push_sealed(out, key, asked);
    if written.is_err() {
        out.truncate(len);
    }
    written
}

// Appends the text and its tag.
fn push_sealed(out: &mut Vec<u8>, key: &[u8; 32], asked: &Request) -> Result<(), AllocError>
    requires limits { FitsRequest (request asked.now) }
    ensures { Pushes out.old out.new (sealed key.now (request asked.now)) result }
{
    let start = out.len();
    push_text(out, asked)?;
    push_tag(out, key, start)
}

// The tag of what stands from `start` on.
fn push_tag(out: &mut Vec<u8>, key: &[u8; 32], start: usize) -> Result<(), AllocError>
    requires within { start ≤ length out.old.items }
    ensures { Appends out.old out.new (tag_of key.now (drop start out.old.items)) result }
{
    let tag = hmac(key, &out[start..]);
    out.extend_from_slice(&tag)
}

fn push_text(out: &mut Vec<u8>, asked: &Request) -> Result<(), AllocError>
    requires limits { FitsRequest (request asked.now) }
    ensures { Pushes out.old out.new (request_text (request asked.now)) result }
{
    push_origin(out, asked.channel, asked.seq, &asked.quoted)?;
    push_asked(out, asked.object, &asked.op)?;
    push_certs(out, &asked.certs)
}

// The version, the channel and the number.
fn head_of(channel: u32, seq: u64) -> [u8; 13]
    ensures { result ≡ 3 ∷ to_be_bytes w32 channel ++ to_be_bytes w64 seq }
{
    let c = channel.to_be_bytes();
    let s = seq.to_be_bytes();
    [
        3, c[0], c[1], c[2], c[3], s[0], s[1], s[2], s[3], s[4], s[5], s[6], s[7],
    ]
}

// The version, the channel, the number, and who is quoted.
fn push_origin(
    out: &mut Vec<u8>,
    channel: u32,
    seq: u64,
    quoted: &Option<Term>,
) -> Result<(), AllocError>
    ensures { Pushes out.old out.new
        (origin_bytes channel seq (option_map principal quoted.now)) result }
{
    out.extend_from_slice(&head_of(channel, seq))?;
    write_optional_term(out, quoted)
}

// The operation's name, the object, and the operation's fields.
fn push_asked(out: &mut Vec<u8>, object: u32, op: &Op) -> Result<(), AllocError>
    requires limits { FitsOperation (operation op.now) }
    ensures { Pushes out.old out.new (asked_bytes object (operation op.now)) result }
{
    out.push(kind_of(op))?;
    out.extend_from_slice(&object.to_be_bytes())?;
    write_fields(out, op)
}

// Bytes behind their length.
pub(crate) fn push_counted(out: &mut Vec<u8>, text: &[u8]) -> Result<(), AllocError>
    requires short { length text.now < 2 ^ 16 }
    ensures { Pushes out.old out.new (counted w16 text.now) result }
{
    let len = text.len() as u16;
    out.extend_from_slice(&len.to_be_bytes())?;
    out.extend_from_slice(text)
}

// Certificates behind their count.
fn push_certs(out: &mut Vec<u8>, certs: &[Vec<u8>]) -> Result<(), AllocError>
    requires few { length certs.now < 256 }
    requires short { All IsCertText (map text_of certs.now) }
    ensures { Pushes out.old out.new (certs_bytes (map text_of certs.now)) result }
{
    out.push(certs.len() as u8)?;
    push_texts(out, certs)
}

fn push_texts(out: &mut Vec<u8>, certs: &[Vec<u8>]) -> Result<(), AllocError>
    requires short { All IsCertText (map text_of certs.now) }
    ensures { Pushes out.old out.new (flat_map (counted w16) (map text_of certs.now)) result }
{
    for cert in certs {
        push_counted(out, cert)?;
    }
    Ok(())
}
