//! Who asks in a lane, and the frames of its requests.

ghost use Rattle.std.specs.Prelude.{◌≡◌, ◌+◌, ◌<◌, ◌≤◌, ◌^◌, ◌++◌, length, IfOk, OnOk};
ghost use Rattle.frame_link.specs.Frames.{frame};
ghost use Rattle.sealed_cert.specs.Seals as seals;
ghost use Rattle.stmt_codec.specs.Certificates.{certificate};
ghost use Rattle.taos_wire.specs.Request.{IsCertText, sealed};
ghost use Rattle.taos_wire.specs.View.{request};
ghost use Rattle.taos_drill.specs.Sent.{asked, drill_certificate, object_for};

use crate::numbers::{CLOSED, ISSUER, MAX_LANES, NAME, UNTIL};
use object_core::Op;
use prin_term::Term;
use sealed_cert::{RELAYED, seal_relayed};
use std::alloc::{AllocError, Global};
use std::sync::Arc;
use stmt_codec::CertBody;
use taos_wire::{Request, write_request};

// A channel with its key, and the certificate that it presents.
#[derive(Drop)]
pub(crate) struct Caller {
    channel: u32,
    key: [u8; 32],
    cert: Vec<u8>,
}

// What the issuer says of a channel's key.
fn body_of(channel: u32) -> CertBody
    ensures { certificate result ≡ drill_certificate channel }
{
    let serial = u64::from(channel);
    CertBody::says(
        ISSUER,
        None,
        Term::Key(channel),
        Term::Name(NAME),
        UNTIL,
        serial,
    )
}

// The object of a request: at an even word the one that the channel may read.
fn object_for(channel: u32, word: u32) -> u32
    requires { channel ≤ MAX_LANES }
    ensures { result ≡ object_for channel word }
{
    if word % 2 == 0 {
        channel
    } else {
        CLOSED + channel
    }
}

fn push_frame(out: &mut Vec<u8>, payload: &[u8]) -> Result<(), AllocError>
    requires { length payload.now < 2 ^ 32 }
    ensures { OnOk result (out.new.items ≡ out.old.items ++ frame payload.now) }
{
    let len = payload.len() as u32;
    out.extend_from_slice(&len.to_be_bytes())?;
    out.extend_from_slice(payload)
}

impl Caller {
    // The certificate is sealed under the relay's key.
    pub(crate) fn of(
        alloc: Global,
        relay_key: &[u8; 32],
        key: [u8; 32],
        channel: u32,
    ) -> Result<Caller, AllocError>
        ensures channel { IfOk result (λ c. c.channel ≡ channel) }
        ensures key { IfOk result (λ c. c.key ≡ key) }
        ensures cert { IfOk result (λ c. c.cert.items
            ≡ seals.sealed RELAYED relay_key.now (drill_certificate channel)) }
        ensures text { IfOk result (λ c. IsCertText c.cert.items) }
    {
        let mut cert = Vec::new(alloc);
        seal_relayed(&mut cert, relay_key, &body_of(channel))?;
        Ok(Caller { channel, key, cert })
    }

    fn request_of(&self, alloc: Global, seq: u64, word: u32) -> Result<Request, AllocError>
        requires { self.now.channel ≤ MAX_LANES }
        ensures { IfOk result (λ r. request r ≡ asked self.now.channel seq
            (object_for self.now.channel word) self.now.cert.items) }
    {
        let cert = self.cert.clone()?;
        Ok(Request {
            channel: self.channel,
            seq,
            quoted: None,
            object: object_for(self.channel, word),
            op: Arc::new(alloc, Op::Read)?,
            certs: vec![in alloc; cert]?,
        })
    }

    // Appends the frame of a request.
    pub(crate) fn ask(
        &self,
        alloc: Global,
        out: &mut Vec<u8>,
        seq: u64,
        word: u32,
    ) -> Result<(), AllocError>
        requires channel { self.now.channel ≤ MAX_LANES }
        requires cert { IsCertText self.now.cert.items }
        ensures { OnOk result (out.new.items ≡ out.old.items
            ++ frame (sealed self.now.key (asked self.now.channel seq
            (object_for self.now.channel word) self.now.cert.items))) }
    {
        let request = self.request_of(alloc, seq, word)?;
        let mut payload = Vec::new(alloc);
        write_request(&mut payload, &self.key, &request)?;
        push_frame(out, &payload)
    }
}
