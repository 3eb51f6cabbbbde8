//! Sealing certificates.

ghost use Rattle.std.specs.Prelude.{length, drop, OnOk};
ghost use Rattle.byte_fields.specs.Appends.{Appends, Pushes};
ghost use Rattle.stmt_codec.specs.Certificates.{certificate, HasBodySpelling, IsWithinLimits};
ghost use Rattle.sealed_cert.specs.Seals.{sealed, sealed_after, IsSealed, IsSealedAfter, Opens};

use crate::kind::{ISSUED, RELAYED};
use keyed_seal::Sealer;
use std::alloc::AllocError;
use stmt_codec::{CertBody, write_body};

/// Appends the body under its issuer's seal, whose key is `key`. An `Err` changes nothing.
pub fn seal_issued(out: &mut Vec<u8>, key: &[u8; 32], body: &CertBody) -> Result<(), AllocError>
    requires { IsWithinLimits (certificate body.now) }
    ensures appends { Appends out.old out.new
        (sealed ISSUED key.now (certificate body.now)) result }
    ensures opens { OnOk result (IsSealed ISSUED key.now
        (drop (length out.old.items) out.new.items) (certificate body.now)) }
{
    seal_after(out, &[ISSUED], &Sealer::of(key), body)
}

/// Appends the body under a relay's seal, whose key the relay shares with the node that it is
/// for. An `Err` changes nothing.
pub fn seal_relayed(out: &mut Vec<u8>, key: &[u8; 32], body: &CertBody) -> Result<(), AllocError>
    requires { IsWithinLimits (certificate body.now) }
    ensures appends { Appends out.old out.new
        (sealed RELAYED key.now (certificate body.now)) result }
    ensures opens { OnOk result (Opens key.now
        (drop (length out.old.items) out.new.items) (certificate body.now)) }
{
    seal_relayed_with(out, &Sealer::of(key), body)
}

/// As `seal_relayed`, by a key that is kept ready.
pub fn seal_relayed_with(
    out: &mut Vec<u8>,
    sealer: &Sealer,
    body: &CertBody,
) -> Result<(), AllocError>
    requires { IsWithinLimits (certificate body.now) }
    ensures appends { Appends out.old out.new
        (sealed RELAYED sealer.now (certificate body.now)) result }
    ensures opens { OnOk result (Opens sealer.now
        (drop (length out.old.items) out.new.items) (certificate body.now)) }
{
    seal_after(out, &[RELAYED], sealer, body)
}

/// Appends a front, the body and the tag of both under a key. An `Err` changes nothing.
pub fn seal_after(
    out: &mut Vec<u8>,
    front: &[u8],
    sealer: &Sealer,
    body: &CertBody,
) -> Result<(), AllocError>
    requires { IsWithinLimits (certificate body.now) }
    ensures appends { Appends out.old out.new
        (sealed_after front.now sealer.now (certificate body.now)) result }
    ensures opens { OnOk result (IsSealedAfter front.now sealer.now
        (drop (length out.old.items) out.new.items) (certificate body.now)) }
{
    seal(out, front, sealer, body)
}

fn seal(out: &mut Vec<u8>, front: &[u8], sealer: &Sealer, body: &CertBody) -> Result<(), AllocError>
    ensures appends { Appends out.old out.new
        (sealed_after front.now sealer.now (certificate body.now)) result }
    ensures numbers { OnOk result (HasBodySpelling (certificate body.now)) }
{
    let len = out.len();
    let written = push_sealed(out, front, sealer, body);
    if written.is_err() {
        out.truncate(len);
    }
    written
}

fn push_sealed(
    out: &mut Vec<u8>,
    front: &[u8],
    sealer: &Sealer,
    body: &CertBody,
) -> Result<(), AllocError>
    ensures pushes { Pushes out.old out.new
        (sealed_after front.now sealer.now (certificate body.now)) result }
    ensures numbers { OnOk result (HasBodySpelling (certificate body.now)) }
{
    let len = out.len();
    out.extend_from_slice(front)?;
    write_body(out, body)?;
    let tag = sealer.tag(&out[len..]);
    out.extend_from_slice(&tag)?;
    Ok(())
}
