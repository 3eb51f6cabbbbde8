//! Writing the spelling of a body.

ghost use Rattle.std.specs.Prelude.{◌≡◌, OnOk};
ghost use Rattle.stmt_codec.specs.Certificates.{certificate, body_spelling, HasBodySpelling};
ghost use Rattle.stmt_codec.specs.Certificates.{from_bytes, version_of};
ghost use Rattle.byte_fields.specs.Appends.{Appends, Pushes};

use crate::body::CertBody;
use prin_term::{write_optional_term, write_term};
use std::alloc::AllocError;

/// Appends the one spelling of a body. An `Err` changes nothing.
pub fn write_body(out: &mut Vec<u8>, body: &CertBody) -> Result<(), AllocError>
    ensures appends { Appends out.old out.new (body_spelling (certificate body.now)) result }
    // The numbers of a body fit their fields, so what is written is read again.
    ensures numbers { OnOk result (HasBodySpelling (certificate body.now)) }
{
    let len = out.len();
    let written = push_body(out, body);
    if written.is_err() {
        out.truncate(len);
    }
    written
}

fn version_of(from: u64) -> u8
    ensures { result ≡ version_of from }
{
    if from == 0 { 1 } else { 2 }
}

// The beginning, where there is one.
fn push_from(out: &mut Vec<u8>, from: u64) -> Result<(), AllocError>
    ensures { Pushes out.old out.new (from_bytes from) result }
{
    if from == 0 {
        return Ok(());
    }
    out.extend_from_slice(&from.to_be_bytes())
}

fn push_body(out: &mut Vec<u8>, body: &CertBody) -> Result<(), AllocError>
    ensures pushes { Pushes out.old out.new (body_spelling (certificate body.now)) result }
    ensures numbers { OnOk result (HasBodySpelling (certificate body.now)) }
{
    out.push(version_of(body.from))?;
    out.extend_from_slice(&body.issuer.to_be_bytes())?;
    write_optional_term(out, &body.quoted)?;
    write_term(out, &body.statement.left)?;
    write_term(out, &body.statement.right)?;
    push_from(out, body.from)?;
    out.extend_from_slice(&body.until.to_be_bytes())?;
    out.extend_from_slice(&body.serial.to_be_bytes())?;
    Ok(())
}
