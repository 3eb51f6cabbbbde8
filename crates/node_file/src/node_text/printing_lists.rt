//! Printing the anchors and the certificates of an opening.

ghost use Rattle.std.specs.Prelude.{◌≡◌, ◌++◌, OnOk, map, string_bytes};
ghost use Rattle.node_file.specs.FilePrinting.{anchor_line, common_line, ended, text_of_lines};
ghost use Rattle.node_file.specs.OpeningView.{common};
ghost use Rattle.stmt_codec.specs.Certificates.{certificate};

use crate::node_text::printing::push_text;
use hex::encode;
use prin_term::{Anchor, Term};
use prin_text::{Names, print_principal};
use sealed_cert::seal_relayed;
use std::alloc::{AllocError, Global};
use std::sync::Arc;
use stmt_codec::Cert;

fn push_anchor(
    alloc: Global,
    out: &mut String,
    names: &Names,
    anchor: Anchor,
) -> Result<(), AllocError>
    ensures { OnOk result (string_bytes out.new
        ≡ string_bytes out.old ++ ended (anchor_line names.now.names anchor)) }
{
    let mut name = String::new(alloc);
    print_principal(alloc, &mut name, names, &Term::Name(anchor.name))?;
    push_text(out, "anchor", anchor.key, name.as_str())
}

pub(super) fn push_anchors(
    alloc: Global,
    out: &mut String,
    names: &Names,
    anchors: &[Anchor],
) -> Result<(), AllocError>
    ensures { OnOk result (string_bytes out.new
        ≡ string_bytes out.old ++ text_of_lines (map (anchor_line names.now.names) anchors.now)) }
{
    for anchor in anchors {
        push_anchor(alloc, out, names, *anchor)?;
    }
    Ok(())
}

fn push_common(
    alloc: Global,
    out: &mut String,
    relay_key: &[u8; 32],
    cert: &Cert,
) -> Result<(), AllocError>
    ensures { OnOk result (string_bytes out.new
        ≡ string_bytes out.old ++ ended (common_line relay_key.now (certificate cert.now.body))) }
{
    let mut bytes = Vec::new(alloc);
    seal_relayed(&mut bytes, relay_key, &cert.body)?;
    let digits = encode(alloc, bytes.as_slice())?;
    out.push_str("common ")?;
    out.push_str(digits.as_str())?;
    out.push_str("\n")
}

pub(super) fn push_commons(
    alloc: Global,
    out: &mut String,
    relay_key: &[u8; 32],
    commons: &[Arc<Cert>],
) -> Result<(), AllocError>
    ensures { OnOk result (string_bytes out.new
        ≡ string_bytes out.old
        ++ text_of_lines (map (common_line relay_key.now) (map common commons.now))) }
{
    for cert in commons {
        push_common(alloc, out, relay_key, cert)?;
    }
    Ok(())
}
