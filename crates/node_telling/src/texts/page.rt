//! The page for Prometheus.

ghost use Rattle.std.specs.Prelude.{◌≡◌, ◌++◌, OnErr, OnOk, string_bytes};
ghost use Rattle.node_telling.specs.Page.{page};

use crate::texts::page_parts::{
    push_faults, push_journals, push_outcomes, push_service, push_times,
};
use crate::texts::status::Status;
use std::alloc::{AllocError, Global};

// What an `Err` leaves of the text is not said.
fn push_parts(out: &mut String, version: &str, status: &Status) -> Result<(), AllocError>
    ensures { OnOk result (string_bytes out.new
        ≡ string_bytes out.old ++ page version.now status.now) }
{
    push_service(out, version, status)?;
    push_outcomes(out, status)?;
    push_times(out, status)?;
    push_faults(out, status)?;
    push_journals(out, status)
}

/// Appends the page of what a program of this version has counted, in the text format 0.0.4. The version
/// has no quote, backslash or line feed. An `Err` changes nothing.
pub fn push_page(
    alloc: Global,
    out: &mut String,
    version: &str,
    status: &Status,
) -> Result<(), AllocError>
    ensures told { OnOk result (string_bytes out.new
        ≡ string_bytes out.old ++ page version.now status.now) }
    ensures unchanged { OnErr result (string_bytes out.new ≡ string_bytes out.old) }
{
    let mut text = String::new(alloc);
    push_parts(&mut text, version, status)?;
    out.push_str(text.as_str())
}
