//! A certificate that is passed along a route of domains.

ghost use Rattle.std.specs.Prelude.{◌≡◌, [], IfErr, IfOk, map};
ghost use Rattle.std.specs.Option.{option_map};
ghost use Rattle.std.specs.declared.alloc.Global.{Global};
ghost use Rattle.frame_link.specs.declared.frame.Next.TheVariants as next;
ghost use Rattle.frame_link.specs.Faults.{HasCause};
ghost use Rattle.node_commands.specs.Findings.{TakesNext, TakesOne};
ghost use Rattle.node_commands.specs.Words.{path_words};
ghost use Rattle.relay_core.specs.declared.message.TheConstants.{MAX_CERT};
ghost use Rattle.relay_path.specs.Domains.{LinksAgree, knows};
ghost use Rattle.node_commands.specs.Paths.{AreLines, HasNoLines, PathCauses, Passes, bytes_or_none};

use crate::words::wanted::Path;
use frame_link::{Failed, FrameBuf, Next, Sink, Source, next_frame, pour};
use relay_core::MAX_CERT;
use relay_path::{Along, Domain, along};
use std::alloc::Global;

/// How passing a certificate along a route ended.
#[derive(Clone, Copy, PartialEq, Eq)]
pub enum PathEnd {
    /// A line for each domain was written.
    Done,
    /// The place of the route, from 0, at which it stopped, and why.
    Refused { hop: u8, code: u8 },
    /// A read failed.
    ReadFault,
    /// A write failed.
    WriteFault,
    /// Memory was refused.
    NoMemory,
}

// Why there are no lines.
#[derive(Clone, Copy)]
pub(crate) enum PathStop {
    Refused { hop: u8, code: u8 },
    NoMemory,
}

// The payload of the first frame, where a whole one within the buffer's limit stands first.
fn first_payload<'b, I: Source>(
    input: &mut I,
    buf: &'b mut FrameBuf,
) -> Result<Option<&'b [u8]>, Failed>
    requires limit { buf.old.limit ≡ MAX_CERT }
    ensures taken { IfOk result (λ found. TakesOne MAX_CERT (I.shown input.old).told
        (I.shown input.new).told (option_map (λ s. s.now) found)) }
    ensures failed { IfErr result (λ _. TakesNext MAX_CERT (I.shown input.old).told
        (I.shown input.new).told [] next.ReadFault) }
    ensures cause { HasCause (I.shown input.old).faults (I.shown input.new).faults result }
{
    match next_frame(input, buf) {
        Next::Frame => Ok(Some(buf.payload())),
        Next::ReadFault => Err(Failed),
        _ => Ok(None),
    }
}

// The bytes of a payload, and none where there is no payload.
fn bytes_or_none(found: Option<&[u8]>) -> &[u8]
    ensures { result.now ≡ bytes_or_none (option_map (λ s. s.now) found.entry) }
{
    match found {
        Some(bytes) => bytes,
        None => b"",
    }
}

// The lines of what the domains of the route seal of these bytes.
fn lines_along(
    alloc: Global,
    domains: &[Domain],
    asked: &Path,
    bytes: &[u8],
) -> Result<Vec<u8>, PathStop>
    requires links { LinksAgree (map knows domains.now) }
    ensures lines { IfOk result (λ lines. AreLines (map knows domains.now) (path_words asked.now)
        bytes.now lines.items) }
    ensures stops { IfErr result
        (HasNoLines (map knows domains.now) (path_words asked.now) bytes.now) }
{
    let mut lines = Vec::new(alloc);
    match along(
        alloc,
        domains,
        asked.route.numbers(),
        asked.node,
        bytes,
        &mut lines,
    ) {
        Along::Done => Ok(lines),
        Along::Refused { hop, code } => Err(PathStop::Refused { hop, code }),
        Along::NoMemory => Err(PathStop::NoMemory),
    }
}

/// Passes the certificate of the first frame along the route, and prints what the domains seal. Where
/// no whole frame within the limit stands first there are no bytes, and the first domain refuses them.
pub fn pass<I: Source, O: Sink>(
    alloc: Global,
    domains: &[Domain],
    asked: &Path,
    input: &mut I,
    output: &mut O,
) -> PathEnd
    requires links { LinksAgree (map knows domains.now) }
    ensures passes { Passes (map knows domains.now) (path_words asked.now)
        (I.shown input.old).told (I.shown input.new).told
        (O.shown output.old).told (O.shown output.new).told result }
    ensures causes { PathCauses (I.shown input.old).faults (I.shown input.new).faults
        (O.shown output.old).faults (O.shown output.new).faults result }
{
    let Ok(mut buf) = FrameBuf::new(alloc, MAX_CERT as u32) else {
        return PathEnd::NoMemory;
    };
    let Ok(found) = first_payload(input, &mut buf) else {
        return PathEnd::ReadFault;
    };
    let lines = match lines_along(alloc, domains, asked, bytes_or_none(found)) {
        Ok(lines) => lines,
        Err(PathStop::Refused { hop, code }) => return PathEnd::Refused { hop, code },
        Err(PathStop::NoMemory) => return PathEnd::NoMemory,
    };
    match pour(output, &lines) {
        Ok(()) => PathEnd::Done,
        Err(Failed) => PathEnd::WriteFault,
    }
}
