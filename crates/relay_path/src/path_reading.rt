//! Reading a path file.

ghost use Rattle.std.specs.Prelude.{◌≡◌, List, Option, Vec, true, IfOk, map};
ghost use Rattle.byte_fields.specs.Steps.{with_fault};
ghost use Rattle.prin_text.specs.LineView.{IsReadFor, TakesLine};
ghost use Rattle.relay_path.specs.Domains.{DomainKnows, LinksAgree, knows};
ghost use Rattle.relay_path.specs.PathFile.{any_path_step, path_adds, path_in, path_step};
ghost use Rattle.relay_path.specs.PathView.{AreDomainDrafts, file_fault, path_cause, StandForDomains};
ghost use Rattle.relay_path.specs.PathView.{IsPathFault, StandSoFar};

use crate::domain::Domain;
use crate::domain_draft::{DomainDraft, domains_of};
use crate::fault::{PathCause, PathFault};
use crate::path_kind::{PathKind, path_kind};
use crate::path_taking::{take_domain, take_issuer, take_link, take_node};
use prin_text::{
    FileCause, FileFault, LineFault, MAX_FILE, is_first_line, is_plain, is_skipped, line_at,
    word_off,
};
use std::alloc::Global;

// What a line about this says is added.
fn take_kind(
    alloc: Global,
    drafts: &mut Vec<DomainDraft>,
    kind: PathKind,
    rest: &[u8],
) -> Result<(), LineFault>
    ensures takes { (above : List DomainKnows) → AreDomainDrafts drafts.old.items above
        → TakesLine AreDomainDrafts result drafts.new.items (path_adds above kind rest.now) }
{
    match kind {
        PathKind::Domain => take_domain(alloc, drafts, rest),
        PathKind::Issuer => take_issuer(drafts, rest),
        PathKind::Node => take_node(drafts, rest),
        PathKind::Link => take_link(drafts, rest),
    }
}

// What a line says is added, or nothing.
#[tactic(auto, unfolding(crate::specs::PathFile::path_step))]
fn take_line(alloc: Global, drafts: &mut Vec<DomainDraft>, line: &[u8]) -> Result<(), LineFault>
    ensures takes { (above : List DomainKnows) → AreDomainDrafts drafts.old.items above
        → TakesLine AreDomainDrafts result drafts.new.items (path_step above line.now) }
{
    let (word, rest) = word_off(line);
    let Some(kind) = path_kind(word) else {
        return Err(LineFault::Refused(FileCause::UnknownWord));
    };
    if is_plain(line) {
        take_kind(alloc, drafts, kind, rest)
    } else {
        Err(LineFault::Refused(FileCause::Words))
    }
}

// The first line says what file it is, and each behind it adds to it.
fn take_any(
    alloc: Global,
    drafts: &mut Vec<DomainDraft>,
    begun: bool,
    line: &[u8],
) -> Result<(), LineFault>
    ensures takes { (so_far : Option (List DomainKnows)) → StandSoFar begun drafts.old.items so_far
        → TakesLine (StandSoFar true) result drafts.new.items
        (any_path_step so_far line.now) }
{
    if begun {
        return take_line(alloc, drafts, line);
    }
    if is_first_line("taos-path", line) {
        return Ok(());
    }
    Err(LineFault::Refused(FileCause::FirstLine))
}

// The domains that the file says.
fn read_lines(alloc: Global, bytes: &[u8]) -> Result<Vec<Domain>, FileFault>
    ensures { IsReadFor (λ (v : Vec Domain Global) ds. StandForDomains v.items ds) result
        (path_in bytes.now) }
{
    let mut number = 0;
    if bytes.len() > MAX_FILE {
        return Err(LineFault::Refused(FileCause::Limit).at(number));
    }
    let mut drafts = Vec::new(alloc);
    let mut begun = false;
    let mut at = 0;
    while at < bytes.len() {
        let (line, next) = line_at(bytes, at);
        number += 1;
        if !is_skipped(line) {
            if let Err(fault) = take_any(alloc, &mut drafts, begun, line) {
                return Err(fault.at(number));
            }
            begun = true;
        }
        at = next;
    }
    if begun {
        Ok(domains_of(alloc, &drafts)?)
    } else {
        Err(LineFault::Refused(FileCause::FirstLine).at(number + 1))
    }
}

// The cause of a path file; one that such a file does not have comes from none.
fn path_cause(cause: FileCause) -> PathCause
    ensures { result ≡ path_cause cause }
{
    match cause {
        FileCause::FirstLine => PathCause::FirstLine,
        FileCause::UnknownWord => PathCause::UnknownWord,
        FileCause::Number => PathCause::Number,
        FileCause::Hex => PathCause::Hex,
        FileCause::UnknownDomain => PathCause::UnknownDomain,
        FileCause::Twice => PathCause::Twice,
        FileCause::Limit => PathCause::Limit,
        _ => PathCause::Words,
    }
}

// The fault of a path file.
fn path_fault(fault: FileFault) -> PathFault
    requires { IsPathFault fault }
    ensures { file_fault result ≡ fault }
{
    match fault {
        FileFault::Line { line, cause } => PathFault::Line {
            line,
            cause: path_cause(cause),
        },
        FileFault::Byte { .. } | FileFault::NoMemory => PathFault::NoMemory,
    }
}

/// The domains of a path file, in its order, or its first line that is refused.
pub fn read_path_file(alloc: Global, bytes: &[u8]) -> Result<Vec<Domain>, PathFault>
    ensures exact { IsReadFor (λ (v : Vec Domain Global) ds. StandForDomains v.items ds)
        (with_fault file_fault result) (path_in bytes.now) }
    // Two domains that the file links have one key for each other.
    ensures sound { IfOk result (λ domains. LinksAgree (map knows domains.items)) }
{
    match read_lines(alloc, bytes) {
        Ok(domains) => Ok(domains),
        Err(fault) => Err(path_fault(fault)),
    }
}
