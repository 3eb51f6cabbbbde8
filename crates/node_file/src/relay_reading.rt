//! Reading a relay file.

ghost use Rattle.std.specs.Prelude.{◌≡◌, IfOk, Ok, Option, true};
ghost use Rattle.node_file.specs.RelayFile as meant;
ghost use Rattle.node_file.specs.RelayFile.{any_relay_step, no_relay, relay_adds, relay_in};
ghost use Rattle.node_file.specs.RelayFile.{relay_step};
ghost use Rattle.prin_text.specs.LineView.{IsReadFor, TakesLine};
ghost use Rattle.node_file.specs.RelayView.{IsRelayDraft, StandsFor, StandsSoFar};

use crate::limits::{MAX_FILE, MAX_ISSUERS, MAX_NODES};
use crate::relay_file::RelayFile;
use crate::relay_kind::{RelayKind, relay_kind};
use prin_text::{
    FileCause, FileFault, KeyDraft, LineFault, Names, is_first_line, is_plain, is_skipped, line_at,
    take_key, take_name, take_role, word_off,
};
use relay_core::RelayTable;
use std::alloc::{AllocError, Global};

// What the lines say so far.
#[derive(Drop)]
struct RelayDraft {
    issuers: KeyDraft,
    nodes: KeyDraft,
    names: Names,
}

// Nothing is known.
fn empty(alloc: Global) -> Result<RelayDraft, AllocError>
    ensures { IfOk result (λ d. IsRelayDraft d no_relay) }
{
    Ok(RelayDraft {
        issuers: KeyDraft::new(alloc, MAX_ISSUERS),
        nodes: KeyDraft::new(alloc, MAX_NODES),
        names: Names::new(alloc)?,
    })
}

// The relay file that the lines say.
fn file_of(alloc: Global, draft: RelayDraft) -> Result<RelayFile, FileFault>
    ensures { (r : meant.RelayFile) → IsRelayDraft draft r → IsReadFor StandsFor result (Ok r) }
{
    Ok(RelayFile {
        table: RelayTable {
            issuers: draft.issuers.table(alloc)?,
            nodes: draft.nodes.table(alloc)?,
        },
        names: draft.names,
    })
}

// What a line about this says is added.
fn take_kind(
    alloc: Global,
    file: &mut RelayDraft,
    kind: RelayKind,
    rest: &[u8],
) -> Result<(), LineFault>
    ensures takes { (above : meant.RelayFile) → IsRelayDraft file.old above
        → TakesLine IsRelayDraft result file.new (relay_adds above kind rest.now) }
{
    match kind {
        RelayKind::Name => take_name(alloc, &mut file.names, rest),
        RelayKind::Role => take_role(alloc, &mut file.names, rest),
        RelayKind::Issuer => take_key(&mut file.issuers, rest),
        RelayKind::Node => take_key(&mut file.nodes, rest),
    }
}

// What a line says is added, or nothing.
#[tactic(auto, unfolding(crate::specs::RelayFile::relay_step))]
fn take_line(alloc: Global, file: &mut RelayDraft, line: &[u8]) -> Result<(), LineFault>
    ensures takes { (above : meant.RelayFile) → IsRelayDraft file.old above
        → TakesLine IsRelayDraft result file.new (relay_step above line.now) }
{
    let (word, rest) = word_off(line);
    let Some(kind) = relay_kind(word) else {
        return Err(LineFault::Refused(FileCause::UnknownWord));
    };
    if is_plain(line) {
        take_kind(alloc, file, kind, rest)
    } else {
        Err(LineFault::Refused(FileCause::Words))
    }
}

// The first line says what file it is, and each behind it adds to it.
fn take_any(alloc: Global, file: &mut RelayDraft, begun: bool, line: &[u8]) -> Result<(), LineFault>
    ensures takes { (so_far : Option meant.RelayFile) → StandsSoFar begun file.old so_far
        → TakesLine (StandsSoFar true) result file.new
        (any_relay_step so_far line.now) }
{
    if begun {
        return take_line(alloc, file, line);
    }
    if is_first_line("taos-relay", line) {
        return Ok(());
    }
    Err(LineFault::Refused(FileCause::FirstLine))
}

/// What a relay file means, or its first line that is refused. Memory is taken for what it holds;
/// where it is refused, the fault is `NoMemory`.
pub fn read_relay_file(alloc: Global, bytes: &[u8]) -> Result<RelayFile, FileFault>
    ensures exact { IsReadFor StandsFor result (relay_in bytes.now) }
{
    let mut number = 0;
    if bytes.len() > MAX_FILE {
        return Err(LineFault::Refused(FileCause::Limit).at(number));
    }
    let mut file = empty(alloc)?;
    let mut begun = false;
    let mut at = 0;
    while at < bytes.len() {
        let (line, next) = line_at(bytes, at);
        number += 1;
        if !is_skipped(line) {
            if let Err(fault) = take_any(alloc, &mut file, begun, line) {
                return Err(fault.at(number));
            }
            begun = true;
        }
        at = next;
    }
    if begun {
        file_of(alloc, file)
    } else {
        Err(LineFault::Refused(FileCause::FirstLine).at(number + 1))
    }
}
