//! The ruling that is due to an Ask.

ghost use Rattle.std.specs.Prelude.{◌≡◌, true, false, map, length, replicate};
ghost use Rattle.prin_term.specs.View.{grant, principal};
ghost use Rattle.stmt_codec.specs.View.{certificates};
ghost use Rattle.taos_calculus.specs.Question.{IsAskable};
ghost use Rattle.agent_core.specs.Views.{ask_of};
ghost use Rattle.audit_replay.specs.Legal.{IsRulingBy};
ghost use Rattle.audit_replay.specs.Stepping.{IsLastMark, WasMissed, WasStepped};

use crate::event::ask_at;
use agent_core::{Answer, Ask, Snapshot, granting_entry};
use object_core::Ruling;
use prin_term::Anchor;
use shard_core::Shard;
use taos_calculus::Decide;

/// What is due to an Ask that was judged, and whether an entry of an object names it already.
#[derive(Clone, Copy, PartialEq, Eq)]
pub(crate) struct Due {
    pub ruling: Ruling,
    pub named: bool,
}

// The ruling by what an Ask is judged by.
fn ruling_by<D: Decide>(
    bench: &mut D,
    anchors: &[Anchor],
    snapshot: &Snapshot,
    asked: &Ask,
) -> Ruling
    requires { IsAskable anchors.now (certificates snapshot.now.certs.items)
        (replicate (length snapshot.now.certs.items) true) (principal asked.now.subject)
        (map grant asked.now.list.value.items) }
    ensures { IsRulingBy anchors.now (certificates snapshot.now.certs.items) snapshot.now.moment
        (ask_of asked.now) result }
{
    match granting_entry(bench, anchors, snapshot, asked) {
        Some(entry) => Ruling::Granted { entry },
        None => Ruling::Denied,
    }
}

// What is due, and not named yet.
fn unnamed(ruling: Ruling) -> Due
    ensures { result ≡ record { ruling = ruling; named = false } }
{
    Due {
        ruling,
        named: false,
    }
}

// What is due to the last entry, which is an Ask that is judged by these certificates.
fn due_to_missed<D: Decide>(bench: &mut D, shard: &Shard, snapshot: &Snapshot) -> Option<Due>
    requires { WasMissed shard.now.plan shard.now.journal snapshot.now.moment
        (certificates snapshot.now.certs.items) }
    ensures { IsLastMark shard.now.plan shard.now.journal result }
{
    let anchors = &shard.plan().anchors;
    let entries = shard.journal();
    let last = entries.len() as u64 - 1;
    match ask_at(entries, last) {
        Some(asked) => Some(unnamed(ruling_by(bench, anchors, snapshot, asked))),
        None => None,
    }
}

/// What is due to the last entry, by the answer to it, where it is an Ask that is judged.
pub(crate) fn due_by<D: Decide>(bench: &mut D, shard: &Shard, answer: &Answer) -> Option<Due>
    requires { WasStepped shard.now.plan shard.now.journal answer.now }
    ensures { IsLastMark shard.now.plan shard.now.journal result }
{
    match answer {
        Answer::Hit { entry, .. } => Some(unnamed(Ruling::Granted { entry: *entry })),
        Answer::Miss(snapshot) => due_to_missed(bench, shard, snapshot),
        Answer::Replayed { .. }
        | Answer::Full { .. }
        | Answer::Kept
        | Answer::Dropped(_)
        | Answer::Held { .. }
        | Answer::CommonsFull { .. }
        | Answer::Removed { .. }
        | Answer::WithdrawnFull { .. }
        | Answer::JournalFull { .. } => None,
    }
}
