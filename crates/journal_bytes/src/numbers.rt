//! That numbers of journals fit their fields: each is read, for a contract knows it of the program's
//! values alone.

ghost use Rattle.std.specs.Prelude.{◌≡◌, ◌<◌, ◌^◌, All, length, map};
ghost use Rattle.byte_fields.specs.Steps.{IsByte};
ghost use Rattle.stmt_codec.specs.Certificates.{FitsBody};
ghost use Rattle.stmt_codec.specs.View.{certificates};
ghost use Rattle.taos_calculus.specs.Spells.{NodeFits, StepFits};
ghost use Rattle.proof_cache.specs.Cached.{cached};
ghost use Rattle.object_core.specs.ObjectView.{object_entry};
ghost use Rattle.object_core.specs.Operation.{IsDigest};
ghost use Rattle.agent_core.specs.State.{Asks, Keeps};
ghost use Rattle.agent_core.specs.Views.{ask_of, entry_of, event_of};
ghost use Rattle.journal_bytes.specs.Limits.{AsksWithin, CitesFew, FitsObject, FitsRuling, FitsShard};
ghost use Rattle.journal_bytes.specs.Limits.{HasFittingOps};
ghost use Rattle.journal_bytes.specs.Numbers.{CauseNumbers, EntryNumbers, EventNumbers};
ghost use Rattle.journal_bytes.specs.Numbers.{HasLineNumbers, PartsNumbers, RuledNumbers, ToldNumbers};
ghost use Rattle.journal_bytes.specs.Spelled.{object_spelled, shard_spelled};

use agent_core::{Ask, DropCause, Event, ShardEntry, Told};
use object_core::{Object, ObjectEntry, Ruling};
use proof_cache::Cached;
use shard_core::Shard;
use std::sync::Arc;
use stmt_codec::Cert;
use taos_calculus::{Line, Node, Proof, Step};

fn digest_fits(digest: &[u8])
    requires { length digest.now ≡ 32 }
    ensures { IsDigest digest.now }
{}

fn node_fits(node: Node)
    ensures { NodeFits node }
{
    match node {
        Node::Key(_) | Node::Name(_) | Node::AsRole(..) => {}
        Node::And(..) | Node::Quote(..) | Node::For(..) => {}
    }
}

fn step_fits(step: Step)
    ensures { StepFits step }
{
    match step {
        Step::Same | Step::Left | Step::Right | Step::Role => {}
        Step::Chain { .. } | Step::Both { .. } | Step::Quote { .. } | Step::For { .. } => {}
        Step::RoleUnder { .. } | Step::Anchor { .. } | Step::Said { .. } => {}
        Step::Lift { .. } | Step::Join { .. } | Step::HandOff { .. } | Step::Delegate { .. } => {}
    }
}

fn nodes_fit(nodes: &[Node])
    ensures { All NodeFits nodes.now }
{
    for node in nodes {
        node_fits(*node);
    }
}

fn lines_fit(lines: &[Line])
    ensures { All HasLineNumbers lines.now }
{
    for line in lines {
        step_fits(line.step);
    }
}

fn proof_fits(proof: &Proof)
    ensures { PartsNumbers proof.now }
{
    nodes_fit(proof.nodes());
    lines_fit(proof.lines());
}

fn asked_fits(channel: u32, seq: u64, reading: u64)
    ensures channel { channel < 2 ^ 32 }
    ensures seq { seq < 2 ^ 64 }
    ensures reading { reading < 2 ^ 64 }
{}

fn ask_fits(ask: &Ask)
    ensures { EventNumbers (Asks (ask_of ask.now)) }
{
    asked_fits(ask.channel, ask.seq, ask.reading);
}

fn place_fits(place: u64, entry: u8)
    ensures place { place < 2 ^ 64 }
    ensures entry { IsByte entry }
{}

fn number_fits(number: u32)
    ensures { number < 2 ^ 32 }
{}

fn long_fits(number: u64)
    ensures { number < 2 ^ 64 }
{}

// A certificate has its limits from its type.
fn bodies_fit(certs: &[Arc<Cert>])
    ensures { All FitsBody (certificates certs.now) }
{}

fn keep_fits(ask: u64, entry: u8, proof: &Cached)
    ensures { EventNumbers (Keeps ask entry (cached proof.now)) }
{
    place_fits(ask, entry);
    proof_fits(&proof.proof);
}

fn event_fits(event: &Event)
    ensures { EventNumbers (event_of event.now) }
{
    match event {
        Event::Ask(asked) => ask_fits(asked),
        Event::Keep { ask, entry, cached } => keep_fits(*ask, *entry, cached),
        Event::Hold(certs) => bodies_fit(certs),
        Event::Discard(digest) => digest_fits(digest),
        Event::Forget(number) | Event::Withdraw(number) => number_fits(*number),
        Event::Expire(reading) => long_fits(*reading),
    }
}

fn cause_fits(cause: DropCause)
    ensures { CauseNumbers cause }
{
    match cause {
        DropCause::NotHeld { digest } => digest_fits(&digest),
        DropCause::Lapsed { .. } => {}
    }
}

fn told_fits(told: Told)
    ensures { ToldNumbers told }
{
    match told {
        Told::Miss | Told::Kept => {}
        Told::Hit { .. } | Told::Full { .. } | Told::Held { .. } => {}
        Told::CommonsFull { .. } | Told::WithdrawnFull { .. } => {}
        Told::Replayed { .. } | Told::Removed { .. } => {}
        Told::Dropped(cause) => cause_fits(cause),
    }
}

fn entry_fits(entry: &ShardEntry)
    ensures { EntryNumbers (entry_of entry.now) }
{
    event_fits(&entry.event);
    told_fits(entry.told);
}

fn entries_fit(journal: &[ShardEntry])
    ensures { All EntryNumbers (map entry_of journal.now) }
{
    for entry in journal {
        entry_fits(entry);
    }
}

fn shard_fits(shard: &Shard)
    requires few { CitesFew shard.now }
    ensures { AsksWithin shard.now → FitsShard (shard_spelled shard.now) }
{
    let journal = shard.journal();
    long_fits(journal.len() as u64);
    entries_fit(journal);
}

/// Each shard fits its bytes where its Asks are within the limits.
pub(crate) fn shards_fit(shards: &[Shard])
    requires few { All CitesFew shards.now }
    ensures { All (λ s. AsksWithin s → FitsShard (shard_spelled s)) shards.now }
{
    for shard in shards {
        shard_fits(shard);
    }
}

fn ruling_fits(ruling: Ruling)
    ensures { FitsRuling ruling }
{
    match ruling {
        Ruling::Denied | Ruling::Granted { .. } => {}
    }
}

fn ruled_fits(entry: &ObjectEntry)
    ensures { RuledNumbers (object_entry entry.now) }
{
    number_fits(entry.shard);
    long_fits(entry.place);
    ruling_fits(entry.ruling);
}

fn rulings_fit(journal: &[ObjectEntry])
    ensures { All RuledNumbers (map object_entry journal.now) }
{
    for entry in journal {
        ruled_fits(entry);
    }
}

fn object_fits(object: &Object)
    requires fit { HasFittingOps object.now }
    ensures { FitsObject (object_spelled object.now) }
{
    number_fits(object.number());
    let journal = object.journal();
    long_fits(journal.len() as u64);
    rulings_fit(journal);
}

/// Each object fits its bytes.
pub(crate) fn objects_fit(objects: &[Object])
    requires fit { All HasFittingOps objects.now }
    ensures { All (λ o. FitsObject (object_spelled o)) objects.now }
{
    for object in objects {
        object_fits(object);
    }
}
