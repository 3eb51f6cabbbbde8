//! An entry of an object, held against the Ask that it names.

ghost use Rattle.std.specs.Prelude.{◌≡◌, ◌↔◌, ◌++◌, ◌∷◌, [], ℕ, List, IsTrue, map, IfNone, IfSome};
ghost use Rattle.prin_term.specs.View.{grant};
ghost use Rattle.agent_core.specs.Views.{ask_of};
ghost use Rattle.object_core.specs.Objects.{list_after};
ghost use Rattle.object_core.specs.Operation.{right_of as needed};
ghost use Rattle.object_core.specs.ObjectView.{object_entry};
ghost use Rattle.object_core.specs.Shelving.{fixed_of};
ghost use Rattle.shard_core.specs.Cells.{Cells};
ghost use Rattle.journal_bytes.specs.Limits.{FitsRuled};
ghost use Rattle.audit_replay.specs.Marks.{AreSound};
ghost use Rattle.audit_replay.specs.Ruling.{FindsDue, HasMark, RulesNext, RulesOn, RulingCause};
ghost use Rattle.audit_replay.specs.Stepping.{stepped_again};

use crate::due::Due;
use crate::event::ask_at;
use crate::fall::Fall;
use crate::replayed::ReplayCause;
use crate::stepping::ShardReplay;
use agent_core::Ask;
use object_core::{Object, ObjectEntry, right_of};
use prin_term::Entry;

fn is_same(entry: &Entry, other: &Entry) -> bool
    ensures { IsTrue result ↔ (grant entry.now ≡ grant other.now) }
{
    entry.rights == other.rights && entry.who.same(&other.who)
}

/// Whether the lists grant alike.
pub(crate) fn are_same(list: &[Entry], other: &[Entry]) -> bool
    ensures { IsTrue result ↔ (map grant list.now ≡ map grant other.now) }
{
    if list.len() != other.len() {
        return false;
    }
    for place in 0..list.len() {
        if !is_same(&list[place], &other[place]) {
            return false;
        }
    }
    true
}

// Whether an Ask has the right that the entry's operation needs, and the list that the object has.
fn is_for(asked: &Ask, object: &Object, entry: &ObjectEntry) -> bool
    ensures { IsTrue result ↔ ((ask_of asked.now).right ≡ needed (object_entry entry.now).op)
        × ((ask_of asked.now).list ≡ list_after object.now.plan object.now.journal) }
{
    asked.right == right_of(&entry.op) && are_same(&asked.list, object.list())
}

// What is due to the Ask that an entry of the object names; none where there is no Ask that was to
// be judged, or one with another right or list.
fn due_to(shards: &[ShardReplay], object: &Object, entry: &ObjectEntry) -> Option<Due>
    ensures due { FindsDue shards.now object.now (object_entry entry.now) result }
    ensures there { IfSome result (HasMark shards.now entry.now.shard entry.now.place) }
{
    let replay = shards.get(entry.shard as usize)?;
    let mark = replay.marks.get(entry.place as usize)?;
    let due = (*mark)?;
    let asked = ask_at(replay.shard.journal(), entry.place)?;
    if is_for(asked, object, entry) {
        Some(due)
    } else {
        None
    }
}

// The Ask at a place is named from now on.
fn name_ask(shards: &mut [ShardReplay], shard: u32, place: u64, due: Due)
    requires { HasMark shards.old shard place due }
    ensures sound { (cells : Cells) (names : List (ℕ × ℕ)) → AreSound cells.plans names shards.old
        → AreSound cells.plans (names ++ (shard, place) ∷ []) shards.new }
    ensures journals { stepped_again shards.new ≡ stepped_again shards.old }
{
    let replay = &mut shards[shard as usize];
    replay.marks[place as usize] = Some(Due {
        ruling: due.ruling,
        named: true,
    });
}

/// Holds an entry of the object against the Ask that it names. None where it has its place and the
/// ruling that is due, and then it is journaled; else why it fails.
pub(crate) fn rule(
    shards: &mut [ShardReplay],
    object: &mut Object,
    entry: ObjectEntry,
) -> Option<ReplayCause>
    requires fits { FitsRuled (object_entry entry) }
    ensures fixed { fixed_of object.new ≡ fixed_of object.old }
    ensures fails { IfSome result (λ cause. (cells : Cells) (names : List (ℕ × ℕ))
        → AreSound cells.plans names shards.old
        → RulingCause cells shards.old object.old names (object_entry entry) cause) }
    ensures adds { IfNone result (object.new.journal ≡ object.old.journal ++ object_entry entry ∷ []) }
    ensures rules { IfNone result ((cells : Cells) (names : List (ℕ × ℕ))
        → AreSound cells.plans names shards.old
        → RulesNext cells shards.old shards.new object.old names (object_entry entry)) }
{
    if !object.has_room() {
        return Some(ReplayCause::Limit);
    }
    let Some(due) = due_to(shards, object, &entry) else {
        return Some(ReplayCause::Ask);
    };
    if due.named {
        return Some(ReplayCause::Again);
    }
    if due.ruling == entry.ruling {
        name_ask(shards, entry.shard, entry.place, due);
        object.apply(entry);
        None
    } else {
        Some(ReplayCause::Ruling)
    }
}

/// The same of one entry more, unless an earlier one failed.
pub(crate) fn rule_next(
    shards: &mut [ShardReplay],
    object: &mut Object,
    entry: ObjectEntry,
    fall: Option<Fall>,
) -> Option<Fall>
    requires fits { FitsRuled (object_entry entry) }
    ensures fixed { fixed_of object.new ≡ fixed_of object.old }
    ensures ruled { RulesOn shards.old shards.new object.old object.new (object_entry entry) fall
        result }
{
    if fall.is_some() {
        return fall;
    }
    let place = object.journal().len() as u64;
    match rule(shards, object, entry) {
        Some(cause) => Some(Fall { place, cause }),
        None => None,
    }
}
