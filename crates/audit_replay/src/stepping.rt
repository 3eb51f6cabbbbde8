//! An entry of a shard, stepped again.

ghost use Rattle.std.specs.Prelude.{◌≡◌, ◌<◌, ◌++◌, ◌∷◌, [], ℕ, List, Some, length, IfNone, IfOk, IfSome};
ghost use Rattle.agent_core.specs.Answers.{given_by};
ghost use Rattle.agent_core.specs.Journals.{Entry};
ghost use Rattle.agent_core.specs.State.{Plan};
ghost use Rattle.agent_core.specs.Views.{event_of};
ghost use Rattle.journal_bytes.specs.Events.{event_from};
ghost use Rattle.journal_bytes.specs.Limits.{FitsEntry};
ghost use Rattle.journal_bytes.specs.Spelled.{SpelledEntry as SpelledValue, spelled};
ghost use Rattle.journal_bytes.specs.View.{entry_seen, event_seen};
ghost use Rattle.audit_replay.specs.Marks.{StaysSound};
ghost use Rattle.audit_replay.specs.Replays.{ShardCause, Unmeant};
ghost use Rattle.audit_replay.specs.Stepping.{HasCome, StepsOrFails, told_in};

use crate::due::{Due, due_by};
use crate::event::next_event;
use crate::fall::Fall;
use crate::lists::Lists;
use crate::replayed::ReplayCause;
use agent_core::{Answer, Event, Told};
use journal_bytes::{SpelledEntry, SpelledEvent};
use shard_core::Shard;
use std::alloc::{AllocError, Global};
use taos_calculus::Decide;

/// A shard that is stepped again, what is due to each of its entries, and the lists of its Asks.
#[derive(Drop)]
pub(crate) struct ShardReplay {
    pub shard: Shard,
    pub marks: Vec<Option<Due>>,
    pub lists: Lists,
}

// What was told by an answer; of a full journal nothing.
fn told_by(answer: &Answer) -> Option<Told>
    ensures { result ≡ told_in (given_by answer.now) }
{
    match answer {
        Answer::Replayed { last } => Some(Told::Replayed { last: *last }),
        Answer::Full { held } => Some(Told::Full { held: *held }),
        Answer::Hit { entry, .. } => Some(Told::Hit { entry: *entry }),
        Answer::Miss(_) => Some(Told::Miss),
        Answer::Kept => Some(Told::Kept),
        Answer::Dropped(cause) => Some(Told::Dropped(*cause)),
        Answer::Held { added } => Some(Told::Held { added: *added }),
        Answer::CommonsFull { held } => Some(Told::CommonsFull { held: *held }),
        Answer::Removed { count } => Some(Told::Removed { count: *count }),
        Answer::WithdrawnFull { held } => Some(Told::WithdrawnFull { held: *held }),
        Answer::JournalFull { .. } => None,
    }
}

// Why an event fails that is not what it has to be.
fn unmeant(event: &SpelledEvent) -> ReplayCause
    ensures { Unmeant (event_seen event.now) result }
{
    match event {
        SpelledEvent::Keep { .. } => ReplayCause::Keep,
        SpelledEvent::Ask(_)
        | SpelledEvent::Hold(_)
        | SpelledEvent::Discard(_)
        | SpelledEvent::Forget(_)
        | SpelledEvent::Expire(_)
        | SpelledEvent::Withdraw(_) => ReplayCause::Told,
    }
}

// Steps the shard by an event, and compares what it tells: the answer, or why the entry is not the
// one that the shard makes, after which the shard is of no use.
fn step_event(
    alloc: Global,
    shard: &mut Shard,
    event: Event,
    told: Told,
    cause: ReplayCause,
) -> Result<Result<Answer, ReplayCause>, AllocError>
    requires room { length shard.old.journal < shard.old.plan.limit }
    ensures plan { shard.new.plan ≡ shard.old.plan }
    // Of whatever entry that is spelled this is the event, and it would fail for the cause.
    ensures stepped { (e : SpelledValue) → FitsEntry e → e.told ≡ told
        → event_from shard.old.journal e.event ≡ Some (event_of event) → Unmeant e.event cause
        → IfOk result (StepsOrFails shard.old shard.new e) }
{
    if !shard.takes(&event) {
        return Ok(Err(cause));
    }
    let (_, answer) = shard.step(alloc, event)?;
    if told_by(&answer) == Some(told) {
        Ok(Ok(answer))
    } else {
        Ok(Err(ReplayCause::Told))
    }
}

// The same by an entry that is spelled.
fn step_by(
    alloc: Global,
    shard: &mut Shard,
    lists: &mut Lists,
    entry: SpelledEntry,
) -> Result<Result<Answer, ReplayCause>, AllocError>
    requires fits { FitsEntry (entry_seen entry) }
    ensures plan { shard.new.plan ≡ shard.old.plan }
    ensures stepped { IfOk result (StepsOrFails shard.old shard.new (entry_seen entry)) }
{
    if shard.journal().len() as u64 >= shard.plan().limit {
        return Ok(Err(ReplayCause::Limit));
    }
    let cause = unmeant(&entry.event);
    let told = entry.told;
    match next_event(alloc, lists, shard, entry.event)? {
        Some(event) => step_event(alloc, shard, event, told, cause),
        None => Ok(Err(cause)),
    }
}

impl ShardReplay {
    /// Steps by an entry that is spelled. None where it is the one that the shard makes; else why it
    /// is not, after which the shard is of no use.
    pub fn step<D: Decide>(
        &mut self,
        alloc: Global,
        bench: &mut D,
        entry: SpelledEntry,
    ) -> Result<Option<ReplayCause>, AllocError>
        requires fits { FitsEntry (entry_seen entry) }
        ensures plan { self.new.shard.plan ≡ self.old.shard.plan }
        ensures fails { IfOk result (λ c. IfSome c
            (ShardCause self.old.shard.plan self.old.shard.journal (entry_seen entry))) }
        ensures adds { IfOk result (λ c. IfNone c ((x : Entry) × (spelled x ≡ entry_seen entry)
            × (self.new.shard.journal ≡ self.old.shard.journal ++ x ∷ []))) }
        ensures sound { IfOk result (λ c. IfNone c (StaysSound self.old self.new)) }
    {
        match step_by(alloc, &mut self.shard, &mut self.lists, entry)? {
            Ok(answer) => {
                let mark = due_by(bench, &self.shard, &answer);
                self.marks.push(mark)?;
                Ok(None)
            }
            Err(cause) => Ok(Some(cause)),
        }
    }

    /// Steps by one entry more, unless an earlier one failed.
    pub fn go_on<D: Decide>(
        &mut self,
        alloc: Global,
        bench: &mut D,
        entry: SpelledEntry,
        fall: Option<Fall>,
    ) -> Result<Option<Fall>, AllocError>
        requires fits { FitsEntry (entry_seen entry) }
        ensures { IfOk result (λ now. (plans : List Plan) (number : ℕ) (before : List SpelledValue)
            → HasCome plans number before self.old fall
            → HasCome plans number (before ++ entry_seen entry ∷ []) self.new now) }
    {
        if fall.is_some() {
            return Ok(fall);
        }
        let place = self.shard.journal().len() as u64;
        match self.step(alloc, bench, entry)? {
            Some(cause) => Ok(Some(Fall { place, cause })),
            None => Ok(None),
        }
    }
}
