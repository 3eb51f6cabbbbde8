//! An ask: its step at the shard of its channel, and the decision outside of it.

ghost use Rattle.std.specs.Prelude.{◌≡◌, ◌<◌, length, IfOk, OnErr};
ghost use Rattle.proof_cache.specs.Cached.{cached};
ghost use Rattle.agent_core.specs.declared.asked.Settled.TheVariants.{NoNeed};
ghost use Rattle.agent_core.specs.Asked.{AskEnded, AskLacked, FitsAsk};
ghost use Rattle.agent_core.specs.Settling.{KeptAs, RefusesAsk, StepsAsk};
ghost use Rattle.agent_core.specs.Shards.{AtHome, IsMeantAt, LeavesShards, home_of};
ghost use Rattle.agent_core.specs.State.{Asks, Keeps};
ghost use Rattle.agent_core.specs.Steps.{StepRefused};
ghost use Rattle.agent_core.specs.Views.{ask_of};

mod grant;
mod settling;
mod verdict;

use crate::asked::{Asked, Settled, Verdict};
use crate::event::{Ask, Event};
use crate::gate::Gate;
use crate::shards::Shards;
use crate::told::Answer;
use crate::whole_ask::settling::{Settlement, settle};
pub use grant::proof_for;
use proof_cache::Cached;
use std::alloc::{AllocError, Global};
use std::sync::{Arc, Wait};
use taos_calculus::Decide;
pub use verdict::{Decision, granting_entry, judge};

// Steps the Ask at the shard of its channel: its place, and the answer.
fn step_at_home<W: Wait + Sync, S: Shards>(
    rt: &W,
    alloc: Global,
    shards: &mut S,
    asked: &Arc<Ask>,
) -> Result<(u64, Answer), AllocError>
    requires meant { IsMeantAt (S.shown shards.old)
        (home_of (S.shown shards.old) asked.now.value.channel) (Asks (ask_of asked.now.value)) }
    requires fits { FitsAsk (ask_of asked.now.value) }
    ensures there { home_of (S.shown shards.old) asked.now.value.channel
        < length (S.shown shards.old).plans }
    ensures steps { AtHome (S.shown shards.old) (S.shown shards.new) asked.now.value.channel
        (λ plan earlier later. IfOk result
        (λ r. StepsAsk plan earlier later (ask_of asked.now.value) r.0 r.1)) }
    ensures refused { AtHome (S.shown shards.old) (S.shown shards.new) asked.now.value.channel
        (λ plan earlier later. OnErr result (RefusesAsk plan earlier later)) }
    ensures rest { LeavesShards (S.shown shards.old) (S.shown shards.new)
        (home_of (S.shown shards.old) asked.now.value.channel) }
{
    shards.known();
    let number = asked.channel % shards.count();
    let event = Event::Ask(Arc::try_clone(asked)?);
    shards.step(rt, alloc, number, event)
}

// Keeps the proof of a grant at the shard of its channel, for the Ask that stands at the place.
fn keep_at_home<W: Wait + Sync, S: Shards>(
    rt: &W,
    alloc: Global,
    shards: &mut S,
    channel: u32,
    place: u64,
    entry: u8,
    proof: &Arc<Cached>,
) -> Result<Settled, AllocError>
    requires meant { IsMeantAt (S.shown shards.old) (home_of (S.shown shards.old) channel)
        (Keeps place entry (cached proof.now.value)) }
    ensures kept { AtHome (S.shown shards.old) (S.shown shards.new) channel
        (λ plan earlier later. IfOk result
        (KeptAs plan earlier later (Keeps place entry (cached proof.now.value)))) }
    ensures refused { AtHome (S.shown shards.old) (S.shown shards.new) channel
        (λ plan earlier later. OnErr result (StepRefused plan earlier later)) }
    ensures rest { LeavesShards (S.shown shards.old) (S.shown shards.new)
        (home_of (S.shown shards.old) channel) }
{
    shards.known();
    let number = channel % shards.count();
    let event = Event::Keep {
        ask: place,
        entry,
        cached: Arc::try_clone(proof)?,
    };
    let (_, answer) = shards.step(rt, alloc, number, event)?;
    match answer {
        Answer::Kept => Ok(Settled::Kept),
        Answer::Dropped(cause) => Ok(Settled::Dropped(cause)),
        Answer::JournalFull { length } => Ok(Settled::NoRoom { length }),
        // A Keep is told none of these.
        Answer::Replayed { .. }
        | Answer::Full { .. }
        | Answer::Hit { .. }
        | Answer::Miss(_)
        | Answer::Held { .. }
        | Answer::CommonsFull { .. }
        | Answer::Removed { .. }
        | Answer::WithdrawnFull { .. } => unreachable!(),
    }
}

// How an ask ended for which no proof was made.
fn ended(place: u64, verdict: Verdict, kept: bool) -> Asked
    ensures { result ≡ record { place = place; verdict = verdict; kept = kept; settled = NoNeed } }
{
    Asked {
        place,
        verdict,
        kept,
        settled: Settled::NoNeed,
    }
}

/// Asks at the shard of the channel, and says how that ended: granted by a proof that was kept, or
/// the verdict on what the shard handed out, or what it told at once. The proof of a grant is kept
/// by a step of its own; the gate is passed before.
pub fn ask<W: Wait + Sync, S: Shards, D: Decide, G: Gate>(
    rt: &W,
    alloc: Global,
    shards: &mut S,
    bench: &mut D,
    gate: &mut G,
    asked: Arc<Ask>,
) -> Result<Asked, AllocError>
    requires meant { IsMeantAt (S.shown shards.old)
        (home_of (S.shown shards.old) asked.value.channel) (Asks (ask_of asked.value)) }
    requires fits { FitsAsk (ask_of asked.value) }
    ensures asked { AtHome (S.shown shards.old) (S.shown shards.new) asked.value.channel
        (λ plan earlier later. IfOk result (AskEnded plan earlier later (ask_of asked.value))) }

    // Where memory was refused: before the Ask stood, or at a grant.
    ensures unanswered { AtHome (S.shown shards.old) (S.shown shards.new) asked.value.channel
        (λ plan earlier later. OnErr result (AskLacked plan earlier later (ask_of asked.value))) }

    ensures rest { LeavesShards (S.shown shards.old) (S.shown shards.new)
        (home_of (S.shown shards.old) asked.value.channel) }
{
    let (place, answer) = step_at_home(rt, alloc, shards, &asked)?;
    match answer {
        Answer::Miss(snapshot) => {
            match settle(alloc, shards.anchors(), bench, gate, &snapshot, &asked)? {
                Settlement::Granted { entry, cached } => {
                    let channel = asked.channel;
                    let settled = keep_at_home(rt, alloc, shards, channel, place, entry, &cached)?;
                    Ok(Asked {
                        place,
                        verdict: Verdict::Granted { entry, cached },
                        kept: false,
                        settled,
                    })
                }
                Settlement::Denied(denial) => Ok(ended(place, Verdict::Denied(denial), false)),
            }
        }
        Answer::Replayed { last } => Ok(ended(place, Verdict::Replayed { last }, false)),
        Answer::Full { held } => Ok(ended(place, Verdict::Full { held }, false)),
        Answer::JournalFull { length } => Ok(ended(place, Verdict::JournalFull { length }, false)),
        Answer::Hit { entry, cached } => Ok(ended(place, Verdict::Granted { entry, cached }, true)),
        // An Ask is told none of these.
        Answer::Kept
        | Answer::Dropped(_)
        | Answer::Held { .. }
        | Answer::CommonsFull { .. }
        | Answer::Removed { .. }
        | Answer::WithdrawnFull { .. } => unreachable!(),
    }
}
