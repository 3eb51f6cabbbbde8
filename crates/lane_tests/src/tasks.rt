//! What a thread does at seats.

ghost use Rattle.std.specs.Prelude.{◌≡◌, ◌≤◌, IfOk, None, length};
ghost use Rattle.prin_term.specs.View.{principal};
ghost use Rattle.agent_core.specs.Answers.{FitsEvent};
ghost use Rattle.agent_core.specs.Asked.{FitsAsk};
ghost use Rattle.agent_core.specs.Journals.{IsOn};
ghost use Rattle.agent_core.specs.Views.{ask_of, event_of};
ghost use Rattle.lane_tests.specs.Seats.{HasChannel, IsAlwaysMeant};

use crate::large::large_certs;
use crate::meeting::{Meeting, When};
use crate::opening::hand_off;
use agent_core::{Ask, Event, Gate, Settled, Shards, Verdict, ask};
use goal_search::Workbench;
use object_core::Shelf;
use prin_term::{Entry, Term};
use std::alloc::{AllocError, Global};
use std::sync::{Arc, Wait};
use stmt_codec::Cert;

#[derive(Clone, Copy)]
pub(crate) enum Task {
    /// Expires, so often.
    Expire(u64),
    /// Asks by this number on the channel; presents the hand-off by which it is granted, or nothing.
    Ask { seq: u64, presents: bool },
    /// Lets the hand-off go.
    Discard,
    /// Takes the object of the number, and gives it back.
    Take(u32),
    /// Presents the large certificates of each number from one on, so many, by an ask each.
    Present { first: u64, count: u64 },
}

/// A task, and when its thread meets the other.
#[derive(Clone, Copy)]
pub(crate) struct Job {
    pub(crate) when: When,
    pub(crate) task: Task,
}

/// What was done.
#[derive(Drop)]
pub(crate) enum Deed {
    /// The places of the entries.
    Stepped(Vec<u64>),
    /// The place of the ask, whether it was granted, and what became of its proof.
    Asked(u64, bool, Settled),
    /// The number of the object that was taken.
    Took(Option<u32>),
    /// How many asks were answered before memory was refused to one.
    Answered(u64),
}

/// What came of a task.
#[derive(Drop)]
pub(crate) struct Report {
    pub(crate) met: bool,
    pub(crate) deed: Deed,
}

// The place of the entry of an event that is always meant.
fn step_first<W: Wait + Sync, S: Shards>(
    rt: &W,
    alloc: Global,
    shards: &mut S,
    event: Event,
) -> Result<u64, AllocError>
    requires meant { IsAlwaysMeant (event_of event) }
    requires fits { FitsEvent (event_of event) }
    ensures { (S.shown shards.new).plans ≡ (S.shown shards.old).plans }
{
    shards.known();
    let (place, _) = shards.step(rt, alloc, 0, event)?;
    Ok(place)
}

fn expire<W: Wait + Sync, S: Shards>(
    rt: &W,
    alloc: Global,
    shards: &mut S,
    times: u64,
) -> Result<Vec<u64>, AllocError> {
    let mut places = Vec::new(alloc);
    for _ in 0..times {
        places.push(step_first(rt, alloc, shards, Event::Expire(1))?)?;
    }
    Ok(places)
}

// The hand-off, or nothing.
fn presented(alloc: Global, presents: bool) -> Result<Vec<Arc<Cert>>, AllocError>
    ensures { IfOk result (λ v. length v.items ≤ 1) }
{
    if !presents {
        return Ok(Vec::new(alloc));
    }
    Ok(vec![in alloc; hand_off(alloc)?]?)
}

// That key 2 asks to read what name 10 may read.
fn asked(alloc: Global, seq: u64, presented: Vec<Arc<Cert>>) -> Result<Arc<Ask>, AllocError>
    requires { length presented.items ≤ 16 }
    ensures channel { IfOk result (λ a. a.value.channel ≡ 2) }
    ensures subject { IfOk result (λ a. IsOn 2 (principal a.value.subject)) }
    ensures fits { IfOk result (λ a. FitsAsk (ask_of a.value)) }
{
    let entry = Entry {
        rights: 1,
        who: Term::Name(10),
    };
    let made = Ask {
        channel: 2,
        seq,
        reading: 1000,
        subject: Term::Key(2),
        list: Arc::new(alloc, vec![in alloc; entry]?)?,
        right: 1,
        presented,
    };
    Ok(Arc::new(alloc, made)?)
}

// The ask's place, whether it was granted, and what became of its proof.
fn ask_once<W: Wait + Sync, S: Shards>(
    rt: &W,
    alloc: Global,
    shards: &mut S,
    bench: &mut Workbench,
    meeting: &mut Meeting<'_>,
    asked: Arc<Ask>,
) -> Result<Deed, AllocError>
    requires planned { HasChannel (S.shown shards.old).plans asked.value.channel }
    requires on { IsOn asked.value.channel (principal asked.value.subject) }
    requires fits { FitsAsk (ask_of asked.value) }
    ensures { (S.shown shards.new).plans ≡ (S.shown shards.old).plans }
{
    let ended = ask(rt, alloc, shards, bench, meeting, asked)?;
    let is_granted = match ended.verdict {
        Verdict::Granted { .. } => true,
        _ => false,
    };
    Ok(Deed::Asked(ended.place, is_granted, ended.settled))
}

// Asks that present large certificates, until memory is refused to one.
fn present<W: Wait + Sync, S: Shards>(
    rt: &W,
    alloc: Global,
    shards: &mut S,
    meeting: &mut Meeting<'_>,
    first: u64,
    count: u64,
) -> Result<Deed, AllocError>
    requires { HasChannel (S.shown shards.old).plans 2 }
{
    let mut bench = Workbench::reserve(alloc)?;
    for more in 0..count {
        let number = first.wrapping_add(more);
        let made = asked(alloc, number, large_certs(alloc, number)?)?;
        if ask_once(rt, alloc, shards, &mut bench, meeting, made).is_err() {
            return Ok(Deed::Answered(more));
        }
    }
    Ok(Deed::Answered(count))
}

// Takes the object of the number, if there is one, and gives it back after the meeting.
fn take<W: Wait + Sync, H: Shelf>(
    rt: &W,
    shelf: &mut H,
    number: u32,
    meeting: &mut Meeting<'_>,
) -> Option<u32>
    requires { (H.shown shelf.old).taken ≡ None }
    ensures { (H.shown shelf.new).taken ≡ None }
{
    let object = shelf.take(rt, number)?;
    let taken = object.number();
    meeting.between();
    shelf.give(object);
    Some(taken)
}

fn do_task<W: Wait + Sync, S: Shards, H: Shelf>(
    rt: &W,
    alloc: Global,
    shards: &mut S,
    shelf: &mut H,
    task: Task,
    meeting: &mut Meeting<'_>,
) -> Result<Deed, AllocError>
    requires planned { HasChannel (S.shown shards.old).plans 2 }
    requires none_taken { (H.shown shelf.old).taken ≡ None }
    ensures { (H.shown shelf.new).taken ≡ None }
{
    match task {
        Task::Expire(times) => Ok(Deed::Stepped(expire(rt, alloc, shards, times)?)),
        Task::Ask { seq, presents } => {
            let made = asked(alloc, seq, presented(alloc, presents)?)?;
            let mut bench = Workbench::reserve(alloc)?;
            ask_once(rt, alloc, shards, &mut bench, meeting, made)
        }
        Task::Discard => {
            let digest = hand_off(alloc)?.digest;
            let place = step_first(rt, alloc, shards, Event::Discard(digest))?;
            Ok(Deed::Stepped(vec![in alloc; place]?))
        }
        Task::Take(number) => Ok(Deed::Took(take(rt, shelf, number, meeting))),
        Task::Present { first, count } => { present(rt, alloc, shards, meeting, first, count) }
    }
}

/// Does the task, and meets the other thread.
pub(crate) fn work<W: Wait + Sync, S: Shards, H: Shelf>(
    rt: &W,
    alloc: Global,
    shards: &mut S,
    shelf: &mut H,
    task: Task,
    meeting: Meeting<'_>,
) -> Result<Report, AllocError>
    requires planned { HasChannel (S.shown shards.old).plans 2 }
    requires none_taken { (H.shown shelf.old).taken ≡ None }
    ensures { (H.shown shelf.new).taken ≡ None }
{
    let mut meeting = meeting;
    meeting.begin();
    let deed = do_task(rt, alloc, shards, shelf, task, &mut meeting)?;
    meeting.end();
    Ok(Report {
        met: meeting.met,
        deed,
    })
}
