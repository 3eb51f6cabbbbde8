//! Two threads with seats of their own, and one that takes all seats after them.

ghost use Rattle.std.specs.Prelude.{◌≡◌, IfOk};
ghost use Rattle.agent_shards.specs.Cells.{shares_of};
ghost use Rattle.agent_shards.specs.Shards.{plans_of};
ghost use Rattle.lane_tests.specs.Seats.{AreAt, HasChannel, HaveAllShares, HaveSharesOf};

use crate::meeting::{Flags, Meeting, When};
use crate::opening::{one_shard, two_objects};
use crate::tasks::{Job, Report, Task, work};
use agent_shards::{Agent, OfAgent, OfRack, Passes, Rack, RackPasses};
use object_core::Object;
use shard_core::Shard;
use std::alloc::{AllocError, Global};
use std::marker::Brand;
use std::sync::Wait;
use std::test::Fail;
use std::thread::{Threads, join};

// The cells that the threads share.
#[derive(Drop)]
struct Node {
    agent: Agent,
    rack: Rack,
}

// What a thread sits down with.
#[derive(Drop)]
struct Seat {
    passes: Passes,
    objects: RackPasses,
}

// What came of a task, if anything did, and the seat that was given back.
type Done = (Option<Report>, Seat);

/// What came of the three tasks, and what stood in the cells.
#[derive(Drop)]
pub(crate) struct Ended {
    pub(crate) first: Option<Report>,
    pub(crate) second: Option<Report>,
    pub(crate) last: Option<Report>,
    pub(crate) shards: Vec<Shard>,
    pub(crate) objects: Vec<Object>,
}

fn work_seated<A: OfAgent, B: OfRack, W: Wait + Sync>(
    rt: &W,
    alloc: Global,
    node: &Node,
    seat: Seat,
    task: Task,
    meeting: Meeting<'_>,
) -> Done
    requires at { AreAt node.now.agent node.now.rack seat.passes seat.objects }
    requires cells { (node.now.agent ≡ A.cells) × (node.now.rack ≡ B.cells) }
    requires shares { (shares_of seat.passes ≡ A.shares) × (shares_of seat.objects ≡ B.shares) }
    requires planned { HasChannel (plans_of node.now.agent) 2 }
    ensures at { AreAt node.now.agent node.now.rack result.1.passes result.1.objects }
    ensures shares { HaveSharesOf result.1.passes seat.passes result.1.objects seat.objects }
{
    let Seat { passes, objects } = seat;
    let mut shards = node.agent.sit::<A>(passes);
    let mut shelf = node.rack.sit::<B>(objects);
    let report = work(rt, alloc, &mut shards, &mut shelf, task, meeting).ok();
    let seat = Seat {
        passes: shards.rise(),
        objects: shelf.rise(),
    };
    (report, seat)
}

// Sits down, does the task, and rises.
fn work_at_seat<W: Wait + Sync>(
    rt: &W,
    alloc: Global,
    node: &Node,
    seat: Seat,
    task: Task,
    meeting: Meeting<'_>,
) -> Done
    requires at { AreAt node.now.agent node.now.rack seat.passes seat.objects }
    requires planned { HasChannel (plans_of node.now.agent) 2 }
    ensures at { AreAt node.now.agent node.now.rack result.1.passes result.1.objects }
    ensures shares { HaveSharesOf result.1.passes seat.passes result.1.objects seat.objects }
{
    work_seated::<Brand, Brand, W>(rt, alloc, node, seat, task, meeting)
}

// Two threads do a job each.
fn work_by_two<R: Threads + Wait + Sync>(
    rt: &R,
    alloc: Global,
    node: &Node,
    flags: &Flags,
    first: (Seat, Job),
    second: (Seat, Job),
) -> (Done, Done)
    requires first { AreAt node.now.agent node.now.rack first.0.passes first.0.objects }
    requires second { AreAt node.now.agent node.now.rack second.0.passes second.0.objects }
    requires planned { HasChannel (plans_of node.now.agent) 2 }
    ensures first { AreAt node.now.agent node.now.rack result.0.1.passes result.0.1.objects }
    ensures second { AreAt node.now.agent node.now.rack result.1.1.passes result.1.1.objects }
    ensures first_shares { HaveSharesOf result.0.1.passes first.0.passes
        result.0.1.objects first.0.objects }
    ensures second_shares { HaveSharesOf result.1.1.passes second.0.passes
        result.1.1.objects second.0.objects }
{
    let (mine, job) = first;
    let (lent, next) = second;
    join(
        rt,
        move || -> Done
            requires at { AreAt node.now.agent node.now.rack mine.passes mine.objects }
            requires planned { HasChannel (plans_of node.now.agent) 2 }
            ensures at { AreAt node.entry.now.agent node.entry.now.rack result.1.passes
                result.1.objects }
            ensures shares { HaveSharesOf result.1.passes mine.passes
                result.1.objects mine.objects }
        { work_at_seat(rt, alloc, node, mine, job.task, flags.of_first(job.when)) },
        move || -> Done
            requires at { AreAt node.now.agent node.now.rack lent.passes lent.objects }
            requires planned { HasChannel (plans_of node.now.agent) 2 }
            ensures at { AreAt node.entry.now.agent node.entry.now.rack result.1.passes
                result.1.objects }
            ensures shares { HaveSharesOf result.1.passes lent.passes
                result.1.objects lent.objects }
        { work_at_seat(rt, alloc, node, lent, next.task, flags.of_second(next.when)) },
    )
}

// Two threads do a job each, with seats that are divided before and joined after.
fn share_out<R: Threads + Wait + Sync>(
    rt: &R,
    alloc: Global,
    node: &Node,
    whole: Seat,
    first: Job,
    second: Job,
) -> Result<(Option<Report>, Option<Report>, Seat), AllocError>
    requires at { AreAt node.now.agent node.now.rack whole.passes whole.objects }
    requires all { HaveAllShares whole.passes whole.objects }
    requires planned { HasChannel (plans_of node.now.agent) 2 }
    ensures at { IfOk result
        (λ r. AreAt node.now.agent node.now.rack r.2.passes r.2.objects) }
    ensures all { IfOk result (λ r. HaveAllShares r.2.passes r.2.objects) }
{
    let Seat {
        mut passes,
        mut objects,
    } = whole;
    let part = node.agent.seat(alloc, &mut passes, 1)?;
    let lent = node.rack.seat(alloc, &mut objects, 1)?;
    let given = Seat {
        passes: part,
        objects: lent,
    };
    let kept = Seat { passes, objects };
    let flags = Flags::new();
    let (mine, yours) = ((kept, first), (given, second));
    let (done, done_too) = work_by_two(rt, alloc, node, &flags, mine, yours);
    let (first, mut whole) = done;
    let (second, given) = done_too;
    node.agent.unseat(&mut whole.passes, given.passes);
    node.rack.unseat(&mut whole.objects, given.objects);
    Ok((first, second, whole))
}

fn open_node(alloc: Global) -> Result<(Node, Seat), Fail>
    ensures at { IfOk result (λ r. AreAt r.0.agent r.0.rack r.1.passes r.1.objects) }
    ensures all { IfOk result (λ r. HaveAllShares r.1.passes r.1.objects) }
    ensures planned { IfOk result (λ r. HasChannel (plans_of r.0.agent) 2) }
{
    let (shards, anchors) = one_shard(alloc)?;
    let (agent, passes) = Agent::new(alloc, shards, anchors)?;
    let (rack, objects) = Rack::new(alloc, two_objects(alloc)?)?;
    Ok((Node { agent, rack }, Seat { passes, objects }))
}

/// Two threads do the first two jobs at the same time. Then one does the last task, with all seats,
/// and the cells are closed.
pub(crate) fn run<R: Threads + Wait + Sync>(
    rt: &R,
    alloc: Global,
    first: Job,
    second: Job,
    last: Task,
) -> Result<Ended, Fail> {
    let (node, whole) = open_node(alloc)?;
    let (first, second, whole) = share_out(rt, alloc, &node, whole, first, second)?;
    let flags = Flags::new();
    let alone = flags.of_first(When::Never);
    let (last, whole) = work_at_seat(rt, alloc, &node, whole, last, alone);
    let Node { agent, rack } = node;
    Ok(Ended {
        first,
        second,
        last,
        shards: agent.close(whole.passes),
        objects: rack.close(whole.objects),
    })
}
