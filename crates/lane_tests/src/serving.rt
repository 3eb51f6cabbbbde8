use crate::node::{frame_of, parts, read_by};
use crate::pacing::{Awaiting, Count, Paced};
use cred_pull::MemFetch;
use frame_link::{Limits, MemClock, MemDoor, MemSink, MemSource, NoRelay};
use keyed_seal::KeyTable;
use relay_core::RelayTable;
use std::alloc::{AllocError, Global};
use std::sync::atomic::AtomicU64;
use std::sync::{Arc, Wait};
use std::test::Fail;
use std::thread::Threads;
use taos_lanes::{Lane, serve, serve_relays};

type Paces = Lane<MemClock, NoRelay, MemDoor<Paced, MemSink>, MemFetch>;

const LIMITS: Limits = Limits {
    connections: 1,
    frames: 10,
};

fn count(alloc: Global) -> Result<Count, AllocError> {
    Ok(Arc::new(alloc, AtomicU64::new(0))?)
}

// A lane of one connection, which gives these frames.
fn lane(alloc: Global, later: Vec<Awaiting>, own: &Count, other: &Count) -> Result<Paces, Fail> {
    let nothing = MemSource::new(Vec::new(alloc), Vec::new(alloc), Vec::new(alloc));
    let input = Paced::new(nothing, later, Arc::try_clone(own)?, Arc::try_clone(other)?);
    let output = MemSink::new(alloc, 1000, Vec::new(alloc))?;
    let door = MemDoor::new(alloc, vec![in alloc; (input, output)]?, Vec::new(alloc))?;
    let clock = MemClock::new(vec![in alloc; 1000]?, Vec::new(alloc));
    let fetch = MemFetch::new(Vec::new(alloc), Vec::new(alloc));
    Ok(Lane::of(clock, NoRelay::new(), door, fetch))
}

// How many bytes were written to the lane's connection.
fn written(lane: &Paces) -> usize {
    match lane.door.kept() {
        [(_, output)] => output.written().len(),
        _ => 0,
    }
}

// Each lane's second request comes once the other has answered its first. A node that serves one
// lane after the other answers half of them. Where it pulls, no certificate is given to it. Gives how
// many connections were served and broken, and how many operations the object told.
fn told_by_two<W: Threads + Wait + Sync>(
    rt: &W,
    alloc: Global,
    pulls: bool,
) -> Result<(u128, u128, usize), Fail> {
    let (one, two) = (count(alloc)?, count(alloc)?);
    let mine = vec![in alloc; (1, read_by(alloc, 2, 2)?), (0, read_by(alloc, 2, 1)?)]?;
    let yours = vec![in alloc; (2, read_by(alloc, 3, 2)?), (1, read_by(alloc, 3, 1)?)]?;
    let mut lanes = [
        lane(alloc, mine, &one, &two)?,
        lane(alloc, yours, &two, &one)?,
    ];
    let served = serve(rt, alloc, parts(alloc)?, &mut lanes, LIMITS, 64, pulls)?;
    let [object] = served.objects.as_slice() else {
        return Err(Fail::new("not one object"));
    };
    Ok((
        served.total.served,
        served.total.broken,
        object.journal().len(),
    ))
}

#[test]
fn lanes_of_a_node_wait_for_each_other(rt: HostRuntime) -> Result<(), Fail> {
    assert_eq!(rt; told_by_two(&rt, rt.alloc(), false)?, (2, 0, 4));
    Ok(())
}

#[test]
fn lanes_that_pull_wait_for_each_other(rt: HostRuntime) -> Result<(), Fail> {
    assert_eq!(rt; told_by_two(&rt, rt.alloc(), true)?, (2, 0, 4));
    Ok(())
}

// The same of a relay's lanes, whose frames are no questions.
#[test]
fn lanes_of_a_relay_wait_for_each_other(rt: HostRuntime) -> Result<(), Fail> {
    let alloc = rt.alloc();
    let (one, two) = (count(alloc)?, count(alloc)?);
    let mine = vec![in alloc; (1, frame_of(alloc, &[9])?), (0, frame_of(alloc, &[9])?)]?;
    let yours = vec![in alloc; (2, frame_of(alloc, &[9])?), (1, frame_of(alloc, &[9])?)]?;
    let mut lanes = [
        lane(alloc, mine, &one, &two)?,
        lane(alloc, yours, &two, &one)?,
    ];
    let table = RelayTable {
        issuers: KeyTable::new(alloc, 0)?,
        nodes: KeyTable::new(alloc, 0)?,
    };
    let total = serve_relays(&rt, alloc, &table, &mut lanes, LIMITS);
    assert_eq!(rt; (total.served, total.broken), (2, 0));
    assert_eq!(rt; (written(&lanes[0]), written(&lanes[1])), (12, 12));
    Ok(())
}
