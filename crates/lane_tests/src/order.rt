ghost use Rattle.std.specs.Prelude.{◌≡◌, IfOk, None};
ghost use Rattle.object_core.specs.OneOwner.{taken_from};

use crate::logged::{ASKED, GAVE, LoggedShards, LoggedShelf, SWEPT};
use crate::node::{KEY, keys_of};
use agent_core::FreeGate;
use frame_link::{MemClock, NoRelay};
use goal_search::Workbench;
use object_core::{LoneShelf, Object, Op};
use prin_term::{Entry, Term};
use shard_core::{Lone, open_shards};
use std::alloc::Global;
use std::sync::Arc;
use std::sync::atomic::{AtomicU64, Ordering};
use std::test::Fail;
use taos_lanes::keys_fit;
use taos_monitor::{MAX_REQUEST, ReplyBuf, answer};
use taos_wire::{Request, write_request};

// Object 5, which channel 2 may manage.
fn managed(alloc: Global) -> Result<LoneShelf, Fail>
    ensures { IfOk result (λ shelf. taken_from shelf ≡ None) }
{
    let manager = Entry {
        rights: 8,
        who: Term::Key(2),
    };
    let list = Arc::new(alloc, vec![in alloc; manager]?)?;
    let object = Object::new(alloc, 5, &[], list, 10)?;
    Ok(LoneShelf::new(alloc, vec![in alloc; object]?)?)
}

// A sweep of all shards, by channel 2.
fn sweep(alloc: Global) -> Result<Vec<u8>, Fail> {
    let mut payload = Vec::new(alloc);
    let asked = Request {
        channel: 2,
        seq: 1,
        quoted: None,
        object: 5,
        op: Arc::new(alloc, Op::Sweep)?,
        certs: Vec::new(alloc),
    };
    write_request(&mut payload, &KEY, &asked)?;
    Ok(payload)
}

// The object has the ruling before any shard does what was granted.
#[test]
fn a_granted_sweep_is_performed_after_its_ruling_stands(rt: HostRuntime) -> Result<(), Fail> {
    let alloc = rt.alloc();
    let log = AtomicU64::new(0);
    let keys = keys_of(alloc)?;
    let anchors = Arc::new(alloc, Vec::new(alloc))?;
    let opened = open_shards(alloc, &[2, 3], 2, &anchors, &[], 3600, 1000)?;
    let lone = Lone::new(opened, anchors);
    let payload = sweep(alloc)?;
    if !keys_fit(&keys, &lone) || payload.len() > MAX_REQUEST as usize {
        return Err(Fail::new("no channel"));
    }
    let mut shards = LoggedShards {
        shards: lone,
        log: &log,
    };
    let mut shelf = LoggedShelf {
        shelf: managed(alloc)?,
        log: &log,
    };
    let mut relay = NoRelay::new();
    let mut clock = MemClock::new(vec![in alloc; 1000]?, Vec::new(alloc));
    let mut bench = Workbench::reserve(alloc)?;
    let mut out = ReplyBuf::new(alloc)?;
    answer(
        &rt,
        alloc,
        &keys,
        &mut shelf,
        &mut shards,
        &mut relay,
        &mut clock,
        &mut bench,
        &mut FreeGate,
        &payload,
        &mut out,
    );
    let done = log.load(Ordering::SeqCst);
    assert_eq!(rt; done, ((ASKED * 10 + GAVE) * 10 + SWEPT) * 10 + SWEPT);
    Ok(())
}
