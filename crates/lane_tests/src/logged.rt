//! Objects and shards that write into one log what is done to them.

ghost use Rattle.object_core.specs.OneOwner.{shelf_seen};
ghost use Rattle.shard_core.specs.Alone.{shards_seen};

use agent_core::{Answer, Event, Shards};
use object_core::{LoneShelf, Object, Shelf};
use prin_term::Anchor;
use shard_core::Lone;
use std::alloc::{AllocError, Global};
use std::sync::Wait;
use std::sync::atomic::{AtomicU64, Ordering};

/// What the log has of an ask, of an object that is given back, and of a sweep.
pub(crate) const ASKED: u64 = 1;

pub(crate) const GAVE: u64 = 2;

pub(crate) const SWEPT: u64 = 3;

// The log's last digit is what was done last.
fn note(log: &AtomicU64, deed: u64) {
    let before = log.load(Ordering::SeqCst);
    log.store(before.wrapping_mul(10).wrapping_add(deed), Ordering::SeqCst);
}

/// Objects of one owner.
#[derive(Drop)]
pub(crate) struct LoggedShelf<'l> {
    pub(crate) shelf: LoneShelf,
    pub(crate) log: &'l AtomicU64,
}

impl Shelf for LoggedShelf<'_> {
    ghost shown = { λ s. shelf_seen s.shelf };

    fn known(&self) {
        self.shelf.known();
    }

    fn has(&self, number: u32) -> bool {
        self.shelf.has(number)
    }

    fn take<W: Wait + Sync>(&mut self, rt: &W, number: u32) -> Option<Object> {
        self.shelf.take(rt, number)
    }

    fn give(&mut self, object: Object) {
        note(self.log, GAVE);
        self.shelf.give(object)
    }
}

/// Shards of one owner.
#[derive(Drop)]
pub(crate) struct LoggedShards<'l> {
    pub(crate) shards: Lone,
    pub(crate) log: &'l AtomicU64,
}

impl Shards for LoggedShards<'_> {
    ghost shown = { λ s. shards_seen s.shards };

    fn known(&self) {
        self.shards.known();
    }

    fn count(&self) -> u32 {
        self.shards.count()
    }

    fn anchors(&self) -> &[Anchor] {
        self.shards.anchors()
    }

    fn step<W: Wait + Sync>(
        &mut self,
        rt: &W,
        alloc: Global,
        number: u32,
        event: Event,
    ) -> Result<(u64, Answer), AllocError> {
        match &event {
            Event::Ask(_) => note(self.log, ASKED),
            Event::Expire(_) => note(self.log, SWEPT),
            Event::Keep { .. }
            | Event::Hold(_)
            | Event::Discard(_)
            | Event::Forget(_)
            | Event::Withdraw(_) => (),
        }
        self.shards.step(rt, alloc, number, event)
    }
}
