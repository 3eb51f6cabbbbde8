//! What all lanes of a command stand on, from before they are served until they have ended.

ghost use Rattle.std.specs.Prelude.{◌<◌, ◌≤◌, length, vec_len, IfOk};

use crate::doors::{Switch, doors_of, end_edge, idle_of};
use crate::own::Own;
use crate::setting::{Setting, serves_doors};
use crate::starting::{Begun, tell_end, tell_start};
use crate::telling::{Told, end_telling, told_of};
use node_telling::{Listener, Rounds, Stop, stop_at_end};
use std::alloc::Global;
use std::io;
use std::sync::Arc;
use std::thread::Threads;
use system_io::{ClockGuard, Common, Doorway, Patient, bind_all, rounds_of, tell_addresses};

/// What stays beside the lanes while they are served: what all of them have, and what looks on.
#[derive(Drop)]
pub struct Standing {
    listeners: Vec<Option<Listener>>,
    stop: Arc<Stop, Global>,
    guard: Arc<ClockGuard, Global>,
    first_rounds: Arc<Rounds, Global>,
    told: Told,
    edge: Option<Switch>,
}

/// What lanes stand on.
#[derive(Drop)]
pub struct Ground {
    /// What stands behind the door of each lane.
    pub doorways: Vec<Doorway>,
    pub standing: Standing,
}

// Lets the end of standard input stop the doors, and tells the addresses, where that is wanted.
fn tell_and_stop<W: Threads>(
    rt: &HostRuntime,
    workers: &W,
    own: &Own<'_>,
    setting: &Setting<'_>,
    stop: &Arc<Stop, Global>,
    listeners: &[Option<Listener>],
) -> io::Result<()> {
    if own.stops_at_end && serves_doors(setting.wanted) {
        let input = Patient::new(rt.stdin(), *rt);
        stop_at_end(workers, rt.alloc(), input, stop, listeners)?;
    }
    if own.tells_addresses {
        tell_addresses(&mut rt.stderr(), listeners);
    }
    Ok(())
}

/// Listens, tells the addresses, and lets the end of standard input stop the doors, where that is wanted.
pub fn begin<W: Threads>(
    rt: &HostRuntime,
    workers: &W,
    own: &Own<'_>,
    setting: &Setting<'_>,
) -> io::Result<Ground>
    requires few { length setting.now.addresses.now ≤ 16 }
    ensures some { IfOk result (λ ground. 0 < vec_len ground.doorways) }
    ensures few { IfOk result (λ ground. vec_len ground.doorways ≤ 16) }
{
    let alloc = rt.alloc();
    let listeners = bind_all(rt, alloc, setting.addresses, &mut rt.stderr())?;
    let stop = Arc::new(alloc, Stop::new())?;
    let told = told_of(rt, workers, own, setting, &stop, &listeners)?;
    let (doorways, edge) = doors_of(rt, workers, own, setting, &told.tellers, &listeners)?;
    tell_and_stop(rt, workers, own, setting, &stop, &listeners)?;
    // Where there is a switch it ends in order, and the lanes' streams by it.
    let stop = match &edge {
        Some(_) => Arc::new(alloc, Stop::new())?,
        None => stop,
    };
    let rounds = rounds_of(rt, alloc, own.status.is_some(), own.watches());
    let standing = Standing {
        listeners,
        stop,
        guard: Arc::new(alloc, ClockGuard::new())?,
        first_rounds: Arc::new(alloc, rounds)?,
        told,
        edge,
    };
    Ok(Ground { doorways, standing })
}

impl Standing {
    /// What all lanes have.
    pub fn common<'a>(&'a self, own: &Own<'_>, setting: &Setting<'a>) -> Common<'a> {
        Common {
            idle: idle_of(own.idle, own.clients),
            stop: &self.stop,
            guard: &self.guard,
            relay: setting.relay,
            wallet: setting.wallet,
            tellers: &self.told.tellers,
            is_timed: own.status.is_some(),
            keeps_requests: own.watches(),
            first_rounds: &self.first_rounds,
        }
    }

    /// Tells that the lanes begin to serve, where that is wanted.
    pub fn tell_start(&self, rt: &HostRuntime, own: &Own<'_>, setting: &Setting<'_>) {
        tell_start(
            rt,
            own,
            setting,
            Begun::of(&self.listeners, &self.told, &self.edge),
        );
    }

    /// Tells that a ruling could not be recorded, where that was not told yet.
    pub fn tell_losses(&self, rt: &HostRuntime) {
        self.told.tell_losses(rt);
    }

    /// Whether the program was stopped since a ruling could not be recorded.
    pub fn has_stopped(&self) -> bool {
        self.told.has_stopped()
    }

    /// Lets all that looks on end, once the lanes have ended, and tells how they have served.
    pub fn end<W: Threads>(self, rt: &HostRuntime, workers: &W, own: &Own<'_>, status: u8) {
        let Standing {
            listeners,
            told,
            edge,
            ..
        } = self;
        end_edge(edge, workers, &listeners);
        end_telling(told, workers, rt);
        tell_end(rt, own, status);
    }
}
