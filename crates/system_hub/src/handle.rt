//! How the switch is begun, and how it ends.

ghost use Rattle.std.specs.Prelude.{◌≡◌, ◌≤◌, ◌<◌, length, vec_len, vec_capacity, IfOk};
ghost use Rattle.system_hub.specs.declared.machine.limits.TheConstants.{MAX_CLIENTS, MAX_LANES};
ghost use Rattle.frame_link.specs.declared.service.TheConstants.{MAX_PAYLOAD};

use crate::accepting::Entrance;
use crate::hall::Hall;
use crate::lane_end::LaneEnd;
use crate::limits::{EVENTS, PIECE};
use crate::machine::hub::Hub;
use crate::machine::limits::{MAX_CLIENTS, MAX_LANES};
use crate::patience::Patience;
use crate::port::Port;
use crate::switch::{Room, Switch};
use crate::tokens::{Socket, token_of};
use crate::watch::Watch;
use frame_link::MAX_PAYLOAD;
use mio::{Events, Interest, Poll};
use std::alloc::{AllocError, Global};
use std::io::ErrorKind;
use std::net::{Net, TcpListener, TcpStream};
use std::thread::{JoinHandle, Threads};
use std::time::{Clock, Instant};
use std::{io, thread};

/// What is asked of a switch.
#[derive(Clone, Copy, PartialEq, Eq)]
pub struct Edge {
    /// How many clients it has at a time.
    pub clients: u32,
    /// At which place of its first payload a client's lane is told.
    pub place: usize,
    pub patience: Patience,
}

/// A switch that runs.
#[derive(Drop)]
pub struct Running {
    thread: JoinHandle<()>,
}

impl Running {
    /// Waits until it has ended. That is once its listeners were shut, and its clients have gone.
    pub fn end<W: Threads>(self, workers: &W) {
        self.thread.join(workers);
    }
}

// The ports of so many lanes, and the lanes' ends.
fn ports_of(
    alloc: Global,
    lanes: u32,
    now: Instant,
) -> Result<(Vec<Port>, Vec<LaneEnd>), AllocError>
    ensures ends { IfOk result (λ made. vec_len made.1 ≡ lanes) }
{
    let mut ports = Vec::new(alloc);
    let mut ends = Vec::new(alloc);
    for _lane in 0..lanes {
        let (near, far) = LaneEnd::pair(alloc)?;
        ports.push(Port::new(alloc, near, now))?;
        ends.push(far)?;
    }
    Ok((ports, ends))
}

// The entrances of listeners, which accept without waiting from now on.
fn entrances_of(alloc: Global, poll: &Poll, listeners: &[&TcpListener]) -> io::Result<Vec<Entrance>>
    requires few { length listeners.now ≤ MAX_LANES }
{
    let mut entrances = Vec::new(alloc);
    for place in 0..listeners.len() {
        let listener = listeners[place].try_clone()?;
        listener.set_nonblocking(true)?;
        let mut listener = mio::net::TcpListener::from_std(listener);
        let token = token_of(Socket::Listener { place });
        let registry = poll.registry();
        registry.register(&mut listener, token, Interest::READABLE)?;
        entrances.push(Entrance {
            listener,
            may_accept: true,
            has_ended: false,
        })?;
    }
    Ok(entrances)
}

// A switch of these ports and listeners.
fn switch_of<S: Net<Listener = TcpListener, Stream = TcpStream> + Clock + Drop, N: Watch + Drop>(
    system: S,
    alloc: Global,
    edge: Edge,
    watch: N,
    listeners: &[&TcpListener],
    lanes: u32,
    ports: Vec<Port>,
) -> io::Result<Switch<S, N>>
    requires clients { (0 < edge.clients) × (edge.clients ≤ MAX_CLIENTS) }
    requires lanes { (0 < lanes) × (lanes ≤ MAX_LANES) }
    requires few { length listeners.now ≤ MAX_LANES }
{
    let poll = Poll::new(&system)?;
    let entrances = entrances_of(alloc, &poll, listeners)?;
    let hub = Hub::new(alloc, edge.clients, lanes, edge.place)?;
    let now = Instant::now(&system)?;
    let hall = Hall::new(alloc, hub, edge.clients, edge.patience, watch, now)?;
    let payload = Vec::with_capacity(alloc, MAX_PAYLOAD as usize)?;
    Ok(Switch {
        system,
        poll,
        hall,
        ports,
        entrances,
        piece: Vec::from_elem(alloc, 0, PIECE)?,
        frame: Room { payload },
        next_look: now,
    })
}

/// Starts a switch over these listeners, by a thread of its own, and gives the end of each lane. Once
/// all listeners are shut it stops in order.
pub fn start<
    W: Threads,
    S: Net<Listener = TcpListener, Stream = TcpStream> + Clock + Send + Drop + 'static,
    N: Watch + Send + Drop + 'static,
>(
    workers: &W,
    system: S,
    alloc: Global,
    edge: Edge,
    watch: N,
    listeners: &[&TcpListener],
    lanes: u32,
) -> io::Result<(Running, Vec<LaneEnd>)>
    requires clients { (0 < edge.clients) × (edge.clients ≤ MAX_CLIENTS) }
    requires lanes { (0 < lanes) × (lanes ≤ MAX_LANES) }
    requires few { length listeners.now ≤ MAX_LANES }
    ensures each { IfOk result (λ begun. vec_len begun.1 ≡ lanes) }
{
    let now = Instant::now(&system)?;
    let (ports, ends) = ports_of(alloc, lanes, now)?;
    let mut switch = switch_of(system, alloc, edge, watch, listeners, lanes, ports)?;
    let mut events = Events::with_capacity(alloc, EVENTS)?;
    let work = move || switch.run(&mut events);
    match thread::spawn(workers, work) {
        Ok(thread) => Ok((Running { thread }, ends)),
        Err(_) => Err(io::Error::from(ErrorKind::OutOfMemory)),
    }
}
