//! Many clients at few lanes: a switch between them.

ghost use Rattle.std.specs.Prelude.{◌≡◌, ◌<◌, ◌≤◌, length, vec_len, IfOk};

use crate::own::Own;
use crate::setting::Setting;
use node_telling::{Breakage, Happening, Listener, Shutter, Teller, shows_seal, teller_of};
use std::alloc::{AllocError, Global};
use std::fs::File;
use std::io;
use std::io::{ErrorKind, Write};
use std::net::{SocketAddr, TcpListener};
use std::thread::Threads;
use std::time::{Clock, Duration};
use system_hub::{
    Edge, LaneEnd, MAX_CLIENTS, MAX_LANES, Patience, Running, Watch, clients_within,
    descriptors_of, start,
};
use system_io::{Doorway, FIRST, FRAME, IDLE, LINGER, TAKE, doorways_of, first_place};

// Where a client's first payload has the number that tells its lane: a request its channel, and a
// question its node.
const NUMBER: usize = 1;

// Where the system tells its limits.
const LIMITS: &str = "/proc/self/limits";

// The seconds of a year: how long the stream of many clients may be silent.
const YEAR: u64 = 31_536_000;

/// How long the peer of a door may be silent: of many clients the switch knows.
pub fn idle_of(idle: Option<Duration>, clients: Option<u32>) -> Duration {
    match (clients, idle) {
        (Some(_), _) => Duration::from_secs(YEAR),
        (None, Some(idle)) => idle,
        (None, None) => Duration::from_secs(IDLE),
    }
}

// How long clients may take.
fn patience_of(idle: Option<Duration>) -> Patience {
    Patience {
        first: Duration::from_secs(FIRST),
        frame: Duration::from_secs(FRAME),
        idle: idle.unwrap_or(Duration::from_secs(IDLE)),
        take: Duration::from_secs(TAKE),
        linger: Duration::from_secs(LINGER),
    }
}

// By what a switch leaves notices.
#[derive(Drop)]
struct Witness<C> {
    teller: Teller,
    clock: C,
}

impl<C: Clock> Witness<C> {
    fn tell(&self, peer: Option<SocketAddr>, what: Happening) {
        if let Some(notices) = &self.teller {
            notices.tell(&self.clock, peer, what);
        }
    }
}

impl<C: Clock> Watch for Witness<C> {
    fn is_sealed(&self, reply: &[u8]) -> bool {
        shows_seal(reply)
    }

    fn came(&self) {
        if let Some(notices) = &self.teller {
            if let Some(tally) = notices.tally() {
                tally.came();
            }
        }
    }

    fn went(&self) {
        if let Some(notices) = &self.teller {
            if let Some(tally) = notices.tally() {
                tally.went();
            }
        }
    }

    fn broke(&self, peer: SocketAddr, why: Breakage) {
        self.tell(Some(peer), Happening::Broken(why));
    }

    fn scarce(&self) {
        self.tell(None, Happening::Scarce);
    }

    fn full(&self) {
        self.tell(None, Happening::Full);
    }
}

// As many clients as were wanted, or as the system's limit of descriptors leaves room for. Where those
// are fewer, a line tells it.
fn clients_of(rt: &HostRuntime, wanted: u32) -> io::Result<u32> {
    let mut file = File::open(rt, LIMITS)?;
    let text = io::read_to_string(rt.alloc(), &mut file)?;
    let Some(descriptors) = descriptors_of(text.as_str()) else {
        return Ok(wanted);
    };
    let clients = clients_within(wanted, descriptors);
    if clients < wanted {
        let _ = writeln!(
            rt.stderr(),
            "taosd: {clients} clients at most, since {descriptors} descriptors are allowed"
        );
    }
    Ok(clients)
}

// The listeners, each once.
fn bound_of(
    alloc: Global,
    listeners: &[Option<Listener>],
) -> Result<Vec<&TcpListener>, AllocError> {
    let mut bound = Vec::new(alloc);
    for listener in listeners.iter().flatten() {
        let listener: &TcpListener = listener;
        bound.push(listener)?;
    }
    Ok(bound)
}

// The doorway of each lane.
fn merged_of(alloc: Global, ends: Vec<LaneEnd>) -> Result<Vec<Doorway>, AllocError>
    ensures { IfOk result (λ doorways. vec_len doorways ≡ vec_len ends) }
{
    let mut doorways = Vec::new(alloc);
    for end in ends {
        doorways.push(Doorway::Merged(end))?;
    }
    Ok(doorways)
}

/// A switch that runs, and how many clients it lets be connected at a time.
#[derive(Drop)]
pub struct Switch {
    running: Running,
    clients: u32,
}

impl Switch {
    pub fn clients(&self) -> u32 {
        self.clients
    }
}

// What is asked of a switch.
#[derive(Clone, Copy)]
struct Crowd {
    clients: u32,
    idle: Option<Duration>,
    lanes: u32,
}

// Starts a switch between these listeners and the lanes, and gives what stands behind the lanes' doors.
fn begin_edge<W: Threads>(
    rt: &HostRuntime,
    workers: &W,
    crowd: Crowd,
    teller: Teller,
    listeners: &[Option<Listener>],
) -> io::Result<(Switch, Vec<Doorway>)>
    requires lanes { (0 < crowd.lanes) × (crowd.lanes ≤ 16) }
    ensures each { IfOk result (λ begun. vec_len begun.1 ≡ crowd.lanes) }
{
    let clients = clients_of(rt, crowd.clients).unwrap_or(crowd.clients);
    let bound = bound_of(rt.alloc(), listeners)?;
    if clients == 0 || clients > MAX_CLIENTS || bound.len() > MAX_LANES as usize {
        return Err(io::Error::from(ErrorKind::InvalidInput));
    }
    let edge = Edge {
        clients,
        place: NUMBER,
        patience: patience_of(crowd.idle),
    };
    let witness = Witness { teller, clock: *rt };
    let (running, ends) = start(workers, *rt, rt.alloc(), edge, witness, &bound, crowd.lanes)?;
    let doorways = merged_of(rt.alloc(), ends)?;
    Ok((Switch { running, clients }, doorways))
}

// Whether an address is bound nowhere.
fn has_unbound(addresses: &[&str], listeners: &[Option<Listener>]) -> bool {
    for place in 0..addresses.len() {
        let first = first_place(addresses, place);
        if !matches!(listeners.get(first), Some(Some(_))) {
            return true;
        }
    }
    false
}

/// What stands behind the doors: where many clients are wanted the ends of a switch, else the listener of
/// each address.
pub fn doors_of<W: Threads>(
    rt: &HostRuntime,
    workers: &W,
    own: &Own<'_>,
    setting: &Setting<'_>,
    tellers: &[Teller],
    listeners: &[Option<Listener>],
) -> io::Result<(Vec<Doorway>, Option<Switch>)>
    requires few { length setting.now.addresses.now ≤ 16 }
    ensures some { IfOk result (λ made. 0 < vec_len made.0) }
    ensures few { IfOk result (λ made. vec_len made.0 ≤ 16) }
{
    let addresses = setting.addresses;
    let clients = match own.clients {
        Some(clients) if !addresses.is_empty() => clients,
        _ => return Ok((doorways_of(rt.alloc(), addresses, listeners)?, None)),
    };
    if has_unbound(addresses, listeners) {
        return Err(io::Error::from(ErrorKind::AddrNotAvailable));
    }
    let teller = match tellers.last() {
        Some(teller) => teller_of(teller)?,
        None => None,
    };
    let crowd = Crowd {
        clients,
        idle: own.idle,
        lanes: addresses.len() as u32,
    };
    let (switch, doorways) = begin_edge(rt, workers, crowd, teller, listeners)?;
    Ok((doorways, Some(switch)))
}

/// Lets the switch end, whose lanes have ended.
pub fn end_edge<W: Threads>(edge: Option<Switch>, workers: &W, listeners: &[Option<Listener>]) {
    let Some(Switch { running, .. }) = edge else {
        return;
    };
    for listener in listeners.iter().flatten() {
        if let Ok(shutter) = Shutter::of(listener) {
            shutter.shut();
        }
    }
    running.end(workers);
}
