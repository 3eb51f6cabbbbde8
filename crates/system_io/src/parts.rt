//! What the lanes of a program are made of, one for each door.

ghost use Rattle.std.specs.Prelude.{◌≡◌, IfOk, vec_len};

use crate::clock::{ClockGuard, SystemSeconds};
use crate::door::{Doorway, TcpDoor};
use crate::fetch::TcpFetch;
use crate::peer::Terms;
use crate::relay::TcpRelay;
use crate::wire::LIMIT;
use node_telling::{Rounds, Stop, Teller, teller_of};
use std::alloc::{AllocError, Global};
use std::net::{Net, TcpListener, TcpStream};
use std::sync::Arc;
use std::time::{Clock, Duration};

/// What all lanes have: how long a peer may be silent, what stops their doors, what readings of the
/// clock are held against, the addresses of the relay and of the wallet, and what each leaves its
/// notices by.
#[derive(Clone, Copy)]
pub struct Common<'a> {
    pub idle: Duration,
    pub stop: &'a Arc<Stop, Global>,
    pub guard: &'a Arc<ClockGuard, Global>,
    /// `-` is none, so a link to it fails at each call.
    pub relay: &'a str,
    /// `-` is none, so a fetch from it fails at each call.
    pub wallet: &'a str,
    pub tellers: &'a [Teller],
    /// How long replies take is counted.
    pub is_timed: bool,
    /// Requests are kept until they are answered.
    pub keeps_requests: bool,
    /// What tells the first lane's link where a request ends.
    pub first_rounds: &'a Arc<Rounds, Global>,
}

/// A clock, a link to the relay, a door and a fetch from the wallet.
#[derive(Drop)]
pub struct LaneParts<S> {
    pub clock: SystemSeconds<S>,
    pub link: TcpRelay<S>,
    pub door: TcpDoor<S>,
    pub fetch: TcpFetch<S>,
}

/// What tells a lane's link where a request ends, and how long each takes and what it was, where that is
/// wanted.
pub fn rounds_of<C: Clock>(
    clock: &C,
    alloc: Global,
    is_timed: bool,
    keeps_requests: bool,
) -> Rounds {
    let rounds = match is_timed {
        true => Rounds::timed(clock),
        false => Rounds::new(),
    };
    match keeps_requests {
        true => rounds.keeping(alloc),
        false => rounds,
    }
}

// The parts of a lane with this behind its door.
fn part_of<S: Net<Listener = TcpListener, Stream = TcpStream> + Clock + Copy + Send>(
    system: S,
    alloc: Global,
    common: Common<'_>,
    doorway: Doorway,
    rounds: Arc<Rounds, Global>,
    teller: &Teller,
) -> Result<LaneParts<S>, AllocError> {
    let terms = Terms {
        clock: system,
        stop: Arc::try_clone(common.stop)?,
        idle: common.idle,
        teller: teller_of(teller)?,
        rounds: Arc::try_clone(&rounds)?,
    };
    let relay = String::from_str(alloc, common.relay)?;
    let limit = Duration::from_secs(LIMIT);
    let link = TcpRelay::new(system, alloc, relay, limit, rounds, teller_of(teller)?);
    let wallet = String::from_str(alloc, common.wallet)?;
    let fetch = TcpFetch::new(system, alloc, wallet, limit, teller_of(teller)?);
    let door = TcpDoor::new(doorway, alloc, terms);
    let guard = Arc::try_clone(common.guard)?;
    let clock = SystemSeconds::new(system, guard, teller_of(teller)?);
    Ok(LaneParts {
        clock,
        link,
        door,
        fetch,
    })
}

/// The parts of a lane for each door, in order.
pub fn parts_of<S: Net<Listener = TcpListener, Stream = TcpStream> + Clock + Copy + Send>(
    system: S,
    alloc: Global,
    common: Common<'_>,
    doorways: Vec<Doorway>,
) -> Result<Vec<LaneParts<S>>, AllocError>
    ensures each { IfOk result (λ parts. vec_len parts ≡ vec_len doorways) }
{
    let mut parts = Vec::new(alloc);
    for doorway in doorways {
        let teller = common.tellers.get(parts.len()).unwrap_or(&None);
        let rounds = match parts.is_empty() {
            true => Arc::try_clone(common.first_rounds)?,
            false => {
                let (is_timed, keeps_requests) = (common.is_timed, common.keeps_requests);
                Arc::new(alloc, rounds_of(&system, alloc, is_timed, keeps_requests))?
            }
        };
        parts.push(part_of(system, alloc, common, doorway, rounds, teller)?)?;
    }
    Ok(parts)
}
