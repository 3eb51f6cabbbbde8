//! The lanes of the program.

ghost use Rattle.std.specs.Prelude.{◌≡◌, IfOk, vec_len};

use std::alloc::{AllocError, Global};
use std::net::{Net, TcpListener, TcpStream};
use std::time::Clock;
use system_io::{Common, Doorway, LaneParts, SystemSeconds, TcpDoor, TcpFetch, TcpRelay, parts_of};
use taos_node::Lane;

/// A lane over a system: its clock, a link to the relay, a door and a fetch from the wallet.
pub type SystemLane<S> = Lane<SystemSeconds<S>, TcpRelay<S>, TcpDoor<S>, TcpFetch<S>>;

fn lane_of<S: Net<Listener = TcpListener, Stream = TcpStream> + Clock + Copy + Send>(
    parts: LaneParts<S>,
) -> SystemLane<S> {
    let LaneParts {
        clock,
        link,
        door,
        fetch,
    } = parts;
    Lane::of(clock, link, door, fetch)
}

/// A lane for each door.
pub fn lanes_of<S: Net<Listener = TcpListener, Stream = TcpStream> + Clock + Copy + Send>(
    system: S,
    alloc: Global,
    common: Common<'_>,
    doorways: Vec<Doorway>,
) -> Result<Vec<SystemLane<S>>, AllocError>
    ensures each { IfOk result (λ lanes. vec_len lanes ≡ vec_len doorways) }
{
    let parts = parts_of(system, alloc, common, doorways)?;
    let mut lanes = Vec::new(alloc);
    for part in parts {
        lanes.push(lane_of(part))?;
    }
    Ok(lanes)
}
