//! Where the program listens: a list of addresses, and a listener for each of them.

ghost use Rattle.std.specs.Prelude.{◌≡◌, ◌<◌, ◌≤◌, IfOk, length, vec_len};

use crate::door::Doorway;
use arrayvec::ArrayVec;
use node_telling::Listener;
use std::alloc::{AllocError, Global};
use std::io::Write;
use std::net::{Net, TcpListener, TcpStream};
use std::sync::Arc;

/// The most addresses of a list.
pub const MAX_ADDRESSES: usize = 16;

/// The addresses that a text joins by commas; `-` joins none. `None` where there are more than 16.
pub fn addresses_of(listen: &str) -> Option<ArrayVec<&str, 16>> {
    let mut addresses = ArrayVec::new();
    if listen == "-" {
        return Some(addresses);
    }
    for address in listen.split(',') {
        if addresses.try_push(address).is_err() {
            return None;
        }
    }
    Some(addresses)
}

/// Where the address of a place stands first.
pub fn first_place(addresses: &[&str], place: usize) -> usize
    requires { place < length addresses.now }
    ensures { result ≤ place }
{
    for earlier in 0..place {
        if addresses[earlier] == addresses[place] {
            return earlier;
        }
    }
    place
}

// The listener of an address. Where it can't be bound, a line tells why; one that can't be written is
// missing.
fn bound_at<R: Net<Listener = TcpListener, Stream = TcpStream>, E: Write>(
    network: &R,
    alloc: Global,
    address: &str,
    errors: &mut E,
) -> Result<Option<Listener>, AllocError> {
    match TcpListener::bind(network, address) {
        Ok(bound) => Ok(Some(Arc::new(alloc, bound)?)),
        Err(reason) => {
            let _ = writeln!(errors, "taosd: {address}: {reason}");
            Ok(None)
        }
    }
}

/// For each address its listener: at its first place, where it can be bound, and at no other. Each
/// that can't be bound has a line that names it and the system's reason.
pub fn bind_all<R: Net<Listener = TcpListener, Stream = TcpStream>, E: Write>(
    network: &R,
    alloc: Global,
    addresses: &[&str],
    errors: &mut E,
) -> Result<Vec<Option<Listener>>, AllocError> {
    let mut listeners = Vec::new(alloc);
    for place in 0..addresses.len() {
        let mut listener = None;
        if first_place(addresses, place) == place {
            listener = bound_at(network, alloc, addresses[place], errors)?;
        }
        listeners.push(listener)?;
    }
    Ok(listeners)
}

/// What stands behind the door of each address: the listener of its first place. Without an
/// address there is one door, which has ended.
pub fn doorways_of(
    alloc: Global,
    addresses: &[&str],
    listeners: &[Option<Listener>],
) -> Result<Vec<Doorway>, AllocError>
    ensures one { length addresses.now ≡ 0 → IfOk result (λ doorways. vec_len doorways ≡ 1) }
    ensures each { 0 < length addresses.now
        → IfOk result (λ doorways. vec_len doorways ≡ length addresses.now) }
{
    let mut doorways = Vec::new(alloc);
    if addresses.is_empty() {
        doorways.push(Doorway::Ended)?;
        return Ok(doorways);
    }
    for place in 0..addresses.len() {
        let doorway = match listeners.get(first_place(addresses, place)) {
            Some(Some(listener)) => Doorway::Bound(Arc::try_clone(listener)?),
            _ => Doorway::Unbound,
        };
        doorways.push(doorway)?;
    }
    Ok(doorways)
}

/// Writes a line for each listener, with its address as it was bound. A line that can't be written
/// is missing.
pub fn tell_addresses<E: Write>(errors: &mut E, listeners: &[Option<Listener>]) {
    for listener in listeners.iter().flatten() {
        if let Ok(address) = listener.local_addr() {
            let _ = writeln!(errors, "taosd: listening on {address}");
        }
    }
}
