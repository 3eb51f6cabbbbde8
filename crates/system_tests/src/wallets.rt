use crate::relays::listen;
use cred_pull::{Fetch, Fetched};
use frame_link::Failed;
use std::alloc::AllocError;
use std::io::{Read, Write};
use std::net::{TcpListener, TcpStream};
use std::test::*;
use std::thread::Threads;
use std::time::Duration;
use std::{io, thread};
use system_io::{LIMIT, TcpFetch};

// A fetch from a wallet at an address.
fn fetch_from<'a>(
    rt: &'a HostRuntime,
    address: &str,
    limit: Duration,
) -> Result<TcpFetch<&'a HostRuntime>, AllocError> {
    let address = String::from_str(rt.alloc(), address)?;
    Ok(TcpFetch::new(rt, rt.alloc(), address, limit, None))
}

// What a node asks for the certificates of channel 2's request 7.
const ASKED: [u8; 17] = [0, 0, 0, 13, 8, 0, 0, 0, 2, 0, 0, 0, 0, 0, 0, 0, 7];

// The certificate 5, 6, and none.
const GIVEN: &[u8] = &[0, 0, 0, 6, 9, 1, 0, 2, 5, 6];

const NONE_GIVEN: &[u8] = &[0, 0, 0, 2, 9, 0];

// Takes one question, answers it with these bytes, and says whether it is the wanted one.
fn answer(stream: &mut TcpStream, bytes: &[u8]) -> io::Result<bool> {
    let mut got = [0u8; 17];
    stream.read_exact(&mut got)?;
    stream.write_all(bytes)?;
    Ok(got == ASKED)
}

// Two connections: one that is asked twice, and one behind it that is asked once. Whether all were.
fn answer_thrice(listener: &TcpListener) -> io::Result<bool> {
    let (mut stream, _) = listener.accept()?;
    let are_first = answer(&mut stream, GIVEN)? && answer(&mut stream, NONE_GIVEN)?;
    drop(stream);
    let (mut other, _) = listener.accept()?;
    Ok(answer(&mut other, GIVEN)? && are_first)
}

// The certificates that a call gives, by their bytes.
fn is_given(rt: &HostRuntime, fetch: &mut TcpFetch<&HostRuntime>, wanted: &[&[u8]]) -> bool {
    let Ok(Fetched::Given(certs)) = fetch.fetch(rt.alloc(), 2, 7) else {
        return false;
    };
    if certs.len() != wanted.len() {
        return false;
    }
    for (cert, bytes) in certs.iter().zip(wanted) {
        if cert.as_slice() != *bytes {
            return false;
        }
    }
    fetch.faults() == 0
}

// Whether all three are given what they ask for.
fn are_given(rt: &HostRuntime, fetch: &mut TcpFetch<&HostRuntime>) -> bool {
    let first = is_given(rt, fetch, &[&[5, 6]]);
    let second = is_given(rt, fetch, &[]);
    thread::sleep(rt, Duration::from_millis(200));
    let third = is_given(rt, fetch, &[&[5, 6]]);
    first && second && third
}

#[test]
fn a_stream_to_a_wallet_is_kept_and_opened_again(rt: HostRuntime) -> Result<(), Fail> {
    let (listener, address) = listen(&rt)?;
    let mut fetch = fetch_from(&rt, address.as_str(), Duration::from_secs(LIMIT))?;
    let (rt, listener, fetch) = (&rt, &listener, &mut fetch);
    let (are_given, are_asked) = thread::join(
        rt,
        move || are_given(rt, fetch),
        move || answer_thrice(listener),
    );
    assert!(rt; are_asked? && are_given);
    Ok(())
}

// Whether two calls fail.
fn fails_twice(rt: &HostRuntime, fetch: &mut TcpFetch<&HostRuntime>) -> bool {
    let first = matches!(fetch.fetch(rt.alloc(), 2, 7), Err(Failed));
    let second = matches!(fetch.fetch(rt.alloc(), 2, 7), Err(Failed));
    first && second && fetch.faults() == 2
}

const UNREACHED: &[&str] = &["127.0.0.1:1", "127.0.0.1:70000", "-", ""];

#[test]
fn a_wallet_that_is_not_reached_fails_at_each_call(rt: HostRuntime) -> Result<(), Fail> {
    for address in UNREACHED {
        let mut fetch = fetch_from(&rt, address, Duration::from_secs(LIMIT))?;
        assert!(rt; fails_twice(&rt, &mut fetch), "at {address}");
    }
    Ok(())
}

#[test]
fn a_wallet_that_says_nothing_fails_behind_the_limit(rt: HostRuntime) -> Result<(), Fail> {
    let (_listener, address) = listen(&rt)?;
    let mut fetch = fetch_from(&rt, address.as_str(), Duration::from_millis(50))?;
    assert!(rt; fails_twice(&rt, &mut fetch));
    Ok(())
}
