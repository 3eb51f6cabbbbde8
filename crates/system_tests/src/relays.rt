use arrayvec::ArrayVec;
use frame_link::{Failed, RelayAnswer, RelayLink};
use node_telling::{Rounded, Rounds};
use std::alloc::{AllocError, Global};
use std::io::{Empty, Read, Write};
use std::net::{TcpListener, TcpStream};
use std::sync::Arc;
use std::test::*;
use std::thread::Threads;
use std::time::Duration;
use std::{io, thread};
use system_io::{LIMIT, TcpRelay};

// What a call answers, and how often the link has failed.
type Told = (Result<RelayAnswer, Failed>, u64);

// A link to a relay at an address.
fn link_to<'a>(
    rt: &'a HostRuntime,
    address: &str,
    limit: Duration,
) -> Result<TcpRelay<&'a HostRuntime>, AllocError> {
    let rounds = Arc::new(rt.alloc(), Rounds::new())?;
    link_of(rt, address, limit, rounds)
}

// The same, of a lane whose requests these are.
fn link_of<'a>(
    rt: &'a HostRuntime,
    address: &str,
    limit: Duration,
    rounds: Arc<Rounds, Global>,
) -> Result<TcpRelay<&'a HostRuntime>, AllocError> {
    let address = String::from_str(rt.alloc(), address)?;
    Ok(TcpRelay::new(rt, rt.alloc(), address, limit, rounds, None))
}

// A listener on this machine, and its address.
pub(crate) fn listen(rt: &HostRuntime) -> Result<(TcpListener, String), Fail> {
    let listener = TcpListener::bind(rt, "127.0.0.1:0")?;
    let port = listener.local_addr()?.port();
    let address = format!(in rt.alloc(); "127.0.0.1:{port}")?;
    Ok((listener, address))
}

// What the node 7 asks of the certificate 1, 9.
const ASKED: [u8; 11] = [0, 0, 0, 7, 5, 0, 0, 0, 7, 1, 9];

// Takes one question, and says whether it is the wanted one.
fn is_asked(stream: &mut TcpStream) -> io::Result<bool> {
    let mut got = [0u8; 11];
    stream.read_exact(&mut got)?;
    Ok(got == ASKED)
}

// A connection whose question is answered by these bytes, and whether it is the wanted one.
fn answered(listener: &TcpListener, bytes: &[u8]) -> io::Result<(TcpStream, bool)> {
    let (mut stream, _) = listener.accept()?;
    let is_wanted = is_asked(&mut stream)?;
    stream.write_all(bytes)?;
    Ok((stream, is_wanted))
}

// Two connections: one whose answer has these bytes, and which is closed where that is wanted; and
// one that answers once. Whether both were asked.
fn answer_twice(listener: &TcpListener, first: &[u8], is_closed: bool) -> io::Result<bool> {
    let (stream, is_first) = answered(listener, first)?;
    let mut kept = Some(stream);
    if is_closed {
        kept = None;
    }
    let (_other, is_second) = answered(listener, &[0, 0, 0, 2, 6, 2])?;
    drop(kept);
    Ok(is_first && is_second)
}

fn ask(relay: &mut TcpRelay<&HostRuntime>) -> Told {
    let mut out = ArrayVec::new();
    let answer = relay.reseal(7, &[1, 9], &mut out);
    (answer, relay.faults())
}

fn is_refused(told: Told, code: u8, faults: u64) -> bool {
    told == (Ok(RelayAnswer::Refused { code }), faults)
}

fn is_failed(told: Told, faults: u64) -> bool {
    told == (Err(Failed), faults)
}

// Whether the first two calls are answered.
fn is_answered_twice(relay: &mut TcpRelay<&HostRuntime>) -> bool {
    let first = ask(relay);
    let second = ask(relay);
    is_refused(first, 3, 0) && is_refused(second, 2, 0)
}

// The first answer is all there is, or it has a frame behind it that nobody asked for.
const FIRST: &[(&[u8], bool)] = &[
    (&[0, 0, 0, 2, 6, 3], true),
    (&[0, 0, 0, 2, 6, 3, 0, 0, 0, 2, 6, 5], false),
];

fn is_opened_again(
    workers: &impl Threads,
    rt: &HostRuntime,
    first: &[u8],
    is_closed: bool,
) -> Result<bool, Fail> {
    let (listener, address) = listen(rt)?;
    let mut relay = link_to(rt, address.as_str(), Duration::from_secs(LIMIT))?;
    let (listener, relay) = (&listener, &mut relay);
    let (is_answered, are_asked) = thread::join(
        workers,
        move || is_answered_twice(relay),
        move || answer_twice(listener, first, is_closed),
    );
    Ok(are_asked? && is_answered)
}

#[test]
fn a_stream_that_is_closed_or_has_more_is_opened_again(rt: HostRuntime) -> Result<(), Fail> {
    for &(first, is_closed) in FIRST {
        assert!(rt; is_opened_again(&rt, &rt, first, is_closed)?, "{first:?}");
    }
    Ok(())
}

// One connection that takes the question and is closed, and one that answers. Whether both were
// asked.
fn answer_late(listener: &TcpListener) -> io::Result<bool> {
    let (stream, is_first) = answered(listener, &[])?;
    drop(stream);
    let (_other, is_second) = answered(listener, &[0, 0, 0, 2, 6, 2])?;
    Ok(is_first && is_second)
}

// Whether the first call fails, the second one fails at once, and the third one, a second behind the
// first, connects again.
fn is_answered_late(rt: &HostRuntime, relay: &mut TcpRelay<&HostRuntime>) -> bool {
    let first = ask(relay);
    thread::sleep(rt, Duration::from_millis(300));
    let second = ask(relay);
    thread::sleep(rt, Duration::from_millis(900));
    let third = ask(relay);
    is_failed(first, 1) && is_failed(second, 2) && is_refused(third, 2, 2)
}

#[test]
fn a_relay_is_connected_to_again_a_second_behind_a_fault(rt: HostRuntime) -> Result<(), Fail> {
    let (listener, address) = listen(&rt)?;
    let mut relay = link_to(&rt, address.as_str(), Duration::from_secs(LIMIT))?;
    let (rt, listener, relay) = (&rt, &listener, &mut relay);
    let (is_answered, are_asked) = thread::join(
        rt,
        move || is_answered_late(rt, relay),
        move || answer_late(listener),
    );
    assert!(rt; are_asked? && is_answered);
    Ok(())
}

fn fails_twice(relay: &mut TcpRelay<&HostRuntime>) -> bool {
    is_failed(ask(relay), 1) && is_failed(ask(relay), 2)
}

#[test]
fn a_relay_that_says_nothing_fails_behind_the_limit(rt: HostRuntime) -> Result<(), Fail> {
    let (_listener, address) = listen(&rt)?;
    let limit = Duration::from_millis(50);
    assert!(rt; fails_twice(&mut link_to(&rt, address.as_str(), limit)?));
    Ok(())
}

const UNREACHED: &[&str] = &["127.0.0.1:1", "127.0.0.1", "127.0.0.1:70000", ""];

#[test]
fn an_address_that_is_not_reached_fails_at_each_call(rt: HostRuntime) -> Result<(), Fail> {
    for address in UNREACHED {
        let mut relay = link_to(&rt, address, Duration::from_secs(LIMIT))?;
        assert!(rt; fails_twice(&mut relay), "at {address}");
    }
    Ok(())
}

// Answers two questions on a connection and one on another, each a while after it came.
fn answer_slowly(rt: &HostRuntime, listener: &TcpListener) -> io::Result<()> {
    for count in [2, 1] {
        let (mut stream, _) = listener.accept()?;
        for _ in 0..count {
            if !is_asked(&mut stream)? {
                break;
            }
            thread::sleep(rt, Duration::from_millis(600));
            let _ = stream.write_all(&[0, 0, 0, 2, 6, 2]);
        }
    }
    Ok(())
}

// Whether the second call of a request has what the first one left of a second, and the first call of
// the next has a second again.
fn shares_limit(
    rt: &HostRuntime,
    relay: &mut TcpRelay<&HostRuntime>,
    input: &mut Rounded<Empty, HostRuntime>,
) -> bool {
    let first = ask(relay);
    let second = ask(relay);
    thread::sleep(rt, Duration::from_millis(1_200));
    let is_next = input.read(&mut [0u8; 1]).is_ok();
    let third = ask(relay);
    is_next && is_refused(first, 2, 0) && is_failed(second, 1) && is_refused(third, 2, 1)
}

#[test]
fn the_calls_of_one_request_share_its_limit(rt: HostRuntime) -> Result<(), Fail> {
    let (listener, address) = listen(&rt)?;
    let rounds = Arc::new(rt.alloc(), Rounds::new())?;
    let mut input = Rounded::new(io::empty(), rt, Arc::try_clone(&rounds)?);
    let mut relay = link_of(&rt, address.as_str(), Duration::from_secs(1), rounds)?;
    let (rt, listener, relay, input) = (&rt, &listener, &mut relay, &mut input);
    let (is_shared, answered) = thread::join(
        rt,
        move || shares_limit(rt, relay, input),
        move || answer_slowly(rt, listener),
    );
    answered?;
    assert!(rt; is_shared);
    Ok(())
}
