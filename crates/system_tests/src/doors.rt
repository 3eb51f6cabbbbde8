use frame_link::{Door, Failed, Source, fill, pour};
use node_telling::{Listener, Rounds, Stop, stop_at_end};
use std::alloc::{AllocError, Global};
use std::io::{Read, Write};
use std::net::{TcpListener, TcpStream};
use std::sync::Arc;
use std::test::*;
use std::thread::Threads;
use std::time::Duration;
use std::{io, thread};
use system_io::{Doorway, TcpDoor, Terms, addresses_of, bind_all, doorways_of, first_place};

// A door of the system.
type SystemDoor<'a> = TcpDoor<&'a HostRuntime>;

// A door whose peers have so many milliseconds between frames.
fn door_of<'a>(
    rt: &'a HostRuntime,
    doorway: Doorway,
    stop: &Arc<Stop, Global>,
    idle: u64,
) -> Result<SystemDoor<'a>, AllocError> {
    let terms = Terms {
        clock: rt,
        stop: Arc::try_clone(stop)?,
        idle: Duration::from_millis(idle),
        teller: None,
        rounds: Arc::new(rt.alloc(), Rounds::new())?,
    };
    Ok(TcpDoor::new(doorway, rt.alloc(), terms))
}

// A door at a listener, which others may have too. Nobody asks it to stop.
fn door_at<'a>(
    rt: &'a HostRuntime,
    listener: &Listener,
    idle: u64,
) -> Result<SystemDoor<'a>, AllocError> {
    let stop = Arc::new(rt.alloc(), Stop::new())?;
    door_of(rt, Doorway::Bound(Arc::try_clone(listener)?), &stop, idle)
}

// A listener at a free port of this machine.
fn listen(rt: &HostRuntime) -> io::Result<Listener> {
    let listener = TcpListener::bind(rt, "127.0.0.1:0")?;
    Ok(Arc::new(rt.alloc(), listener)?)
}

// Two frames, one of them with no payload.
const FRAMES: [u8; 10] = [0, 0, 0, 2, 7, 8, 0, 0, 0, 0];

// Writes two frames of a connection back, then reads on. Whether the frames came, and that failed.
fn echoes<D: Door>(door: &mut D) -> bool {
    let Ok(Some((mut input, mut output))) = door.accept() else {
        return false;
    };
    let mut got = [0u8; 10];
    let is_read = fill(&mut input, &mut got) == Ok(10) && got == FRAMES;
    let is_written = pour(&mut output, &got).is_ok();
    let has_failed = input.read(&mut got) == Err(Failed);
    door.done(input, output);
    is_read && is_written && has_failed
}

// Sends two frames and then nothing. Whether they come back, and then the end.
fn hears_echo(rt: &HostRuntime, listener: &TcpListener) -> io::Result<bool> {
    let mut stream = TcpStream::connect(rt, listener.local_addr()?)?;
    stream.set_read_timeout(Some(Duration::from_secs(5)))?;
    stream.write_all(&FRAMES)?;
    let mut back = [0u8; 10];
    stream.read_exact(&mut back)?;
    let mut room = [0u8; 1];
    Ok(back == FRAMES && stream.read(&mut room)? == 0)
}

#[test]
fn replies_have_left_when_a_silent_peer_is_given_up(rt: HostRuntime) -> Result<(), Fail> {
    let listener = listen(&rt)?;
    let mut door = door_at(&rt, &listener, 100)?;
    let (rt, listener, door) = (&rt, &listener, &mut door);
    let (is_echoed, is_heard) = thread::join(
        rt,
        move || echoes(door),
        move || hears_echo(rt, listener),
    );
    assert!(rt; is_heard? && is_echoed);
    Ok(())
}

// Two connections to a listener, each with a frame.
fn call_twice(rt: &HostRuntime, listener: &TcpListener) -> io::Result<(TcpStream, TcpStream)> {
    let address = listener.local_addr()?;
    let mut first = TcpStream::connect(rt, address)?;
    let mut second = TcpStream::connect(rt, address)?;
    first.write_all(&[0, 0, 0, 1, 1])?;
    second.write_all(&[0, 0, 0, 1, 2])?;
    Ok((first, second))
}

// Whether each of two doors has a connection with its frame while the other has one too.
fn are_served_together<D: Door>(first: &mut D, second: &mut D) -> bool {
    let Ok(Some((mut input, output))) = first.accept() else {
        return false;
    };
    let mut frames = [0u8; 10];
    let (one, other) = frames.split_at_mut(5);
    let is_second_served = match second.accept() {
        Ok(Some((mut input, output))) => {
            let is_read = fill(&mut input, other) == Ok(5);
            second.done(input, output);
            is_read
        }
        _ => false,
    };
    let is_first_served = fill(&mut input, one) == Ok(5);
    first.done(input, output);
    is_first_served && is_second_served && frames == [0, 0, 0, 1, 1, 0, 0, 0, 1, 2]
}

#[test]
fn doors_at_one_address_have_connections_at_the_same_time(rt: HostRuntime) -> Result<(), Fail> {
    let alloc = rt.alloc();
    let addresses = ["127.0.0.1:0", "127.0.0.1:0"];
    let listeners = bind_all(&rt, alloc, &addresses, &mut io::sink())?;
    let mut doorways = doorways_of(alloc, &addresses, &listeners)?;
    let (Some(Some(listener)), Some(second), Some(first)) = (
        listeners.first(),
        doorways.pop(),
        doorways.pop(),
    ) else {
        return Err(Fail::from(io::Error::from(io::ErrorKind::NotFound)));
    };
    let stop = Arc::new(alloc, Stop::new())?;
    let mut first = door_of(&rt, first, &stop, 60_000)?;
    let mut second = door_of(&rt, second, &stop, 60_000)?;
    let peers = call_twice(&rt, listener)?;
    assert!(rt; are_served_together(&mut first, &mut second));
    drop(peers);
    Ok(())
}

// Whether 64 MB of replies can't be written, and nothing is read from then on.
fn is_not_waited_for<D: Door>(door: &mut D) -> bool {
    let Ok(Some((mut input, mut output))) = door.accept() else {
        return false;
    };
    let replies = [0u8; 4096];
    let mut has_failed = false;
    for _ in 0..16_384 {
        if pour(&mut output, &replies).is_err() {
            has_failed = true;
            break;
        }
    }
    let mut room = [0u8; 5];
    let is_over = input.read(&mut room) == Err(Failed);
    door.done(input, output);
    has_failed && is_over
}

#[test]
fn a_peer_that_never_reads_is_given_up(rt: HostRuntime) -> Result<(), Fail> {
    let listener = listen(&rt)?;
    let mut peer = TcpStream::connect(&rt, listener.local_addr()?)?;
    peer.write_all(&[0, 0, 0, 1, 1])?;
    assert!(rt; is_not_waited_for(&mut door_at(&rt, &listener, 60_000)?));
    drop(peer);
    Ok(())
}

// Whether the first read that ends with no frame is a failure.
fn is_given_up<D: Door>(door: &mut D) -> bool {
    let Ok(Some((mut input, output))) = door.accept() else {
        return false;
    };
    let mut got = [0u8; 10];
    let read = fill(&mut input, &mut got);
    door.done(input, output);
    read == Err(Failed)
}

// Sends a byte of one frame every half second, until the other side has closed or for 5 seconds.
// Whether it closed.
fn trickles(rt: &HostRuntime, listener: &TcpListener) -> io::Result<bool> {
    let mut stream = TcpStream::connect(rt, listener.local_addr()?)?;
    stream.set_read_timeout(Some(Duration::from_millis(500)))?;
    let mut room = [0u8; 1];
    for _ in 0..10 {
        if stream.write_all(&[1]).is_err() {
            return Ok(true);
        }
        match stream.read(&mut room) {
            Ok(_) => return Ok(true),
            Err(error) if error.kind() != io::ErrorKind::WouldBlock => return Ok(true),
            Err(_) => {}
        }
    }
    Ok(false)
}

#[test]
fn a_peer_that_trickles_is_given_up_behind_its_first_term(rt: HostRuntime) -> Result<(), Fail> {
    let listener = listen(&rt)?;
    let mut door = door_at(&rt, &listener, 60_000)?;
    let (rt, listener, door) = (&rt, &listener, &mut door);
    let (is_given_up, has_closed) = thread::join(
        rt,
        move || is_given_up(door),
        move || trickles(rt, listener),
    );
    assert!(rt; has_closed? && is_given_up);
    Ok(())
}

// Whether a connection is at its end once a stop is asked, which comes after it was given, and no other
// comes.
fn is_stopped<W: Threads>(
    workers: &W,
    alloc: Global,
    door: &mut SystemDoor<'_>,
    stop: &Arc<Stop, Global>,
    listeners: &[Option<Listener>],
) -> io::Result<bool> {
    let Ok(Some((mut input, output))) = door.accept() else {
        return Ok(false);
    };
    stop_at_end(workers, alloc, io::empty(), stop, listeners)?;
    let mut got = [0u8; 10];
    let has_ended = fill(&mut input, &mut got) == Ok(0);
    door.done(input, output);
    Ok(has_ended && matches!(door.accept(), Ok(None)))
}

#[test]
fn the_end_of_an_input_stops_a_connection_and_its_door(rt: HostRuntime) -> Result<(), Fail> {
    let alloc = rt.alloc();
    let mut told = Vec::new(alloc);
    let addresses = ["127.0.0.1:0", "127.0.0.1:0", "none"];
    let mut listeners = bind_all(&rt, alloc, &addresses, &mut told)?;
    assert!(rt; told.as_slice() == b"taosd: none: invalid socket address\n".as_slice());
    let Some(Some(listener)) = listeners.first() else {
        return Err(Fail::from(io::Error::from(io::ErrorKind::NotFound)));
    };
    let stop = Arc::new(alloc, Stop::new())?;
    let peer = TcpStream::connect(&rt, listener.local_addr()?)?;
    let doorway = Doorway::Bound(Arc::try_clone(listener)?);
    let mut door = door_of(&rt, doorway, &stop, 60_000)?;
    assert!(rt; is_stopped(&rt, alloc, &mut door, &stop, &listeners)?);
    drop(peer);
    assert!(rt; matches!(listeners.pop(), Some(None)) && matches!(listeners.pop(), Some(None)));
    Ok(())
}

#[test]
fn a_door_with_no_listener_has_ended_or_fails(rt: HostRuntime) -> Result<(), Fail> {
    let stop = Arc::new(rt.alloc(), Stop::new())?;
    let mut ended = door_of(&rt, Doorway::Ended, &stop, 1)?;
    let mut unbound = door_of(&rt, Doorway::Unbound, &stop, 1)?;
    assert!(rt; matches!(ended.accept(), Ok(None)) && ended.faults() == 0);
    assert!(rt; matches!(unbound.accept(), Err(Failed)) && unbound.faults() == 1);
    Ok(())
}

// A list, and how many addresses it has.
const LISTS: &[(&str, Option<usize>)] = &[
    ("-", Some(0)),
    ("", Some(1)),
    ("a:1", Some(1)),
    ("a:1,-", Some(2)),
    (",,,,,,,,,,,,,,,", Some(16)),
    (",,,,,,,,,,,,,,,,", None),
];

#[test]
fn a_list_has_up_to_sixteen_addresses(rt: HostRuntime) {
    for &(list, count) in LISTS {
        let addresses = addresses_of(list);
        assert!(rt; addresses.map(|it| it.len()) == count, "at {list}");
    }
    let addresses = ["a:1", "b:1", "a:1"];
    assert!(rt; first_place(&addresses, 2) == 0 && first_place(&addresses, 1) == 1);
}
