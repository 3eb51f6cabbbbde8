ghost use Rattle.std.specs.Prelude.{◌≡◌, ◌≤◌, IfSome};

use frame_link::{Door, Failed};
use node_telling::{Rounds, Shutter, Stop, Teller, Tells, notices_of};
use std::alloc::{AllocError, Global};
use std::io::{Read, Write};
use std::net::{SocketAddr, TcpListener, TcpStream};
use std::sync::Arc;
use std::test::*;
use std::thread::{JoinHandle, Threads};
use std::time::Duration;
use std::{io, thread};
use system_hub::{Breakage, Edge, LaneEnd, Patience, Watch, start};

// What is done by a client, or seen of it.
enum Step {
    Opens(usize),
    Sends(usize, &'static [u8]),
    Hears(usize, &'static [u8]),
    // Its stream comes to its end, whatever comes before.
    Ends(usize),
    Closes(usize),
    // The listener is shut.
    Stops,
    // So many milliseconds pass.
    Waits(u64),
}

use Step::{Closes, Ends, Hears, Opens, Sends, Stops, Waits};
use system_io::{Doorway, TcpDoor, Terms};

// Two lanes and four seats, and the milliseconds that a client has. A lane answers a payload with its own number and the payload, but for
// one whose fifth byte is 255: that ends the lane's stream.
const CONVERSATIONS: &[(&str, u64, &[Step])] = &[
    (
        "each is answered by its lane",
        20_000,
        &[
            Opens(0),
            Opens(1),
            Sends(0, &[0, 0, 0, 5, 0, 0, 0, 0, 7]),
            Sends(1, &[0, 0, 0, 4, 0, 0, 0, 3]),
            Hears(1, &[0, 0, 0, 5, 1, 0, 0, 0, 3]),
            Hears(0, &[0, 0, 0, 6, 0, 0, 0, 0, 0, 7]),
        ],
    ),
    (
        "frames cut at each byte, and many in one piece",
        20_000,
        &[
            Opens(0),
            Sends(0, &[0]),
            Sends(0, &[0]),
            Sends(0, &[0]),
            Sends(0, &[4]),
            Sends(0, &[0]),
            Sends(0, &[0]),
            Sends(0, &[0]),
            Sends(0, &[1, 0, 0, 0, 1, 9, 0, 0, 0, 0, 0, 0, 0, 1, 8]),
            Hears(0, &[0, 0, 0, 5, 1, 0, 0, 0, 1, 0, 0, 0, 2, 1, 9]),
            Hears(0, &[0, 0, 0, 1, 1, 0, 0, 0, 2, 1, 8]),
        ],
    ),
    (
        "who has gone is answered nowhere",
        20_000,
        &[
            Opens(0),
            Sends(0, &[0, 0, 0, 1, 0, 0, 0, 0, 1, 0]),
            Closes(0),
            Opens(1),
            Sends(1, &[0, 0, 0, 1, 0]),
            Hears(1, &[0, 0, 0, 2, 0, 0]),
        ],
    ),
    (
        "a length above the limit ends its client alone, behind its answers",
        20_000,
        &[
            Opens(0),
            Opens(1),
            Sends(1, &[0, 0, 0, 1, 0, 0, 1, 0, 1]),
            Hears(1, &[0, 0, 0, 2, 0, 0]),
            Ends(1),
            Sends(0, &[0, 0, 0, 1, 0]),
            Hears(0, &[0, 0, 0, 2, 0, 0]),
        ],
    ),
    (
        "who is silent, and who is slow, is let go",
        500,
        &[
            Opens(0),
            Opens(1),
            Opens(2),
            Sends(1, &[0, 0, 0, 1, 0, 0]),
            Sends(2, &[0, 0, 0, 1, 0]),
            Ends(0),
            Ends(1),
            Ends(2),
        ],
    ),
    (
        "the fifth waits until a seat is free",
        20_000,
        &[
            Opens(0),
            Opens(1),
            Opens(2),
            Opens(3),
            Sends(3, &[0, 0, 0, 1, 0]),
            Hears(3, &[0, 0, 0, 2, 0, 0]),
            Opens(4),
            Sends(4, &[0, 0, 0, 1, 4]),
            Closes(0),
            Hears(4, &[0, 0, 0, 2, 0, 4]),
        ],
    ),
    (
        "a lane whose stream ends has another",
        20_000,
        &[
            Opens(0),
            Opens(1),
            Opens(2),
            Sends(0, &[0, 0, 0, 5, 0, 0, 0, 1, 255]),
            Ends(0),
            Sends(1, &[0, 0, 0, 4, 0, 0, 0, 0]),
            Hears(1, &[0, 0, 0, 5, 0, 0, 0, 0, 0]),
            Sends(2, &[0, 0, 0, 4, 0, 0, 0, 1]),
            Hears(2, &[0, 0, 0, 5, 1, 0, 0, 0, 1]),
        ],
    ),
    (
        "a stop answers what was taken",
        20_000,
        &[
            Opens(0),
            Opens(1),
            Sends(0, &[0, 0, 0, 1, 0]),
            Hears(0, &[0, 0, 0, 2, 0, 0]),
            Stops,
            Ends(0),
            Ends(1),
        ],
    ),
    (
        "a stop is seen while each seat is taken",
        20_000,
        &[
            Opens(0),
            Opens(1),
            Opens(2),
            Opens(3),
            Sends(3, &[0, 0, 0, 1, 0]),
            Hears(3, &[0, 0, 0, 2, 0, 0]),
            Opens(4),
            Stops,
            Ends(0),
            Ends(3),
            Ends(4),
        ],
    ),
    (
        "who is let go may still send, and its stream is not reset",
        500,
        &[
            Opens(0),
            Opens(1),
            Sends(0, &[0, 0, 0, 1, 0, 0]),
            Sends(1, &[0, 0, 0, 5, 0, 0, 0, 1, 255]),
            Ends(0),
            Sends(0, &[0]),
            Sends(0, &[0]),
            Ends(1),
            Sends(1, &[0]),
            Sends(1, &[0]),
        ],
    ),
];

// Lanes that come behind 11 seconds: who waits for one is let go after 10, and who comes then is served.
const LATE: &[Step] = &[
    Opens(0),
    Sends(0, &[0, 0, 0, 1, 0]),
    Ends(0),
    Waits(2_000),
    Opens(1),
    Sends(1, &[0, 0, 0, 1, 7]),
    Hears(1, &[0, 0, 0, 2, 0, 7]),
];

// A switch of four seats whose clients have so many milliseconds, but 20 seconds to send what nobody
// reads.
fn edge_of(patience: u64) -> Edge
    ensures { result.clients ≡ 4 }
{
    let patience = Duration::from_millis(patience);
    Edge {
        clients: 4,
        place: 0,
        patience: Patience {
            first: patience,
            frame: patience,
            idle: patience,
            take: patience,
            linger: Duration::from_secs(20),
        },
    }
}

// Nobody is told.
#[derive(Clone, Copy)]
struct Deaf;

impl Watch for Deaf {
    fn is_sealed(&self, _reply: &[u8]) -> bool {
        true
    }

    fn came(&self) {}

    fn went(&self) {}

    fn broke(&self, _peer: SocketAddr, _why: Breakage) {}

    fn scarce(&self) {}

    fn full(&self) {}
}

// Reads one payload, of a few bytes at most. `None` at the end of the stream.
fn payload_of(stream: &mut TcpStream, into: &mut [u8; 16]) -> Option<usize>
    ensures { IfSome result (λ length. length ≤ 16) }
{
    let mut word = [0u8; 4];
    stream.read_exact(&mut word).ok()?;
    let length = u32::from_be_bytes(word);
    if length > 16 {
        return None;
    }
    let length = length as usize;
    stream.read_exact(into.get_mut(..length)?).ok()?;
    Some(length)
}

// Answers the payloads of a lane's stream, until it ends or is to end.
fn answer_all(stream: &mut TcpStream, number: u8) {
    let mut payload = [0u8; 16];
    for _ in 0..u64::MAX {
        let Some(length) = payload_of(stream, &mut payload) else {
            return;
        };
        if length > 4 && payload[4] == 255 {
            return;
        }
        let word = (length as u32 + 1).to_be_bytes();
        let rest = &payload[..length];
        let is_written = stream
            .write_all(&word)
            .and_then(|()| stream.write_all(&[number]))
            .and_then(|()| stream.write_all(rest));
        if is_written.is_err() {
            return;
        }
    }
}

// A lane that comes so late, until its switch ends.
fn serve(rt: HostRuntime, end: LaneEnd, number: u8, late: Duration) {
    thread::sleep(&rt, late);
    for _ in 0..u64::MAX {
        let Ok(Some(mut stream)) = end.stream(&rt) else {
            return;
        };
        answer_all(&mut stream, number);
    }
}

// A thread for each lane.
fn lanes_of<W: Threads>(
    rt: HostRuntime,
    workers: &W,
    ends: Vec<LaneEnd>,
    late: Duration,
) -> io::Result<Vec<JoinHandle<()>>> {
    let mut lanes = Vec::new(rt.alloc());
    let mut number = 0u8;
    for end in ends {
        let work = move || serve(rt, end, number, late);
        lanes.push(thread::spawn(workers, work)?)?;
        number = number.saturating_add(1);
    }
    Ok(lanes)
}

// Whether a stream comes to its end.
fn has_end(stream: &mut TcpStream) -> io::Result<bool> {
    let mut room = [0u8; 16];
    for _ in 0..64 {
        match stream.read(&mut room) {
            Ok(0) => return Ok(true),
            Ok(_) => {}
            Err(error) => return Ok(error.kind() == io::ErrorKind::ConnectionReset),
        }
    }
    Ok(false)
}

// The clients of a conversation.
#[derive(Drop)]
struct Players {
    rt: HostRuntime,
    listener: TcpListener,
    streams: [Option<TcpStream>; 5],
}

impl Players {
    fn stream(&mut self, client: usize) -> io::Result<&mut TcpStream> {
        match self.streams.get_mut(client) {
            Some(Some(stream)) => Ok(stream),
            _ => Err(io::Error::from(io::ErrorKind::NotConnected)),
        }
    }

    // Whether a step came about.
    fn play(&mut self, step: &Step) -> io::Result<bool> {
        match *step {
            Opens(client) => {
                let stream = TcpStream::connect(&self.rt, self.listener.local_addr()?)?;
                stream.set_read_timeout(Some(Duration::from_secs(20)))?;
                if let Some(place) = self.streams.get_mut(client) {
                    *place = Some(stream);
                }
                Ok(true)
            }
            Sends(client, bytes) => {
                self.stream(client)?.write_all(bytes)?;
                Ok(true)
            }
            Hears(client, bytes) => {
                let mut got = [0u8; 16];
                let Some(got) = got.get_mut(..bytes.len()) else {
                    return Ok(false);
                };
                self.stream(client)?.read_exact(got)?;
                Ok(&*got == bytes)
            }
            Ends(client) => has_end(self.stream(client)?),
            Closes(client) => {
                if let Some(place) = self.streams.get_mut(client) {
                    *place = None;
                }
                Ok(true)
            }
            Stops => {
                Shutter::of(&self.listener)?.shut();
                Ok(true)
            }
            Waits(length) => {
                thread::sleep(&self.rt, Duration::from_millis(length));
                Ok(true)
            }
        }
    }
}

// Plays a conversation over a switch of its own, whose lanes come so late. The place of the first step
// that did not come about, where there is one.
fn play_all<W: Threads>(
    rt: HostRuntime,
    workers: &W,
    patience: u64,
    late: Duration,
    steps: &[Step],
) -> io::Result<Option<usize>> {
    let listener = TcpListener::bind(&rt, "127.0.0.1:0")?;
    let (running, ends) = start(
        workers,
        rt,
        rt.alloc(),
        edge_of(patience),
        Deaf,
        &[&listener],
        2,
    )?;
    let lanes = lanes_of(rt, workers, ends, late)?;
    let mut players = Players {
        rt,
        listener,
        streams: [None, None, None, None, None],
    };
    let mut failed = None;
    for place in 0..steps.len() {
        if failed.is_none() && !players.play(&steps[place]).unwrap_or(false) {
            failed = Some(place);
        }
    }
    Shutter::of(&players.listener)?.shut();
    drop(players);
    running.end(workers);
    for lane in lanes {
        lane.join(workers);
    }
    Ok(failed)
}

#[test]
fn many_clients_are_served_by_few_lanes(rt: HostRuntime) -> Result<(), Fail> {
    for (name, patience, steps) in CONVERSATIONS {
        let failed = play_all(rt, &rt, *patience, Duration::ZERO, steps)?;
        assert!(rt; failed.is_none(), "{name}: {failed:?}");
    }
    Ok(())
}

#[test]
fn a_lane_that_comes_late_has_clients_again(rt: HostRuntime) -> Result<(), Fail> {
    let failed = play_all(rt, &rt, 20_000, Duration::from_secs(11), LATE)?;
    assert!(rt; failed.is_none(), "{failed:?}");
    Ok(())
}

// A door behind which a switch gives one stream after the other.
fn merged_door<'a>(
    rt: &'a HostRuntime,
    alloc: Global,
    end: LaneEnd,
    teller: Teller,
) -> Result<TcpDoor<&'a HostRuntime>, AllocError> {
    let terms = Terms {
        clock: rt,
        stop: Arc::new(alloc, Stop::new())?,
        idle: Duration::from_secs(60),
        teller,
        rounds: Arc::new(alloc, Rounds::new())?,
    };
    Ok(TcpDoor::new(Doorway::Merged(end), alloc, terms))
}

#[test]
fn a_door_ends_or_fails_as_its_switch_did(rt: HostRuntime) -> Result<(), Fail> {
    let (near, end) = LaneEnd::pair(rt.alloc())?;
    near.close(Ok(()));
    let mut door = merged_door(&rt, rt.alloc(), end, None)?;
    assert!(rt; matches!(door.accept(), Ok(None)) && door.faults() == 0);
    let (near, end) = LaneEnd::pair(rt.alloc())?;
    near.close(Err(Failed));
    let mut door = merged_door(&rt, rt.alloc(), end, None)?;
    assert!(rt; matches!(door.accept(), Err(Failed)) && door.faults() == 1);
    Ok(())
}

// Whether a door has a stream, which it is given back before the stream has ended.
fn is_given_back<D: Door>(door: &mut D) -> bool {
    let Ok(Some((input, output))) = door.accept() else {
        return false;
    };
    door.done(input, output);
    true
}

#[test]
fn a_stream_of_many_clients_has_no_notice_of_its_own(rt: HostRuntime) -> Result<(), Fail> {
    let alloc = rt.alloc();
    let (notices, mut queue) = notices_of(alloc, 2, Tells::Refusals, None)?;
    let listener = TcpListener::bind(&rt, "127.0.0.1:0")?;
    let (running, mut ends) = start(&rt, rt, alloc, edge_of(500), Deaf, &[&listener], 1)?;
    let Some(end) = ends.pop() else {
        return Err(Fail::from(io::Error::from(io::ErrorKind::NotFound)));
    };
    let mut door = merged_door(&rt, alloc, end, Some(Arc::new(alloc, notices)?))?;
    let is_given_back = is_given_back(&mut door);
    Shutter::of(&listener)?.shut();
    running.end(&rt);
    assert!(rt; is_given_back && queue.take().is_none());
    Ok(())
}
