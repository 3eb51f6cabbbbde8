use arrayvec::ArrayVec;
use cred_pull::Fetch;
use frame_link::{Clock, Door, RelayLink, fill, pour};
use node_telling::{
    Breakage, Counting, Happening, Journals, NoticeQueue, Rounds, Stop, Tally, Tells, notices_of,
    push_page, status_of, teller_of,
};
use std::alloc::{AllocError, Global};
use std::io::{ErrorKind, Write};
use std::net::{Shutdown, SocketAddr, TcpListener, TcpStream};
use std::sync::Arc;
use std::test::*;
use std::time::Duration;
use std::{io, time};
use system_io::{ClockGuard, Doorway, LIMIT, SystemSeconds, TcpDoor, TcpFetch, TcpRelay, Terms};

// A clock that can't be read.
#[derive(Drop)]
struct Stopped;

impl time::Clock for Stopped {
    fn monotonic(&self) -> io::Result<Duration> {
        Err(io::Error::from(ErrorKind::InvalidData))
    }

    fn since_1970(&self) -> io::Result<Duration> {
        Err(io::Error::from(ErrorKind::InvalidData))
    }
}

// Whether the next notice is this.
fn tells(queue: &mut NoticeQueue, peer: Option<SocketAddr>, what: Happening) -> bool {
    match queue.take() {
        Some(notice) => notice.peer == peer && notice.what == what,
        None => false,
    }
}

#[test]
fn what_fails_is_told_as_what_it_is(rt: HostRuntime) -> Result<(), Fail> {
    let alloc = rt.alloc();
    let (notices, mut queue) = notices_of(alloc, 2, Tells::Refusals, None)?;
    let teller = Some(Arc::new(alloc, notices)?);
    let (nowhere, limit) = (String::new(alloc), Duration::from_secs(LIMIT));
    let rounds = Arc::new(alloc, Rounds::new())?;
    let mut relay = TcpRelay::new(&rt, alloc, nowhere, limit, rounds, teller_of(&teller)?);
    assert!(rt; relay.reseal(7, &[1, 9], &mut ArrayVec::new()).is_err());
    assert!(rt; tells(&mut queue, None, Happening::RelayFailed));
    let nowhere = String::new(alloc);
    let mut fetch = TcpFetch::new(&rt, alloc, nowhere, limit, teller_of(&teller)?);
    assert!(rt; fetch.fetch(alloc, 2, 7).is_err());
    assert!(rt; tells(&mut queue, None, Happening::FetchFailed));
    let guard = Arc::new(alloc, ClockGuard::new())?;
    let mut clock = SystemSeconds::new(Stopped, guard, teller);
    assert!(rt; clock.now().is_err());
    assert!(rt; tells(&mut queue, None, Happening::ClockFailed) && queue.take().is_none());
    Ok(())
}

// A relay's answer that brings a certificate of one byte, and a reply of status 4 that nobody sealed, but
// for its tag.
const ANSWER: [u8; 7] = [0, 0, 0, 3, 6, 0, 9];

const REFUSAL: [u8; 18] = [0, 0, 0, 46, 4, 0, 0, 0, 0, 0, 0, 0, 0, 0, 0, 0, 0, 4];

// Takes a connection that ends behind two bytes of a frame, and answers it by both.
fn answers_what_is_cut<D: Door>(door: &mut D) -> bool {
    let Ok(Some((mut input, mut output))) = door.accept() else {
        return false;
    };
    let is_cut = fill(&mut input, &mut [0u8; 4]) == Ok(2);
    let is_answered = pour(&mut output, &ANSWER).is_ok()
        && pour(&mut output, &REFUSAL).is_ok()
        && pour(&mut output, &[9; 32]).is_ok();
    door.done(input, output);
    is_cut && is_answered
}

// Lines of the page of a lane that had one connection.
const LINES: &[&str] = &[
    "taosd_connections_total 1\n",
    "taosd_connections_open 0\n",
    "taosd_broken_total{cause=\"cut\"} 1\n",
    "taosd_replies_total{status=\"4\"} 1\n",
    "taosd_answers_total{code=\"0\"} 1\n",
    "taosd_reply_microseconds_bucket{le=\"+Inf\"} 2\n",
];

// The first of these lines which a lane's page lacks.
fn missing_of(
    alloc: Global,
    tally: Arc<Tally, Global>,
    journals: &Journals,
) -> Result<Option<&'static str>, AllocError> {
    let mut tallies = Vec::new(alloc);
    tallies.push(tally)?;
    let status = status_of(alloc, 9, &tallies, journals)?;
    let mut text = String::new(alloc);
    push_page(alloc, &mut text, "0.1.0", &status)?;
    for &line in LINES {
        if !text.as_str().contains(line) {
            return Ok(Some(line));
        }
    }
    Ok(None)
}

#[test]
fn a_connection_is_told_and_counted_until_its_door_has_it_back(
    rt: HostRuntime,
) -> Result<(), Fail> {
    let alloc = rt.alloc();
    let tally = Arc::new(alloc, Tally::new(alloc)?)?;
    let journals = Arc::new(alloc, Journals::new(alloc)?)?;
    let counting = Counting {
        tally: Arc::try_clone(&tally)?,
        journals: Arc::try_clone(&journals)?,
    };
    let (notices, mut queue) = notices_of(alloc, 2, Tells::Refusals, Some(counting))?;
    let listener = TcpListener::bind(&rt, "127.0.0.1:0")?;
    let mut peer = TcpStream::connect(&rt, listener.local_addr()?)?;
    peer.write_all(&[0, 0])?;
    peer.shutdown(Shutdown::Write)?;
    let terms = Terms {
        clock: &rt,
        stop: Arc::new(alloc, Stop::new())?,
        idle: Duration::from_secs(60),
        teller: Some(Arc::new(alloc, notices)?),
        rounds: Arc::new(alloc, Rounds::timed(&rt))?,
    };
    let doorway = Doorway::Bound(Arc::new(alloc, listener)?);
    assert!(rt; answers_what_is_cut(&mut TcpDoor::new(doorway, alloc, terms)));
    let from = Some(peer.local_addr()?);
    let refusal = queue.take().map(|notice| notice.peer);
    assert!(rt; refusal == Some(from));
    assert!(rt; tells(&mut queue, from, Happening::Broken(Breakage::Cut)));
    assert!(rt; queue.take().is_none());
    assert!(rt; missing_of(alloc, tally, &journals)? == None);
    Ok(())
}
