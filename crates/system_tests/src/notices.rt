use node_telling::{
    Breakage, Form, Happening, LINES, LeftOut, Notice, NoticeQueue, Notices, Scribe, Telling,
    Tells, WAITING, code_of, notices_of, reply_at,
};
use std::alloc::{AllocError, Global};
use std::io::{Read, Write};
use std::net::{SocketAddr, TcpListener, TcpStream};
use std::sync::Arc;
use std::sync::atomic::{AtomicBool, Ordering};
use std::test::*;
use std::time::{Duration, Instant};
use std::{io, thread};

// The front of a reply on channel 4 to the request 7.
const FRONT: [u8; 13] = [4, 0, 0, 0, 4, 0, 0, 0, 0, 0, 0, 0, 7];

// And of one that is sealed by nobody.
const UNSEALED: [u8; 13] = [4, 0, 0, 0, 0, 0, 0, 0, 0, 0, 0, 0, 0];

// What stands behind such a front, from the status on, and the end of its line: by the table of
// replies in docs/FORMATS.md.
const REPLIES: &[(bool, &[u8], &str)] = &[
    (
        true,
        &[1, 0, 0, 0, 3, 0, 0, 0, 0, 0, 0, 1, 2, 3],
        "denied lane 2 channel 4 number 7 status 1 link no-entry shard 3 place 258",
    ),
    (
        true,
        &[1, 0, 0, 0, 3, 0, 0, 0, 0, 0, 0, 1, 2, 4, 0],
        "denied lane 2 channel 4 number 7 status 1 link early shard 3 place 258",
    ),
    (false, &[2, 0, 0, 0, 9], "refused lane 2 status 2"),
    (
        false,
        &[3, 0, 0, 1, 0],
        "refused lane 2 channel 256 status 3",
    ),
    (false, &[4], "refused lane 2 status 4"),
    (
        true,
        &[5, 0, 0, 0, 0, 0, 0, 0, 7],
        "refused lane 2 channel 4 number 7 status 5",
    ),
    (
        true,
        &[6, 1, 3],
        "refused lane 2 channel 4 number 7 status 6 code 3",
    ),
    (
        true,
        &[10, 0, 0, 0, 0, 5, 0, 0, 0, 0, 0, 0, 0, 8],
        "refused lane 2 channel 4 number 7 status 10",
    ),
    (
        true,
        &[10, 1, 0, 0, 0, 5, 0, 0, 0, 0, 0, 0, 0, 8],
        "refused lane 2 channel 4 number 7 status 10 shard 5",
    ),
    (false, &[11], "refused lane 2 status 11"),
    (true, &[11], "refused lane 2 channel 4 number 7 status 11"),
    (
        true,
        &[12, 32, 0, 0, 0, 6],
        "refused lane 2 channel 4 number 7 status 12 shard 6",
    ),
    (
        true,
        &[14, 64, 0, 0, 0, 6],
        "refused lane 2 channel 4 number 7 status 14 shard 6",
    ),
];

// The payload of a reply, with a tag.
fn reply_of(alloc: Global, is_sealed: bool, behind: &[u8]) -> Result<Vec<u8>, AllocError> {
    let mut payload = Vec::new(alloc);
    payload.extend_from_slice(match is_sealed {
        true => &FRONT,
        false => &UNSEALED,
    })?;
    payload.extend_from_slice(behind)?;
    payload.extend_from_slice(&[0xee; 32])?;
    Ok(payload)
}

// A notice at the first second of the year 2100, of lane 2.
fn notice_of(peer: Option<SocketAddr>, what: Happening) -> Notice {
    Notice {
        seconds: Some(4_102_444_800),
        lane: 2,
        peer,
        what,
        request: None,
    }
}

// Whether it is told by this line behind its time.
fn is_told(alloc: Global, notice: Notice, wanted: &str) -> Result<bool, AllocError> {
    let line = format!(in alloc; "{notice}")?;
    let wanted = format!(in alloc; "taosd: 2100-01-01T00:00:00Z {wanted}")?;
    Ok(line == wanted)
}

#[test]
fn a_line_has_what_its_reply_says_and_no_more(rt: HostRuntime) -> Result<(), Fail> {
    let alloc = rt.alloc();
    for &(is_sealed, behind, wanted) in REPLIES {
        let payload = reply_of(alloc, is_sealed, behind)?;
        let Some(front) = reply_at(&payload) else {
            return Err(Fail::from(io::Error::from(io::ErrorKind::NotFound)));
        };
        let notice = notice_of(None, Happening::Replied(front));
        assert!(rt; is_told(alloc, notice, wanted)?, "{wanted}");
    }
    assert!(rt; reply_at(&[]).is_none() && reply_at(&FRONT).is_none());
    assert!(rt; reply_at(&[6, 0, 0, 0, 4, 0, 0, 0, 0, 0, 0, 0, 7, 5]).is_none());
    assert!(rt;
        code_of(&[6, 3]) == Some(3) && code_of(&[6, 0, 1]) == None && code_of(&[6]) == None
    );
    Ok(())
}

// What else happens, and the end of its line.
const OTHERS: &[(Happening, &str)] = &[
    (
        Happening::NotResealed { code: 3 },
        "refused lane 2 peer 127.0.0.1:7000 code 3",
    ),
    (
        Happening::Broken(Breakage::Cut),
        "broken lane 2 peer 127.0.0.1:7000 cause cut",
    ),
    (
        Happening::RelayFailed,
        "relay-failed lane 2 peer 127.0.0.1:7000",
    ),
    (
        Happening::FetchFailed,
        "fetch-failed lane 2 peer 127.0.0.1:7000",
    ),
];

#[test]
fn a_line_has_its_peer_and_its_cause(rt: HostRuntime) -> Result<(), Fail> {
    let alloc = rt.alloc();
    let Ok(peer) = "127.0.0.1:7000".parse::<SocketAddr>() else {
        return Err(Fail::from(io::Error::from(io::ErrorKind::NotFound)));
    };
    for &(what, wanted) in OTHERS {
        assert!(rt;
            is_told(alloc, notice_of(Some(peer), what), wanted)?,
            "{wanted}"
        );
    }
    let none = LeftOut {
        seconds: None,
        count: 7,
    };
    assert!(rt; format!(in alloc; "{none}")?.as_str() == "taosd: - left-out lines 7");
    Ok(())
}

// How many notices wait.
fn count_of(queue: &mut NoticeQueue) -> usize {
    let mut count: usize = 0;
    for _ in 0..2 * WAITING {
        if queue.take().is_some() {
            count = count.saturating_add(1);
        }
    }
    count
}

#[test]
fn a_queue_that_is_full_counts_what_it_leaves_out(rt: HostRuntime) -> Result<(), Fail> {
    let (notices, mut queue) = notices_of(rt.alloc(), 2, Tells::Refusals, None)?;
    for _ in 0..WAITING + 6 {
        notices.tell(&rt, None, Happening::RelayFailed);
    }
    assert!(rt; queue.take_left_out() == 6 && queue.take_left_out() == 0);
    assert!(rt; count_of(&mut queue) == WAITING);
    notices.tell(&rt, None, Happening::RelayFailed);
    assert!(rt; queue.take().is_some() && queue.take_left_out() == 0);
    Ok(())
}

// Writes frames in pieces of so many bytes: a grant whose content is a refusal, an empty frame, a
// denial, and a reply of status 5. How many of them leave notices.
fn told_of(rt: &HostRuntime, size: usize, tells: Tells) -> Result<usize, Fail> {
    let alloc = rt.alloc();
    let (notices, mut queue) = notices_of(alloc, 2, tells, None)?;
    let teller = Some(Arc::new(alloc, notices)?);
    let mut output = Telling::new(io::sink(), rt, None, teller, None);
    let mut frames = Vec::new(alloc);
    let refusal = reply_of(alloc, true, &[5, 0, 0, 0, 0, 0, 0, 0, 7])?;
    let mut grant = reply_of(alloc, true, &[0; 600])?;
    grant.extend_from_slice(&[0, 0, 0, 14])?;
    grant.extend_from_slice(&refusal)?;
    let denial = reply_of(alloc, true, &[1; 13])?;
    for payload in [&grant, &Vec::new(alloc), &denial, &refusal] {
        let length = u32::try_from(payload.len()).unwrap_or(0);
        frames.extend_from_slice(&length.to_be_bytes())?;
        frames.extend_from_slice(payload)?;
    }
    for piece in frames.chunks(size.max(1)) {
        output.write_all(piece)?;
    }
    Ok(count_of(&mut queue))
}

#[test]
fn frames_are_told_however_they_are_cut(rt: HostRuntime) -> Result<(), Fail> {
    for size in [1, 2, 3, 5, 17, 64, 700, 10_000] {
        assert!(rt;
            told_of(&rt, size, Tells::Refusals)? == 1
                && told_of(&rt, size, Tells::Denials)? == 2
                && told_of(&rt, size, Tells::Nothing)? == 0,
            "at {size}"
        );
    }
    Ok(())
}

// The queues of sixteen lanes, all full.
fn full_queues(rt: &HostRuntime) -> Result<Vec<NoticeQueue>, AllocError> {
    let mut queues = Vec::new(rt.alloc());
    for lane in 0..16 {
        let (notices, queue) = notices_of(rt.alloc(), lane, Tells::Refusals, None)?;
        for _ in 0..WAITING {
            notices.tell(rt, None, Happening::RelayFailed);
        }
        queues.push(queue)?;
    }
    Ok(queues)
}

#[test]
fn the_lines_of_a_second_are_so_many_and_the_others_are_counted(
    rt: HostRuntime,
) -> Result<(), Fail> {
    let alloc = rt.alloc();
    let listener = TcpListener::bind(&rt, "127.0.0.1:0")?;
    let errors = TcpStream::connect(&rt, listener.local_addr()?)?;
    let (mut told, _) = listener.accept()?;
    let began = Instant::now(&rt)?;
    let scribe = Scribe::start(&rt, alloc, Form::Text, rt, errors, full_queues(&rt)?)?;
    scribe.end(&rt, &rt);
    let seconds = began.elapsed(&rt)?.as_secs();
    let mut text = String::new(alloc);
    told.read_to_string(&mut text)?;
    let mut count = 0u64;
    for line in text.lines() {
        if line.contains(" relay-failed lane ") {
            count = count.saturating_add(1);
        }
    }
    let rest = (16 * WAITING as u64).saturating_sub(count);
    let last = format!(in alloc; " left-out lines {rest}\n")?;
    // Those of the end come besides.
    let most = (LINES as u64).saturating_mul(seconds.saturating_add(2));
    assert!(rt; count >= LINES as u64 && count <= most, "{count}");
    assert!(rt; text.as_str().ends_with(last.as_str()));
    Ok(())
}

// A writer that takes nothing until it may.
#[derive(Drop)]
struct Stuck {
    system: HostRuntime,
    may_write: Arc<AtomicBool, Global>,
}

impl Write for Stuck {
    fn write(&mut self, piece: &[u8]) -> io::Result<usize> {
        for _ in 0..2_000 {
            if self.may_write.load(Ordering::SeqCst) {
                return Ok(piece.len());
            }
            thread::sleep(&self.system, Duration::from_millis(10));
        }
        Ok(piece.len())
    }

    fn flush(&mut self) -> io::Result<()> {
        Ok(())
    }
}

// Leaves a thousand notices. How long that takes.
fn flood(rt: &HostRuntime, notices: &Notices) -> io::Result<Duration> {
    let began = Instant::now(rt)?;
    for _ in 0..1_000 {
        notices.tell(rt, None, Happening::RelayFailed);
    }
    began.elapsed(rt)
}

#[test]
fn a_writer_that_takes_nothing_holds_nobody_up(rt: HostRuntime) -> Result<(), Fail> {
    let alloc = rt.alloc();
    let may_write = Arc::new(alloc, AtomicBool::new(false))?;
    let errors = Stuck {
        system: rt,
        may_write: Arc::try_clone(&may_write)?,
    };
    let (notices, queue) = notices_of(alloc, 0, Tells::Refusals, None)?;
    let mut queues = Vec::new(alloc);
    queues.push(queue)?;
    let scribe = Scribe::start(&rt, alloc, Form::Text, rt, errors, queues)?;
    let mut longest = Duration::from_secs(0);
    for _ in 0..4 {
        longest = longest.max(flood(&rt, &notices)?);
        thread::sleep(&rt, Duration::from_millis(100));
    }
    let began = Instant::now(&rt)?;
    scribe.end(&rt, &rt);
    let ending = began.elapsed(&rt)?;
    may_write.store(true, Ordering::SeqCst);
    assert!(rt; longest < Duration::from_secs(1) && ending < Duration::from_secs(10));
    Ok(())
}
