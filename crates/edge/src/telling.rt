//! What is told of what goes otherwise than well, and counted: what the lanes leave it by, and who tells it.

use crate::decisions::{Logs, Losses};
use crate::own::Own;
use crate::setting::Setting;
use crate::usage::VERSION_NUMBER;
use node_commands::{Wanted, file_opening};
use node_file::Opening;
use node_telling::{
    Counted, Counting, Form, Journals, Listener, NoticeQueue, Rounds, Scribe, Served, StatusDoor,
    Stop, Tally, Teller, Tells, notices_of, teller_of,
};
use std::alloc::{AllocError, Global};
use std::fs::File;
use std::io;
use std::io::ErrorKind;
use std::sync::Arc;
use std::thread::Threads;
use system_io::{FileReading, Origin, bind_all};

/// What so many lanes leave notices and counts by, what a switch does behind them, and who tells them.
/// Where nothing is wanted there is none of these.
#[derive(Drop)]
pub struct Told {
    pub tellers: Vec<Teller>,
    pub scribe: Option<Scribe>,
    pub status: Option<StatusDoor>,
    /// Where it answers.
    pub page: Option<String>,
    /// What tells of rulings that could not be recorded, where they are to be.
    pub losses: Option<Losses>,
}

impl Told {
    // Nothing is wanted.
    fn nothing(alloc: Global) -> Told {
        Told {
            tellers: Vec::new(alloc),
            scribe: None,
            status: None,
            page: None,
            losses: None,
        }
    }

    /// Whether the program was stopped since a ruling could not be recorded.
    pub fn has_stopped(&self) -> bool {
        match &self.losses {
            Some(losses) => losses.has_stopped(),
            None => false,
        }
    }

    /// Tells that a ruling could not be recorded, where that was not told yet: who looks after the log
    /// ends with the program, and may not look again.
    pub fn tell_losses(&self, rt: &HostRuntime) {
        if let Some(losses) = &self.losses {
            losses.tell(rt);
        }
    }
}

// What a lane leaves notices and counts by.
#[derive(Drop)]
struct Ends {
    tellers: Vec<Teller>,
    queues: Vec<NoticeQueue>,
    counted: Counted,
}

// Where one more lane counts.
fn counting_of(alloc: Global, counted: &mut Counted) -> Result<Counting, AllocError> {
    let tally = Arc::new(alloc, Tally::new(alloc)?)?;
    counted.tallies.push(Arc::try_clone(&tally)?)?;
    let journals = Arc::try_clone(&counted.journals)?;
    Ok(Counting { tally, journals })
}

// The ends of so many lanes, and of a switch behind them, and the log that the lanes write.
fn ends_of(alloc: Global, own: &Own<'_>, lanes: usize, logs: &Option<Logs>) -> io::Result<Ends> {
    let counted = Counted {
        version: VERSION_NUMBER,
        tallies: Vec::new(alloc),
        journals: Arc::new(alloc, Journals::new(alloc)?)?,
    };
    let mut ends = Ends {
        tellers: Vec::new(alloc),
        queues: Vec::new(alloc),
        counted,
    };
    for lane in 0..=lanes {
        let counting = counting_of(alloc, &mut ends.counted)?;
        let (mut notices, queue) = notices_of(alloc, lane, own.tells, Some(counting))?;
        if let Some(logs) = logs {
            if lane < lanes {
                notices = notices.recorded(logs.of_lane(alloc)?);
            }
        }
        ends.tellers.push(Some(Arc::new(alloc, notices)?))?;
        ends.queues.push(queue)?;
    }
    Ok(ends)
}

// An address where who asks is answered: a port alone is one of this machine.
fn place_of(alloc: Global, address: &str) -> Result<String, AllocError> {
    match address.contains(":") {
        true => String::from_str(alloc, address),
        false => format!(in alloc; "127.0.0.1:{address}"),
    }
}

// Who answers at this address what is counted, and the address as it was bound.
fn door_of<W: Threads>(
    rt: &HostRuntime,
    workers: &W,
    address: &str,
    counted: Counted,
) -> io::Result<(StatusDoor, String)> {
    let place = place_of(rt.alloc(), address)?;
    let listeners = bind_all(rt, rt.alloc(), &[place.as_str()], &mut rt.stderr())?;
    match listeners.first() {
        Some(Some(listener)) => {
            let bound = listener.local_addr()?.to_string(rt.alloc())?;
            let listener = Arc::try_clone(listener)?;
            let door = StatusDoor::start(workers, *rt, rt.alloc(), listener, counted)?;
            Ok((door, bound))
        }
        _ => Err(io::Error::from(ErrorKind::AddrNotAvailable)),
    }
}

/// What an opening has.
pub fn served_by(opening: &Opening) -> Served {
    Served {
        node: opening.node,
        channels: opening.channels.count() as u64,
        objects: opening.objects.count() as u64,
        shards: opening.shards,
        journal: opening.limit,
    }
}

/// The node that is served, by a file that can be read twice.
pub fn served_of(rt: &HostRuntime, setting: &Setting<'_>) -> Option<Served> {
    if !matches!(setting.wanted, Wanted::Serve { .. } | Wanted::Run { .. }) {
        return None;
    }
    let file = File::open(rt, setting.path).ok()?;
    if !file.metadata().ok()?.is_file() {
        return None;
    }
    let mut reading = FileReading::new(Origin::Open(file), setting.path, io::sink());
    match file_opening(rt.alloc(), &mut reading) {
        Ok(opening) => Some(served_by(&opening)),
        Err(_) => None,
    }
}

// The log of rulings, where they are recorded.
fn logs_of(
    rt: &HostRuntime,
    own: &Own<'_>,
    stop: &Arc<Stop, Global>,
    listeners: &[Option<Listener>],
) -> io::Result<Option<Logs>> {
    match own.decisions {
        Some(path) => Ok(Some(Logs::of(rt, path, own.may_drop, stop, listeners)?)),
        None => Ok(None),
    }
}

// Looks after the log from now on. What tells what could not be written there.
fn losses_of<W: Threads>(
    rt: &HostRuntime,
    workers: &W,
    logs: Option<Logs>,
) -> io::Result<Option<Losses>> {
    let Some(logs) = logs else {
        return Ok(None);
    };
    let losses = logs.losses(rt.alloc())?;
    logs.watch(rt, workers)?;
    Ok(Some(losses))
}

// Who answers what is counted, and where, where that is wanted.
fn answering_of<W: Threads>(
    rt: &HostRuntime,
    workers: &W,
    own: &Own<'_>,
    counted: Counted,
) -> io::Result<(Option<StatusDoor>, Option<String>)> {
    match own.status {
        Some(address) => {
            let (door, page) = door_of(rt, workers, address, counted)?;
            Ok((Some(door), Some(page)))
        }
        None => Ok((None, None)),
    }
}

// Who writes the notices, where some are wanted.
fn scribe_of<W: Threads>(
    rt: &HostRuntime,
    workers: &W,
    own: &Own<'_>,
    queues: Vec<NoticeQueue>,
) -> io::Result<Option<Scribe>> {
    let form = own.form.unwrap_or(Form::Text);
    match own.tells {
        Tells::Nothing => Ok(None),
        _ => Ok(Some(Scribe::start(workers, rt.alloc(), form, *rt, rt.stderr(), queues)?)),
    }
}

/// Begins to tell what the options want of the lanes.
pub fn told_of<W: Threads>(
    rt: &HostRuntime,
    workers: &W,
    own: &Own<'_>,
    setting: &Setting<'_>,
    stop: &Arc<Stop, Global>,
    listeners: &[Option<Listener>],
) -> io::Result<Told> {
    let alloc = rt.alloc();
    if !own.watches() {
        return Ok(Told::nothing(alloc));
    }
    let lanes = setting.addresses.len().max(1);
    let logs = logs_of(rt, own, stop, listeners)?;
    let Ends {
        tellers,
        queues,
        counted,
    } = ends_of(alloc, own, lanes, &logs)?;
    let losses = losses_of(rt, workers, logs)?;
    if let Some(served) = served_of(rt, setting) {
        counted.journals.have_room(served.journal);
    }
    let (status, page) = answering_of(rt, workers, own, counted)?;
    Ok(Told {
        tellers,
        scribe: scribe_of(rt, workers, own, queues)?,
        status,
        page,
        losses,
    })
}

/// Lets who tells end.
pub fn end_telling<W: Threads>(told: Told, workers: &W, rt: &HostRuntime) {
    let Told { scribe, status, .. } = told;
    if let Some(status) = status {
        status.end(workers);
    }
    if let Some(scribe) = scribe {
        scribe.end(workers, rt);
    }
}

/// What the standard output leaves notices by: as the first lane, where the command writes frames to it.
pub fn output_teller(wanted: Wanted<'_>, tellers: &[Teller]) -> Teller {
    let writes_frames = matches!(wanted, Wanted::Run { .. } | Wanted::Relay { .. });
    match tellers.first() {
        Some(teller) if writes_frames => teller_of(teller).unwrap_or(None),
        _ => None,
    }
}

/// By which rounds the notices of standard output are told. Without notices there is none: no peer stands
/// behind it who may be silent for longer once a reply shows that a frame was sealed right.
pub fn output_rounds(teller: &Teller, rounds: &Arc<Rounds, Global>) -> Option<Arc<Rounds, Global>> {
    match teller {
        Some(_) => Arc::try_clone(rounds).ok(),
        None => None,
    }
}
