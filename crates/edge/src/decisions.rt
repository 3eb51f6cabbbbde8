//! The log of decisions: its file, and a thread that opens it anew.

use node_telling::{Decisions, Listener, Log, LogFile, Lost, Shutter, Stop, Stopping, tell_others};
use std::alloc::Global;
use std::fmt::Display;
use std::fs::{File, Metadata, OpenOptions};
use std::io::{ErrorKind, Write};
use std::os::unix::fs::{FileExt, FileTypeExt, MetadataExt, OpenOptionsExt};
use std::sync::Arc;
use std::sync::atomic::AtomicU64;
use std::thread::Threads;
use std::time::Duration;
use std::{fs, io, thread};

// Who may read it: its owner.
const MODE: u32 = 0o600;

// The milliseconds between two looks at where its path leads.
const LOOK: u64 = 250;

// Where the system tells its limits, and how the line of a file's greatest size begins.
const LIMITS: &str = "/proc/self/limits";

const SIZE: &str = "Max file size";

// Which file it is, as the system tells files apart.
#[derive(Clone, Copy, PartialEq, Eq)]
struct Identity {
    device: u64,
    number: u64,
}

// The most bytes that a file may have, where the system sets a limit.
fn size_limit(rt: &HostRuntime) -> Option<u64> {
    let text = fs::read_to_string(rt, LIMITS).ok()?;
    for line in text.lines() {
        if let Some(sizes) = line.strip_prefix(SIZE) {
            let first = sizes.split_ascii_whitespace().next()?;
            return first.parse::<u64>().ok();
        }
    }
    None
}

// The file at a path, to append to, made where there is none. A pipe that nobody reads yet is opened too: by
// one who could read it, for as long as that takes.
fn appended(rt: &HostRuntime, path: &str) -> io::Result<File> {
    let mut options = OpenOptions::new();
    options.append(true);
    options.create(true);
    options.mode(MODE);
    let is_pipe = match fs::metadata(rt, path) {
        Ok(about) => about.file_type().is_fifo(),
        Err(_) => false,
    };
    if is_pipe {
        let _reader = OpenOptions::new().read(true).write(true).open(rt, path)?;
        return options.open(rt, path);
    }
    options.open(rt, path)
}

// Whether the last line of a file that has so many bytes may be open. One that can't be read may.
fn is_open_at(rt: &HostRuntime, path: &str, len: u64) -> bool {
    if len == 0 {
        return false;
    }
    let mut last = [0u8];
    match File::open(rt, path) {
        Ok(file) => !matches!(file.read_at(&mut last, len - 1), Ok(1)) || last != *b"\n",
        Err(_) => true,
    }
}

fn identity_by(about: &Metadata) -> Identity {
    Identity {
        device: about.dev(),
        number: about.ino(),
    }
}

// The file at a path, and which it is. Who else may read or write it is told.
fn opened(rt: &HostRuntime, path: &str) -> io::Result<(LogFile, Identity)> {
    let file = appended(rt, path)?;
    let about = file.metadata()?;
    let mut is_open = false;
    if about.is_file() {
        tell_others(&mut rt.stderr(), path, &file);
        is_open = is_open_at(rt, path, about.len());
    }
    let file = LogFile::new(file, size_limit(rt), is_open);
    Ok((file, identity_by(&about)))
}

// Which file a path leads to, where it leads to one.
fn identity_of(rt: &HostRuntime, path: &str) -> Option<Identity> {
    let about = fs::metadata(rt, path).ok()?;
    Some(identity_by(&about))
}

/// A log, by which it is told that lanes could not write to it.
#[derive(Drop)]
pub struct Losses {
    path: String,
    log: Arc<Log, Global>,
}

/// A log, and who looks after its file.
#[derive(Drop)]
pub struct Logs {
    losses: Losses,
    // None where the path is gone and the file could not be made again.
    opened: Option<Identity>,
}

// What becomes of a line that can't be written.
fn lost_of(
    alloc: Global,
    may_drop: bool,
    stop: &Arc<Stop, Global>,
    listeners: &[Option<Listener>],
) -> io::Result<Lost> {
    if may_drop {
        return Ok(Lost::Dropped(AtomicU64::new(0)));
    }
    let mut shutters = Vec::new(alloc);
    for listener in listeners.iter().flatten() {
        shutters.push(Shutter::of(listener)?)?;
    }
    Ok(Lost::Stops(Stopping::new(Arc::try_clone(stop)?, shutters)))
}

impl Losses {
    /// Whether the program was stopped since a ruling could not be recorded.
    pub fn has_stopped(&self) -> bool {
        self.log.has_stopped()
    }

    /// Tells that a line could not be written, where one could not since this was told last.
    pub fn tell(&self, rt: &HostRuntime) {
        if self.log.take_failure() {
            self.tell_line(rt, &"a decision can't be written");
        }
    }

    // A line that can't be written is missing.
    fn tell_line<T: Display>(&self, rt: &HostRuntime, what: &T) {
        let _ = writeln!(rt.stderr(), "taosd: {}: {what}", self.path);
    }

    // The same, to tell it elsewhere too.
    fn again(&self, alloc: Global) -> io::Result<Losses> {
        Ok(Losses {
            path: String::from_str(alloc, self.path.as_str())?,
            log: Arc::try_clone(&self.log)?,
        })
    }
}

impl Logs {
    /// The log in the file at this path.
    pub fn of(
        rt: &HostRuntime,
        path: &str,
        may_drop: bool,
        stop: &Arc<Stop, Global>,
        listeners: &[Option<Listener>],
    ) -> io::Result<Logs> {
        let alloc = rt.alloc();
        let lost = lost_of(alloc, may_drop, stop, listeners)?;
        let (file, identity) = opened(rt, path)?;
        Ok(Logs {
            losses: Losses {
                path: String::from_str(alloc, path)?,
                log: Arc::new(alloc, Log::new(file, lost))?,
            },
            opened: Some(identity),
        })
    }

    /// What tells what could not be written.
    pub fn losses(&self, alloc: Global) -> io::Result<Losses> {
        self.losses.again(alloc)
    }

    /// The log as one more lane has it.
    pub fn of_lane(&self, alloc: Global) -> io::Result<Arc<Decisions, Global>> {
        let decisions = Decisions::new(alloc, Arc::try_clone(&self.losses.log)?)?;
        Ok(Arc::new(alloc, decisions)?)
    }

    // The path leads to no file, and none can be made there: no line can be written until one can.
    fn lose(&mut self, rt: &HostRuntime, reason: &io::Error) {
        if self.opened.is_some() && self.losses.log.replace(None) {
            self.opened = None;
            self.losses.tell_line(rt, reason);
        }
    }

    // Opens the file anew, where the path leads to another one, or to none.
    fn look(&mut self, rt: &HostRuntime) {
        self.losses.tell(rt);
        let path = self.losses.path.as_str();
        let found = identity_of(rt, path);
        if found.is_some() && found == self.opened {
            return;
        }
        match opened(rt, path) {
            Ok((file, identity)) => {
                if self.losses.log.replace(Some(file)) {
                    self.opened = Some(identity);
                }
            }
            Err(reason) => self.lose(rt, &reason),
        }
    }

    /// Looks after the file, by a thread of its own that ends with the program.
    pub fn watch<W: Threads>(self, rt: &HostRuntime, workers: &W) -> io::Result<()> {
        let (rt, mut logs) = (*rt, self);
        let watch = move || {
            for _ in 0..u64::MAX {
                thread::sleep(&rt, Duration::from_millis(LOOK));
                logs.look(&rt);
            }
        };
        match thread::spawn(workers, watch) {
            Ok(_) => Ok(()),
            Err(_) => Err(io::Error::from(ErrorKind::OutOfMemory)),
        }
    }
}
