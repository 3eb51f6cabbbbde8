//! The thread that writes notices. Nobody but it waits for the writer.

ghost use Rattle.std.specs.Prelude.{◌≡◌, ◌≤◌};

use crate::notices::{NoticeQueue, WAITING};
use crate::seconds::seconds_of;
use crate::texts::notice::{LeftOut, Notice};
use crate::texts::notices::{left_out_line, notice_line};
use prin_text::Names;
use std::alloc::Global;
use std::io::{BufWriter, ErrorKind, Write};
use std::sync::Arc;
use std::sync::atomic::{AtomicBool, Ordering};
use std::thread::{JoinHandle, Threads};
use std::time::{Clock, Duration, SystemTime};
use std::{io, thread};

/// The most lines of notices in a second.
pub const LINES: usize = LOOK_LINES * LOOKS;

// The most lines of a look at the queues, and how many looks a second has.
const LOOK_LINES: usize = 25;

const LOOKS: usize = 4;

// A look's time in parts, behind each of which is seen whether the end has come.
const PARTS: u64 = 5;

const PART: u64 = 50;

/// The milliseconds that the end waits for the last lines.
pub const LAST: u64 = 2_000;

// The milliseconds between two looks for that.
const END_LOOK: u64 = 10;

// The bytes of the lines that are written in one call.
const ROOM: usize = 8_192;

// How far the thread is.
#[derive(Drop)]
struct Progress {
    // No lane leaves a notice any more.
    is_last: AtomicBool,
    // All is written.
    is_done: AtomicBool,
}

/// How notices are written.
#[derive(Clone, Copy, PartialEq, Eq)]
pub enum Form {
    /// As words.
    Text,
    /// Each as an object.
    Json,
}

// How the lines are made.
#[derive(Drop)]
struct Hand {
    alloc: Global,
    form: Form,
    names: Names,
}

// Writes the line of a notice. One that can't be written is missing.
fn write_notice<E: Write>(hand: &Hand, errors: &mut E, notice: &Notice) {
    match hand.form {
        Form::Text => {
            let _ = writeln!(errors, "{notice}");
        }
        Form::Json => {
            if let Ok(line) = notice_line(hand.alloc, &hand.names, notice) {
                let _ = errors.write_all(&line);
            }
        }
    }
}

// Writes so many notices at most, one of each queue after the other. How many lines that were.
fn write_some<E: Write>(
    hand: &Hand,
    errors: &mut E,
    queues: &mut [NoticeQueue],
    most: usize,
) -> usize
    ensures { result ≤ most }
{
    let mut count = 0;
    for _ in 0..most {
        let before = count;
        for queue in queues.iter_mut() {
            if count < most {
                if let Some(notice) = queue.take() {
                    write_notice(hand, errors, &notice);
                    count += 1;
                }
            }
        }
        if count == before {
            break;
        }
    }
    count
}

// Takes what waits yet, and says how much that is.
fn drop_rest(queues: &mut [NoticeQueue]) -> u64 {
    let mut count: u64 = 0;
    for queue in queues.iter_mut() {
        for _ in 0..WAITING {
            if queue.take().is_some() {
                count = count.saturating_add(1);
            }
        }
    }
    count
}

// How many notices there was no room for since the last time.
fn left_out(queues: &[NoticeQueue]) -> u64 {
    let mut count: u64 = 0;
    for queue in queues {
        count = count.saturating_add(queue.take_left_out());
    }
    count
}

// What the thread has.
#[derive(Drop)]
struct Desk<C, E: Write + Drop> {
    hand: Hand,
    clock: C,
    errors: BufWriter<E>,
    queues: Vec<NoticeQueue>,
    progress: Arc<Progress, Global>,
}

impl<C: Clock, E: Write + Drop> Desk<C, E> {
    fn write_count(&mut self, left_out: &LeftOut) {
        match self.hand.form {
            Form::Text => {
                let _ = writeln!(self.errors, "{left_out}");
            }
            Form::Json => {
                if let Ok(line) = left_out_line(self.hand.alloc, left_out) {
                    let _ = self.errors.write_all(&line);
                }
            }
        }
    }

    // Writes so many notices at most.
    fn write_notices(&mut self, most: usize) {
        let queues = self.queues.as_mut_slice();
        let _ = write_some(&self.hand, &mut self.errors, queues, most);
    }

    // Writes how many notices had no line, where some had none.
    fn write_left_out(&mut self, count: u64) {
        if count > 0 {
            let seconds = SystemTime::now(&self.clock).ok().map(seconds_of);
            let left_out = LeftOut { seconds, count };
            self.write_count(&left_out);
        }
    }

    // Waits for the next look, or the end.
    fn rest(&self) {
        for _ in 0..PARTS {
            if self.progress.is_last.load(Ordering::SeqCst) {
                return;
            }
            thread::sleep(&self.clock, Duration::from_millis(PART));
        }
    }

    // The last lines: those of one second, and how many notices had none.
    fn end(&mut self) {
        self.write_notices(LINES);
        let rest = drop_rest(self.queues.as_mut_slice());
        let count = left_out(self.queues.as_slice()).saturating_add(rest);
        self.write_left_out(count);
        let _ = self.errors.flush();
        self.progress.is_done.store(true, Ordering::SeqCst);
    }

    // Writes until the end.
    fn work(&mut self) {
        for look in 0..u64::MAX {
            if self.progress.is_last.load(Ordering::SeqCst) {
                return;
            }
            self.write_notices(LOOK_LINES);
            if look % LOOKS as u64 == 0 {
                let count = left_out(self.queues.as_slice());
                self.write_left_out(count);
            }
            let _ = self.errors.flush();
            self.rest();
        }
    }
}

/// The thread that writes notices.
#[derive(Drop)]
pub struct Scribe {
    thread: JoinHandle<()>,
    progress: Arc<Progress, Global>,
}

impl Scribe {
    /// Starts it.
    pub fn start<W: Threads, C: Clock + Send + Drop + 'static, E: Write + Send + Drop + 'static>(
        workers: &W,
        alloc: Global,
        form: Form,
        clock: C,
        errors: E,
        queues: Vec<NoticeQueue>,
    ) -> io::Result<Scribe> {
        let progress = Arc::new(
            alloc,
            Progress {
                is_last: AtomicBool::new(false),
                is_done: AtomicBool::new(false),
            },
        )?;
        let hand = Hand {
            alloc,
            form,
            names: Names::new(alloc)?,
        };
        let mut desk = Desk {
            hand,
            clock,
            errors: BufWriter::with_capacity(alloc, ROOM, errors)?,
            queues,
            progress: Arc::try_clone(&progress)?,
        };
        let write = move || {
            desk.work();
            desk.end();
        };
        match thread::spawn(workers, write) {
            Ok(thread) => Ok(Scribe { thread, progress }),
            Err(_) => Err(io::Error::from(ErrorKind::OutOfMemory)),
        }
    }

    // Waits for the last lines, for a short time. Whether they are written.
    fn is_through<C: Clock>(&self, clock: &C) -> bool {
        for _ in 0..LAST / END_LOOK {
            if self.progress.is_done.load(Ordering::SeqCst) {
                return true;
            }
            thread::sleep(clock, Duration::from_millis(END_LOOK));
        }
        false
    }

    /// Lets it write the last lines, and joins it. Where the writer takes nothing for `LAST`
    /// milliseconds it is left alone, and ends with the program.
    pub fn end<W: Threads, C: Clock>(self, workers: &W, clock: &C) {
        self.progress.is_last.store(true, Ordering::SeqCst);
        if self.is_through(clock) {
            self.thread.join(workers);
        }
    }
}
