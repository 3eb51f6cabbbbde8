//! A way to stop in order.

use crate::cut_short::is_cut_short;
use std::alloc::Global;
use std::io::{ErrorKind, Read};
use std::net::{Shutdown, TcpListener, TcpStream};
use std::os::fd::OwnedFd;
use std::sync::Arc;
use std::sync::atomic::{AtomicBool, Ordering};
use std::thread::Threads;
use std::{io, thread};

/// Whether the program was asked to stop. All doors and connections look at it.
#[derive(Drop)]
pub struct Stop {
    is_asked: AtomicBool,
}

impl Stop {
    /// Nobody has asked yet.
    pub fn new() -> Stop {
        Stop {
            is_asked: AtomicBool::new(false),
        }
    }

    /// Asks. There is no way back.
    pub fn ask(&self) {
        self.is_asked.store(true, Ordering::SeqCst);
    }

    /// Whether somebody has asked.
    pub fn is_asked(&self) -> bool {
        self.is_asked.load(Ordering::SeqCst)
    }
}

/// A listener that several doors may have.
pub type Listener = Arc<TcpListener, Global>;

/// A second handle of a listener. Where it is shut, each `accept` of the listener ends with an error,
/// those that wait too, and nobody is connected to it any more.
#[derive(Drop)]
pub struct Shutter {
    socket: TcpStream,
}

impl Shutter {
    pub fn of(listener: &TcpListener) -> io::Result<Shutter> {
        // The library shuts streams alone; the system shuts any socket.
        let socket = TcpStream::from(OwnedFd::from(listener.try_clone()?));
        Ok(Shutter { socket })
    }

    /// Shuts the listener. Where the system can't, an `accept` that waits goes on waiting.
    pub fn shut(&self) {
        let _ = self.socket.shutdown(Shutdown::Both);
    }
}

// Reads to the end, or until a read fails.
fn read_out<R: Read + Drop>(mut input: R) {
    let mut room = [0u8; 512];
    for _ in 0..u64::MAX {
        match input.read(&mut room) {
            Ok(0) => return,
            Ok(_) => {}
            Err(error) if is_cut_short(&error) => {}
            Err(_) => return,
        }
    }
}

// A handle to shut each of these listeners.
fn shutters_of(alloc: Global, listeners: &[Option<Listener>]) -> io::Result<Vec<Shutter>> {
    let mut shutters = Vec::new(alloc);
    for listener in listeners.iter().flatten() {
        shutters.push(Shutter::of(listener)?)?;
    }
    Ok(shutters)
}

/// Stops the program once an input has ended or can't be read: asks `stop`, then shuts all listeners.
/// That is done by a thread of its own, which ends with the program at the latest.
pub fn stop_at_end<W: Threads, R: Read + Send + Drop + 'static>(
    workers: &W,
    alloc: Global,
    input: R,
    stop: &Arc<Stop, Global>,
    listeners: &[Option<Listener>],
) -> io::Result<()> {
    let stop = Arc::try_clone(stop)?;
    let shutters = shutters_of(alloc, listeners)?;
    let watch = move || {
        read_out(input);
        stop.ask();
        for shutter in &shutters {
            shutter.shut();
        }
    };
    match thread::spawn(workers, watch) {
        Ok(_) => Ok(()),
        Err(_) => Err(io::Error::from(ErrorKind::OutOfMemory)),
    }
}
