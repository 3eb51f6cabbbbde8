//! Through which a lane is given its stream.

use frame_link::Failed;
use std::alloc::{AllocError, Global};
use std::net::TcpStream;
use std::sync::{Arc, Mutex};
use std::thread;
use std::time::{Clock, Duration};

// The milliseconds until a lane that wants a stream looks again whether there is one.
const WAIT: u64 = 5;

// What lies between a lane and the switch.
#[derive(Drop)]
struct Slot {
    // The lane's end of a stream that it has not taken.
    stream: Option<TcpStream>,
    is_wanted: bool,
    // How the switch ended, once there will be no stream any more.
    ended: Option<Result<(), Failed>>,
}

/// One of the two ends through which a lane is given its streams, one after the other.
#[derive(Drop)]
pub struct LaneEnd {
    slot: Arc<Mutex<Slot>, Global>,
}

impl LaneEnd {
    /// The lane's, and the switch's.
    pub fn pair(alloc: Global) -> Result<(LaneEnd, LaneEnd), AllocError> {
        let slot = Slot {
            stream: None,
            is_wanted: true,
            ended: None,
        };
        let slot = Arc::new(alloc, Mutex::new(slot))?;
        let other = Arc::try_clone(&slot)?;
        Ok((LaneEnd { slot }, LaneEnd { slot: other }))
    }

    // A stream that lies there, or how the switch ended. `None` where neither is known yet.
    fn ask(&self) -> Option<Result<Option<TcpStream>, Failed>> {
        let mut slot = self.slot.try_lock()?;
        let stream = slot.stream.take();
        slot.is_wanted = stream.is_none();
        match (stream, slot.ended) {
            (Some(stream), _) => Some(Ok(Some(stream))),
            (None, Some(Ok(()))) => Some(Ok(None)),
            (None, Some(Err(Failed))) => Some(Err(Failed)),
            (None, None) => None,
        }
    }

    /// The lane's next stream, once there is one. `None` where there will be none any more, since the
    /// switch has stopped; a failure where it could not go on.
    pub fn stream<C: Clock>(&self, clock: &C) -> Result<Option<TcpStream>, Failed> {
        for _ in 0..u64::MAX {
            if let Some(answer) = self.ask() {
                return answer;
            }
            thread::sleep(clock, Duration::from_millis(WAIT));
        }
        Err(Failed)
    }

    // Whether the lane wants a stream, and none lies there.
    pub(crate) fn is_wanted(&self) -> bool {
        match self.slot.try_lock() {
            Some(slot) => slot.is_wanted && slot.stream.is_none() && slot.ended.is_none(),
            None => false,
        }
    }

    // Whether the lane has taken the stream that it was given.
    pub(crate) fn is_taken(&self) -> bool {
        match self.slot.try_lock() {
            Some(slot) => slot.stream.is_none(),
            None => false,
        }
    }

    // Gives the lane a stream. Where the lane looks just now, not: it is given one later.
    pub(crate) fn give(&self, stream: TcpStream) -> bool {
        match self.slot.try_lock() {
            Some(mut slot) => {
                slot.stream = Some(stream);
                true
            }
            None => false,
        }
    }

    // Takes back a stream that the lane has not taken: it is given another once it asks anew.
    pub(crate) fn take_back(&self) {
        if let Some(mut slot) = self.slot.try_lock() {
            if slot.stream.take().is_some() {
                slot.is_wanted = false;
            }
        }
    }

    /// The lane is given none any more, since the switch ended so.
    pub fn close(&self, ended: Result<(), Failed>) {
        for _ in 0..u64::MAX {
            if let Some(mut slot) = self.slot.try_lock() {
                slot.ended = Some(ended);
                return;
            }
        }
    }
}
