//! A lane as the switch sees it: frames for it, and replies that come of it.

ghost use Rattle.std.specs.Prelude.{◌≡◌, ◌≤◌, ◌<◌, length, IfOk};

use crate::lane_end::LaneEnd;
use crate::limits::PIECE;
use crate::machine::buffer::Buffer;
use crate::place::Place;
use mio::net::UnixStream;
use std::alloc::{AllocError, Global};
use std::io::{ErrorKind, Write};
use std::time::Instant;

/// A lane as the switch sees it.
#[derive(Drop)]
pub(crate) struct Port {
    /// The switch's end of its stream, while it has one.
    pub stream: Option<UnixStream>,
    /// Since when it has none, or has left the one that it was given.
    pub gone: Option<Instant>,
    /// Through which its next stream goes to it.
    pub end: LaneEnd,
    /// Bytes of it may be there.
    pub may_read: bool,
    /// Its stream may be at its end.
    pub may_end: bool,
    /// Its socket tells when it takes bytes again.
    pub is_full: bool,
    out: Buffer,
    place: Place,
    reply: Vec<u8>,
    alloc: Global,
}

/// What became of a write.
#[derive(Clone, Copy, PartialEq, Eq)]
pub(crate) enum Written {
    /// All, or as much as the socket takes now.
    Some,
    /// The lane takes nothing any more.
    Lost,
}

impl Port {
    pub(crate) fn new(alloc: Global, end: LaneEnd, now: Instant) -> Port {
        Port {
            stream: None,
            gone: Some(now),
            end,
            may_read: false,
            may_end: false,
            is_full: false,
            out: Buffer::new(alloc),
            place: Place::new(),
            reply: Vec::new(alloc),
            alloc,
        }
    }

    /// It is given a new stream now, with nothing of the one before.
    pub(crate) fn begin(&mut self, stream: UnixStream, now: Instant) {
        self.stream = Some(stream);
        self.gone = Some(now);
        self.may_read = true;
        self.may_end = false;
        self.is_full = false;
        self.out = Buffer::new(self.alloc);
        self.place = Place::new();
        self.forget();
    }

    // The reply that came is not wanted any more. The room of a large one is given back.
    fn forget(&mut self) {
        self.reply.clear();
        if self.reply.capacity() > PIECE {
            self.reply = Vec::new(self.alloc);
        }
    }

    /// It has a stream no more, since then. Frames in one that it has not taken are answered by nobody,
    /// so it is taken back.
    pub(crate) fn lose(&mut self, since: Instant) {
        self.end.take_back();
        self.stream = None;
        self.gone = Some(since);
        self.may_read = false;
    }

    /// Since when it is gone. It is here once it has taken a stream.
    pub(crate) fn gone_since(&mut self) -> Option<Instant> {
        if self.stream.is_some() && self.end.is_taken() {
            self.gone = None;
        }
        self.gone
    }

    /// How many bytes wait for its socket.
    pub(crate) fn waiting(&self) -> usize {
        self.out.bytes().len()
    }

    /// A frame for it.
    pub(crate) fn put(&mut self, payload: &[u8]) -> Result<(), AllocError> {
        let Ok(length) = u32::try_from(payload.len()) else {
            return Err(AllocError);
        };
        self.out.push_both(&length.to_be_bytes(), payload)
    }

    // One write. Whether more may be written now; none where the lane takes nothing any more.
    fn write_once(&mut self) -> Option<bool> {
        let stream = self.stream.as_mut()?;
        let left = self.out.bytes();
        if left.is_empty() {
            return Some(false);
        }
        match stream.write(left) {
            Ok(0) => None,
            Ok(count) => {
                self.out.cut(count);
                Some(true)
            }
            Err(error) => match error.kind() {
                ErrorKind::WouldBlock => Some(false),
                ErrorKind::Interrupted => Some(true),
                _ => None,
            },
        }
    }

    /// Writes what its socket takes.
    pub(crate) fn write(&mut self) -> Written {
        for _ in 0..u64::MAX {
            match self.write_once() {
                Some(true) => {}
                Some(false) => return Written::Some,
                None => return Written::Lost,
            }
        }
        Written::Lost
    }

    /// Takes some of the bytes that came of it, up to the end of a reply at most. How many, and
    /// whether a reply is whole with them.
    pub(crate) fn take(&mut self, bytes: &[u8]) -> Result<(usize, bool), AllocError>
        requires { 0 < length bytes.now }
        ensures bound { IfOk result (λ taken. taken.0 ≤ length bytes.now) }
        ensures some { IfOk result (λ taken. 0 < taken.0) }
    {
        let is_payload = self.place.is_inside();
        let (count, has_ended) = self.place.step(bytes);
        if is_payload {
            self.reply.extend_from_slice(&bytes[..count])?;
        } else {
            self.forget();
        }
        Ok((count, has_ended))
    }

    /// The reply that came last, or its begin.
    pub(crate) fn reply(&self) -> &[u8] {
        &self.reply
    }
}
