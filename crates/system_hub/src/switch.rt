//! The switch: one thread that has all sockets.

ghost use Rattle.std.specs.Prelude.{◌≡◌, ◌≤◌, ◌<◌, length, vec_capacity};
ghost use Rattle.frame_link.specs.declared.service.TheConstants.{MAX_PAYLOAD};

use crate::accepting::Entrance;
use crate::hall::Hall;
use crate::limits::{ABSENCE, GUESTS, LOOK, OUT};
use crate::machine::limits::{MAX_AT_LANE, MAX_LANES};
use crate::port::{Port, Written};
use crate::tokens::{Socket, socket_of, token_of};
use crate::watch::Watch;
use frame_link::{Failed, MAX_PAYLOAD};
use mio::event::Event;
use mio::net::UnixStream;
use mio::{Events, Interest, Poll};
use std::io;
use std::io::{ErrorKind, Read};
use std::net::{Net, TcpListener, TcpStream};
use std::os::fd::OwnedFd;
use std::os::unix::net;
use std::time::{Clock, Duration, Instant};

/// Room for the longest frame.
#[derive(Drop)]
pub(crate) struct Room {
    pub payload: Vec<u8>,
    ghost room: { MAX_PAYLOAD ≤ vec_capacity payload },
}

/// All sockets, and what is read and written by them.
#[derive(Drop)]
pub(crate) struct Switch<S, N> {
    pub system: S,
    pub poll: Poll,
    pub hall: Hall<N>,
    pub ports: Vec<Port>,
    pub entrances: Vec<Entrance>,
    pub piece: Vec<u8>,
    pub frame: Room,
    /// When the clients are looked at next.
    pub next_look: Instant,
}

impl<S: Net<Listener = TcpListener, Stream = TcpStream> + Clock, N: Watch> Switch<S, N> {
    // What a socket is ready for.
    fn note(&mut self, event: &Event) {
        let may_end = event.is_read_closed() || event.is_error();
        let may_read = event.is_readable() || may_end;
        match socket_of(event.token()) {
            Socket::Client { seat } => {
                if may_read {
                    self.hall.hear(seat, &mut self.piece, may_end);
                }
                self.hall.settle(seat);
            }
            Socket::Lane { lane } => {
                if let Some(port) = self.ports.get_mut(lane) {
                    port.may_read |= may_read;
                    port.may_end |= may_end;
                }
            }
            Socket::Listener { place } => {
                if let Some(entrance) = self.entrances.get_mut(place) {
                    entrance.may_accept = true;
                    entrance.has_ended |= event.is_read_closed();
                }
            }
        }
    }

    // A lane has no stream any more: who waits for it there fails.
    fn lose(&mut self, lane: usize) {
        if let Some(port) = self.ports.get_mut(lane) {
            port.lose(self.hall.now);
        }
        self.hall.lane_lost(lane);
    }

    // Bytes of a lane, that are there in the piece. Whether all is well with it.
    fn pass(&mut self, lane: usize, count: usize) -> bool {
        let Some(port) = self.ports.get_mut(lane) else {
            return false;
        };
        let Some(mut rest) = self.piece.get(..count) else {
            return false;
        };
        for _ in 0..count {
            if rest.is_empty() {
                return true;
            }
            let Ok((taken, is_whole)) = port.take(rest) else {
                return false;
            };
            if is_whole && !self.hall.reply(lane, port.reply()) {
                return false;
            }
            rest = &rest[taken..];
        }
        true
    }

    // One read of a lane. Whether there may be more, as of a client (`hear_once`); none where it has no
    // stream any more.
    fn read_once(&mut self, lane: usize) -> Option<bool> {
        let port = self.ports.get_mut(lane)?;
        let may_end = port.may_end;
        let stream = port.stream.as_mut()?;
        match stream.read(&mut self.piece) {
            Ok(0) => None,
            Ok(count) => match self.pass(lane, count) {
                true => Some(may_end || count == self.piece.len()),
                false => None,
            },
            Err(error) => match error.kind() {
                ErrorKind::WouldBlock => Some(false),
                ErrorKind::Interrupted => Some(true),
                _ => None,
            },
        }
    }

    // Reads what a lane has answered.
    fn hear_lane(&mut self, lane: usize) {
        for _ in 0..GUESTS {
            match self.read_once(lane) {
                Some(true) => {}
                Some(false) => {
                    if let Some(port) = self.ports.get_mut(lane) {
                        port.may_read = false;
                    }
                    return;
                }
                None => {
                    self.lose(lane);
                    return;
                }
            }
        }
    }

    // Lets a lane's socket tell when it takes bytes again, while some wait for it alone: else each read
    // of the lane would wake the switch.
    fn heed(&mut self, lane: usize) {
        let Some(port) = self.ports.get_mut(lane) else {
            return;
        };
        let is_full = port.waiting() > 0;
        if lane >= MAX_LANES as usize || is_full == port.is_full {
            return;
        }
        let Some(stream) = port.stream.as_mut() else {
            return;
        };
        let token = token_of(Socket::Lane { lane });
        let interest = match is_full {
            true => Interest::READABLE | Interest::WRITABLE,
            false => Interest::READABLE,
        };
        let registry = self.poll.registry();
        if registry.reregister(stream, token, interest).is_ok() {
            port.is_full = is_full;
        }
    }

    // Writes to a lane what it takes. Whether it may be handed a frame more.
    fn write_lane(&mut self, lane: usize) -> bool {
        let Some(port) = self.ports.get_mut(lane) else {
            return false;
        };
        if port.stream.is_none() {
            return false;
        }
        match port.write() {
            Written::Some => {
                let has_room = port.waiting() < OUT;
                self.heed(lane);
                has_room
            }
            Written::Lost => {
                self.lose(lane);
                false
            }
        }
    }

    // Hands a lane one frame. Whether there was one.
    fn hand(&mut self, lane: usize) -> bool {
        if !self
            .hall
            .hand(lane, &mut self.frame.payload, &mut self.piece)
        {
            return false;
        }
        let is_put = match self.ports.get_mut(lane) {
            Some(port) => port.put(&self.frame.payload).is_ok(),
            None => false,
        };
        if !is_put {
            self.lose(lane);
        }
        is_put
    }

    // Hands a lane frames, in order of the turns, as long as it takes them.
    fn feed(&mut self, lane: usize) {
        for _ in 0..MAX_AT_LANE {
            let is_full = match self.ports.get_mut(lane) {
                Some(port) if port.stream.is_some() => port.waiting() >= OUT,
                _ => return,
            };
            if is_full && !self.write_lane(lane) {
                return;
            }
            if self.hall.is_stopping || !self.hand(lane) {
                break;
            }
        }
        let _ = self.write_lane(lane);
    }

    // Who waits for a lane that is gone since then fails.
    fn refuse(&mut self, lane: usize, since: Instant) {
        if let Some(port) = self.ports.get_mut(lane) {
            port.lose(since);
        }
        for _ in 0..MAX_AT_LANE {
            let has_one = self
                .hall
                .hand(lane, &mut self.frame.payload, &mut self.piece);
            if !has_one {
                break;
            }
        }
        self.hall.lane_lost(lane);
    }

    // A lane's turn: what it has answered, and what it is to answer.
    fn serve_lane(&mut self, lane: usize) {
        let Some(port) = self.ports.get_mut(lane) else {
            return;
        };
        if port.may_read {
            self.hear_lane(lane);
        }
        self.feed(lane);
    }

    // Gives a lane that wants one a new stream. Where the system gives none, it is tried again.
    fn connect(&mut self, lane: usize) -> io::Result<()> {
        let Some(port) = self.ports.get_mut(lane) else {
            return Ok(());
        };
        if lane >= MAX_LANES as usize || port.stream.is_some() || !port.end.is_wanted() {
            return Ok(());
        }
        let (near, far) = net::UnixStream::pair(&self.system)?;
        near.set_nonblocking(true)?;
        let mut stream = UnixStream::from_std(near);
        let token = token_of(Socket::Lane { lane });
        let registry = self.poll.registry();
        registry.register(&mut stream, token, Interest::READABLE)?;
        if port.end.give(TcpStream::from(OwnedFd::from(far))) {
            port.begin(stream, self.hall.now);
        }
        Ok(())
    }

    // Looks at a lane: whether it wants a stream, or is gone for good.
    fn look_at_lane(&mut self, lane: usize) {
        if !self.hall.is_stopping && self.connect(lane).is_err() {
            self.tell_scarce();
        }
        let gone = match self.ports.get_mut(lane) {
            Some(port) => port.gone_since(),
            None => None,
        };
        if let Some(since) = gone {
            if self.hall.now.duration_since(since) >= Duration::from_secs(ABSENCE) {
                self.refuse(lane, since);
            }
        }
    }

    // Looks at all lanes and clients, where it is time.
    fn look(&mut self) {
        if self.hall.now < self.next_look {
            return;
        }
        let next = self.hall.now.checked_add(Duration::from_millis(LOOK));
        self.next_look = next.unwrap_or(self.hall.now);
        for lane in 0..self.ports.len() {
            self.look_at_lane(lane);
        }
        for entrance in self.entrances.iter_mut() {
            entrance.may_accept = true;
        }
        self.hall.look(&mut self.piece);
    }

    // How long the next wait may take: not at all, where something was left for later.
    fn patience(&self) -> Duration {
        let has_more = self.ports.iter().any(|port| port.may_read);
        match has_more || self.may_accept() {
            true => Duration::ZERO,
            false => Duration::from_millis(LOOK),
        }
    }

    // Waits for what sockets are ready for, and does it.
    fn turn(&mut self, events: &mut Events) -> Result<(), Failed> {
        let patience = self.patience();
        if let Err(error) = self.poll.poll(events, Some(patience)) {
            if error.kind() != ErrorKind::Interrupted {
                return Err(Failed);
            }
        }
        if let Ok(now) = Instant::now(&self.system) {
            self.hall.now = now;
        }
        for event in events.iter() {
            self.note(event);
        }
        for lane in 0..self.ports.len() {
            self.serve_lane(lane);
        }
        self.accept_all();
        self.look();
        Ok(())
    }

    // Whether each lane has answered all, and each client has gone.
    fn is_through(&self) -> bool {
        self.hall.is_stopping && self.hall.is_empty() && !self.has_frame()
    }

    // Whether a lane has a frame that it has not answered.
    fn has_frame(&self) -> bool {
        (0..self.ports.len()).any(|lane| self.hall.floor.has_frame(lane))
    }

    // Serves until each listener has ended, each frame that was taken is answered, and each client has
    // gone.
    fn serve(&mut self, events: &mut Events) -> Result<(), Failed> {
        for _ in 0..u64::MAX {
            self.turn(events)?;
            self.hall.is_stopping |= self.has_ended();
            if self.is_through() {
                return Ok(());
            }
        }
        Err(Failed)
    }

    /// Serves, and tells the lanes how that ended.
    pub(crate) fn run(&mut self, events: &mut Events) {
        let ended = self.serve(events);
        for port in self.ports.iter_mut() {
            port.end.close(ended);
            port.stream = None;
        }
    }
}
