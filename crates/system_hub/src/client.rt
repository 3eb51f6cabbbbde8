//! A client's socket, and how its stream stands.

ghost use Rattle.std.specs.Prelude.{◌≡◌, ◌≤◌, if◌then◌else◌, true, false, IfSome};
ghost use Rattle.system_hub.specs.declared.client.Moved.TheVariants.{More, Enough, Left};
ghost use Rattle.system_hub.specs.Kept.{IsHere};
ghost use Rattle.system_hub.specs.Floors.{IsDoneWith, IsMoved};

use crate::breakage::Breakage;
use crate::machine::hub::Hub;
use crate::machine::limits::MAX_KEPT;
use crate::pace::Pace;
use crate::parting::Parting;
use crate::patience::Patience;
use mio::net::TcpStream;
use std::io::{ErrorKind, Read, Write};
use std::net::SocketAddr;
use std::time::Instant;

/// A client's socket, and how its stream stands.
#[derive(Drop)]
pub(crate) struct Client {
    /// Its number in the hub.
    pub number: u64,
    pub stream: TcpStream,
    pub peer: SocketAddr,
    pub coming: Pace,
    pub going: Pace,
    /// Until when a frame of it is to come that is sealed right.
    pub trust: Pace,
    /// There may be bytes for which the hub had no room.
    pub is_hungry: bool,
    /// Why it is let go, where that is not in order.
    pub why: Option<Breakage>,
}

/// What became of a read or a write of a client.
#[derive(Clone, Copy, PartialEq, Eq)]
pub(crate) enum Moved {
    /// There may be more to do now.
    More,
    /// There is nothing more to do now.
    Enough,
    /// The client has its seat no more.
    Left,
}

impl Moved {
    // Nothing more to do, of a client that keeps its seat or not.
    fn none(stays: bool) -> Moved
        ensures { result ≡ (if stays then Enough else Left) }
    {
        match stays {
            true => Moved::Enough,
            false => Moved::Left,
        }
    }

    // Perhaps more to do.
    fn some(stays: bool) -> Moved
        ensures { result ≡ (if stays then More else Left) }
    {
        match stays {
            true => Moved::More,
            false => Moved::Left,
        }
    }
}

impl Client {
    /// One that has come now, by this number.
    pub(crate) fn new(
        number: u64,
        stream: TcpStream,
        peer: SocketAddr,
        now: Instant,
        patience: &Patience,
    ) -> Client
        ensures { result.number ≡ number }
    {
        let mut trust = Pace::new();
        trust.wait(now, patience.idle);
        Client {
            number,
            stream,
            peer,
            coming: Pace::with_first(now, patience.first),
            going: Pace::new(),
            trust,
            is_hungry: false,
            why: None,
        }
    }

    // The first reason stays.
    pub(crate) fn broke(&mut self, why: Breakage)
        ensures { self.new.number ≡ self.old.number }
    {
        self.why = self.why.or(Some(why));
    }

    // It has failed, by the hub too.
    pub(crate) fn fail(&mut self, hub: &mut Hub, why: Breakage)
        ensures number { self.new.number ≡ self.old.number }
        ensures left { IsDoneWith self.old.number hub.old hub.new false }
    {
        let number = self.number;
        self.broke(why);
        if hub.is_here(number) {
            hub.failed(number);
        }
    }

    // It said its last. Whether it keeps its seat.
    fn end(&mut self, hub: &mut Hub) -> bool
        ensures number { self.new.number ≡ self.old.number }
        ensures stays { IsDoneWith self.old.number hub.old hub.new result }
    {
        let number = self.number;
        if !self.coming.is_between() {
            self.broke(Breakage::Cut);
        }
        if !hub.is_open(number) {
            return hub.is_here(number);
        }
        hub.ended(number)
    }

    // These bytes came. Whether it keeps its seat.
    fn take(&mut self, hub: &mut Hub, bytes: &[u8]) -> bool
        ensures number { self.new.number ≡ self.old.number }
        ensures stays { IsDoneWith self.old.number hub.old hub.new result }
    {
        let number = self.number;
        self.coming.pass(bytes);
        if self.coming.is_long() {
            self.broke(Breakage::Long);
        }
        if !hub.is_open(number) || bytes.len() > hub.room(number) {
            return hub.is_here(number);
        }
        match hub.received(number, bytes) {
            Ok(stays) => stays,
            Err(_) => {
                self.broke(Breakage::GivenUp);
                false
            }
        }
    }

    // How many bytes may be read of it now, and no more than so many. None where nothing is read of it
    // any more.
    fn room(&self, hub: &Hub, most: usize) -> Option<usize>
        ensures few { IfSome result (λ room. room ≤ most) }
        ensures here { IfSome result (λ room. IsHere hub.now self.now.number) }
    {
        match hub.is_open(self.number) && !self.coming.is_long() {
            true => Some(hub.room(self.number).min(most)),
            false => None,
        }
    }

    // One read, of as many bytes as there is room for. Behind fewer bytes than there was room for there
    // is nothing, unless the stream has ended.
    fn hear_once(&mut self, hub: &mut Hub, piece: &mut [u8], may_end: bool) -> Moved
        ensures number { self.new.number ≡ self.old.number }
        ensures moved { IsMoved self.old.number hub.old hub.new result }
    {
        let Some(room) = self.room(hub, piece.len()) else {
            return Moved::none(hub.is_here(self.number));
        };
        if room == 0 {
            self.is_hungry = true;
            return Moved::Enough;
        }
        match self.stream.read(&mut piece[..room]) {
            Ok(0) => Moved::none(self.end(hub)),
            Ok(count) => match may_end || count == room {
                true => Moved::some(self.take(hub, &piece[..count])),
                false => Moved::none(self.take(hub, &piece[..count])),
            },
            Err(error) => match error.kind() {
                ErrorKind::WouldBlock => Moved::Enough,
                ErrorKind::Interrupted => Moved::More,
                _ => {
                    self.fail(hub, Breakage::Lost);
                    Moved::Left
                }
            },
        }
    }

    /// Reads what there is, as far as the hub has room. `may_end` says that the stream may be at its
    /// end. Whether the client keeps its seat.
    pub(crate) fn hear(&mut self, hub: &mut Hub, piece: &mut [u8], may_end: bool) -> bool
        ensures number { self.new.number ≡ self.old.number }
        ensures stays { IsDoneWith self.old.number hub.old hub.new result }
    {
        self.is_hungry = false;
        for _ in 0..=MAX_KEPT {
            match self.hear_once(hub, piece, may_end) {
                Moved::More => {}
                Moved::Enough => return true,
                Moved::Left => return false,
            }
        }
        hub.is_here(self.number)
    }

    /// Where a frame has begun, it is to be whole in time.
    pub(crate) fn wait(&mut self, now: Instant, patience: &Patience)
        ensures { self.new.number ≡ self.old.number }
    {
        if !self.coming.is_between() && !self.is_hungry {
            self.coming.wait(now, patience.frame);
        }
    }

    // One write.
    fn write_once(&mut self, hub: &mut Hub) -> Moved
        ensures number { self.new.number ≡ self.old.number }
        ensures moved { IsMoved self.old.number hub.old hub.new result }
    {
        if !hub.is_well(self.number) {
            return Moved::none(hub.is_here(self.number));
        }
        let left = hub.to_write(self.number);
        if left.is_empty() {
            return Moved::Enough;
        }
        match self.stream.write(left) {
            Ok(0) => Moved::Enough,
            Ok(count) => {
                self.going.pass(&left[..count]);
                Moved::some(hub.wrote(self.number, count))
            }
            Err(error) => match error.kind() {
                ErrorKind::WouldBlock => Moved::Enough,
                ErrorKind::Interrupted => Moved::More,
                _ => {
                    self.fail(hub, Breakage::Lost);
                    Moved::Left
                }
            },
        }
    }

    // Writes what it takes of its replies. Whether it keeps its seat.
    fn write_all(&mut self, hub: &mut Hub) -> bool
        ensures number { self.new.number ≡ self.old.number }
        ensures stays { IsDoneWith self.old.number hub.old hub.new result }
    {
        for _ in 0..u64::MAX {
            match self.write_once(hub) {
                Moved::More => {}
                Moved::Enough => return true,
                Moved::Left => return false,
            }
        }
        hub.is_here(self.number)
    }

    /// Writes what it takes of its replies: what is left is to leave in time. Whether the client keeps
    /// its seat.
    pub(crate) fn write(&mut self, hub: &mut Hub, now: Instant, patience: &Patience) -> bool
        ensures number { self.new.number ≡ self.old.number }
        ensures stays { IsDoneWith self.old.number hub.old hub.new result }
    {
        if !self.write_all(hub) {
            return false;
        }
        if self.has_left(hub) {
            self.going.wait(now, patience.take);
        }
        true
    }

    // Whether bytes are left to write to it.
    fn has_left(&self, hub: &Hub) -> bool {
        hub.is_well(self.number) && !hub.to_write(self.number).is_empty()
    }

    /// What a reply shows of it: that its frame was sealed right, so that it may stay, or, where none was
    /// for too long, why it may not.
    pub(crate) fn judge(
        &mut self,
        is_sealed: bool,
        now: Instant,
        patience: &Patience,
    ) -> Option<Breakage>
        ensures { self.new.number ≡ self.old.number }
    {
        if is_sealed {
            self.trust.rest();
        }
        self.trust.wait(now, patience.idle);
        match self.trust.is_late(now) {
            true => Some(Breakage::Silent),
            false => None,
        }
    }

    /// Why it is late now, if it is.
    pub(crate) fn lateness(
        &mut self,
        hub: &Hub,
        now: Instant,
        patience: &Patience,
    ) -> Option<Breakage>
        ensures { self.new.number ≡ self.old.number }
    {
        if self.going.is_late(now) {
            return Some(Breakage::Untaken);
        }
        let is_between = self.coming.is_between();
        if is_between && !hub.is_quiet(self.number) {
            self.coming.rest();
            return None;
        }
        if is_between {
            self.coming.wait(now, patience.idle);
            self.trust.wait(now, patience.idle);
            if self.trust.is_late(now) {
                return Some(Breakage::Silent);
            }
        }
        if self.is_hungry || !self.coming.is_late(now) {
            return None;
        }
        match is_between {
            true => Some(Breakage::Silent),
            false => Some(Breakage::Slow),
        }
    }

    /// Whether it may have sent what nobody read: not where its stream was read to its end, or failed.
    pub(crate) fn may_send(&self) -> bool {
        match self.why {
            None | Some(Breakage::Cut | Breakage::Lost | Breakage::TurnedAway) => false,
            Some(_) => true,
        }
    }

    /// Its stream is shut, and read on until this moment, by nobody.
    pub(crate) fn part(self, until: Instant) -> Parting {
        Parting::of(self.stream, self.peer, self.why, until)
    }
}
