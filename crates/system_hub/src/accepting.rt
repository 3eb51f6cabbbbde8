//! Connections that come.

ghost use Rattle.std.specs.Prelude.{◌≡◌, ◌≤◌, ◌<◌, length};

use crate::cause::{Cause, cause_of};
use crate::limits::GUESTS;
use crate::switch::Switch;
use crate::watch::Watch;
use mio::net::TcpListener;
use std::net;
use std::net::{Net, SocketAddr};
use std::time::Clock;

/// A listener, and whether connections may wait there.
#[derive(Drop)]
pub(crate) struct Entrance {
    pub listener: TcpListener,
    pub may_accept: bool,
    /// It was shut, or failed.
    pub has_ended: bool,
}

impl<S: Net<Listener = net::TcpListener, Stream = net::TcpStream> + Clock, N: Watch> Switch<S, N> {
    /// Whether a connection may be taken now.
    pub(crate) fn may_accept(&self) -> bool {
        self.hall.has_seat()
            && self
                .entrances
                .iter()
                .any(|entrance| entrance.may_accept && !entrance.has_ended)
    }

    /// Whether no connection will come any more.
    pub(crate) fn has_ended(&self) -> bool {
        self.entrances.iter().all(|entrance| entrance.has_ended)
    }

    // Takes a connection of a listener. Whether there may be more.
    fn accept_once(&mut self, place: usize) -> bool {
        let has_seat = self.hall.has_seat();
        let Some(entrance) = self.entrances.get_mut(place) else {
            return false;
        };
        if !entrance.may_accept || entrance.has_ended {
            return false;
        }
        if !has_seat {
            self.tell_full();
            return false;
        }
        match entrance.listener.accept() {
            Ok((stream, peer)) => {
                let _ = stream.set_nodelay(true);
                self.hall.admit(stream, peer, self.poll.registry());
                true
            }
            Err(error) => {
                let cause = cause_of(&error);
                entrance.may_accept = cause == Cause::Peer;
                entrance.has_ended = cause == Cause::Listener;
                if cause == Cause::Scarce {
                    self.tell_scarce();
                }
                cause == Cause::Peer
            }
        }
    }

    // Takes the connections of a listener, a few at a time.
    fn accept_at(&mut self, place: usize) {
        for _ in 0..GUESTS {
            if !self.accept_once(place) {
                return;
            }
        }
    }

    /// Takes the connections that wait, a few of each listener.
    pub(crate) fn accept_all(&mut self) {
        if self.hall.is_stopping {
            return;
        }
        for place in 0..self.entrances.len() {
            self.accept_at(place);
        }
    }

    // Tells that clients wait for a seat, once until one was free.
    fn tell_full(&mut self) {
        if !self.hall.is_full_told {
            self.hall.watch.full();
            self.hall.is_full_told = true;
        }
    }

    /// Tells that descriptors or memory lack, once until there is a client more.
    pub(crate) fn tell_scarce(&mut self) {
        if !self.hall.is_scarce_told {
            self.hall.watch.scarce();
            self.hall.is_scarce_told = true;
        }
    }
}
