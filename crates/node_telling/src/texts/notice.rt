//! What went otherwise than well, as one line tells it.

ghost use Rattle.std.specs.Prelude.{◌≡◌};
ghost use Rattle.node_telling.specs.Words.{level_of, word_of};

use crate::texts::asked::{operation_of, right_word_of};
use crate::texts::journal::Journal;
use crate::texts::reply::{ReplyFront, link_word_of, names_request};
use jiff::civil::DateTime;
use object_core::right_of;
use std::fmt;
use std::net::SocketAddr;
use std::time::Duration;
use system_hub::Breakage;
use taos_wire::{ReplyHead, Request};

/// What a notice is of.
#[derive(Clone, Copy, PartialEq, Eq)]
pub enum Happening {
    /// A reply that is no grant.
    Replied(ReplyFront),
    /// A certificate that this relay did not reseal, by the code of its answer.
    NotResealed { code: u8 },
    /// A connection that ended otherwise than well.
    Broken(Breakage),
    /// The relay that was asked gave no answer.
    RelayFailed,
    /// The wallet that was asked gave no certificates, however many.
    FetchFailed,
    /// The clock gave no reading that is believed.
    ClockFailed,
    /// Descriptors or memory lack, so that a door waits before it takes the next connection.
    Scarce,
    /// As many clients are connected as may be at a time, so that others wait.
    Full,
    /// A journal has come to so many entries, and will be full.
    Filling { journal: Journal, entries: u64 },
}

/// One of them, when it was, and where.
#[derive(Drop)]
pub struct Notice {
    /// The seconds since 1970, where the clock told them.
    pub seconds: Option<u64>,
    /// The lane, counted from 0.
    pub lane: usize,
    pub peer: Option<SocketAddr>,
    pub what: Happening,
    /// The request that was replied to, where who asked it is believed.
    pub request: Option<Request>,
}

// The date and time that is so many seconds after the begin of 1970, to the end of the year 9999.
fn moment_of(seconds: u64) -> Option<DateTime> {
    let begin = DateTime::new(1970, 1, 1, 0, 0, 0, 0).ok()?;
    begin.checked_add(Duration::from_secs(seconds)).ok()
}

// A time as an instant of RFC 3339, or `-`.
#[derive(Clone, Copy)]
pub(crate) struct When(pub Option<u64>);

impl fmt::Display for When {
    fn fmt<W: fmt::Write>(&self, f: &mut fmt::Formatter<W>) -> fmt::Result {
        let Some(moment) = self.0.and_then(moment_of) else {
            return f.write_str("-");
        };
        write!(f, "{moment}Z")
    }
}

// The pairs of the request that a reply names.
#[derive(Clone, Copy)]
struct Named(ReplyHead);

impl fmt::Display for Named {
    fn fmt<W: fmt::Write>(&self, f: &mut fmt::Formatter<W>) -> fmt::Result {
        let head = self.0;
        if !names_request(&head) {
            return Ok(());
        }
        let (channel, number) = (head.channel, head.number);
        write!(f, " channel {channel} number {number}")
    }
}

// The pairs of a request. Whom its channel quotes is told in JSON alone, since that has blanks.
#[derive(Clone, Copy)]
struct Asks<'a>(&'a Request);

impl<'a> fmt::Display for Asks<'a> {
    fn fmt<W: fmt::Write>(&self, f: &mut fmt::Formatter<W>) -> fmt::Result {
        let request = self.0;
        let (channel, number, object) = (request.channel, request.seq, request.object);
        write!(f, " channel {channel} number {number}")?;
        let (operation, right) = (
            operation_of(&request.op),
            right_word_of(right_of(&request.op)),
        );
        write!(f, " operation {operation} object {object} right {right}")
    }
}

// The pairs of a reply behind those of its request.
#[derive(Clone, Copy)]
struct Pairs(ReplyFront);

impl fmt::Display for Pairs {
    fn fmt<W: fmt::Write>(&self, f: &mut fmt::Formatter<W>) -> fmt::Result {
        let front = self.0;
        if let Some(channel) = front.head.unknown {
            write!(f, " channel {channel}")?;
        }
        let status = front.head.status;
        write!(f, " status {status}")?;
        if let Some(kind) = front.link {
            let link = link_word_of(kind);
            write!(f, " link {link}")?;
        }
        if let Some(code) = front.code {
            write!(f, " code {code}")?;
        }
        if let Some(shard) = front.head.shard {
            write!(f, " shard {shard}")?;
        }
        if let Some(place) = front.head.place {
            write!(f, " place {place}")?;
        }
        Ok(())
    }
}

impl Happening {
    /// Its word.
    pub fn word(&self) -> &'static str
        ensures { result.now ≡ word_of self.now }
    {
        match self {
            Happening::Replied(front) if front.head.is_denial() => "denied",
            Happening::Replied(_) | Happening::NotResealed { .. } => "refused",
            Happening::Broken(_) => "broken",
            Happening::RelayFailed => "relay-failed",
            Happening::FetchFailed => "fetch-failed",
            Happening::ClockFailed => "clock-failed",
            Happening::Scarce => "scarce",
            Happening::Full => "full",
            Happening::Filling { .. } => "filling",
        }
    }

    /// `warning` of what whoever keeps the node can mend, and `info` of what comes from who asks.
    pub fn level(&self) -> &'static str
        ensures { result.now ≡ level_of self.now }
    {
        match self {
            Happening::Replied(_) | Happening::NotResealed { .. } | Happening::Broken(_) => "info",
            Happening::RelayFailed
            | Happening::FetchFailed
            | Happening::ClockFailed
            | Happening::Scarce
            | Happening::Full
            | Happening::Filling { .. } => "warning",
        }
    }
}

/// The line of the notice, without its line feed.
impl fmt::Display for Notice {
    fn fmt<W: fmt::Write>(&self, f: &mut fmt::Formatter<W>) -> fmt::Result {
        let (time, lane) = (When(self.seconds), self.lane);
        let word = self.what.word();
        write!(f, "taosd: {time} {word} lane {lane}")?;
        if let Some(peer) = self.peer {
            write!(f, " peer {peer}")?;
        }
        if let Some(request) = &self.request {
            let asks = Asks(request);
            write!(f, "{asks}")?;
        }
        match self.what {
            Happening::Replied(front) => {
                if self.request.is_none() {
                    let named = Named(front.head);
                    write!(f, "{named}")?;
                }
                let pairs = Pairs(front);
                write!(f, "{pairs}")
            }
            Happening::NotResealed { code } => write!(f, " code {code}"),
            Happening::Broken(why) => f
                .write_str(" cause ")
                .and_then(|()| f.write_str(why.word())),
            Happening::Filling { journal, entries } => write!(f, "{journal} entries {entries}"),
            Happening::RelayFailed
            | Happening::FetchFailed
            | Happening::ClockFailed
            | Happening::Scarce
            | Happening::Full => Ok(()),
        }
    }
}

/// The line that counts the notices for which there was no line.
#[derive(Clone, Copy, PartialEq, Eq)]
pub struct LeftOut {
    pub seconds: Option<u64>,
    pub count: u64,
}

impl fmt::Display for LeftOut {
    fn fmt<W: fmt::Write>(&self, f: &mut fmt::Formatter<W>) -> fmt::Result {
        let (time, count) = (When(self.seconds), self.count);
        write!(f, "taosd: {time} left-out lines {count}")
    }
}
