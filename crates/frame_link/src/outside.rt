//! What the program reads from, writes to and takes the time from. Each shows one record: what it
//! tells, and how often it has failed.

ghost use Rattle.std.specs.Prelude.{◌≡◌, ◌<◌, ◌≤◌, length, IfOk};
ghost use Rattle.std.specs.Io.{ReadsAtMost, WritesAtMost};
ghost use Rattle.std.specs.Io.KnownBytes.{ReadConsumes, WriteAppends};
ghost use Rattle.frame_link.specs.Faults.{HasCause};
ghost use Rattle.frame_link.specs.Lent.{Lent, Nothing};
ghost use Rattle.frame_link.specs.Readings.{Reads};
ghost use Rattle.frame_link.specs.Relay.{Link, Reseals, HasRelayCode};
ghost use Rattle.frame_link.specs.Doors.{DoorSeen, GivesNext, TakesBack};
ghost use Rattle.frame_link.specs.Streams.{Stream};

use arrayvec::ArrayVec;

/// The call failed, and the count of faults rose.
#[derive(Clone, Copy, PartialEq, Eq)]
pub struct Failed;

pub trait Source {
    /// The bytes that are left, where the source tells them.
    ghost shown: { Self → Stream };

    /// What it borrows to change, where its owner is to know what became of that.
    ghost borrows: { Self → Lent } = { λ _. Nothing };

    /// Takes the next bytes. `Ok(0)` with room is the end.
    fn read(&mut self, into: &mut [u8]) -> Result<usize, Failed>
        ensures bound { ReadsAtMost result into.new }
        ensures bytes { ReadConsumes (shown self.old).told (shown self.new).told result into.new }
        ensures cause { HasCause (shown self.old).faults (shown self.new).faults result }
        ensures same { borrows self.new ≡ borrows self.old };
}

pub trait Sink {
    /// The bytes that were written, where the sink tells them.
    ghost shown: { Self → Stream };

    /// As of a source.
    ghost borrows: { Self → Lent } = { λ _. Nothing };

    /// Appends bytes of the front, at least one of some.
    fn write(&mut self, piece: &[u8]) -> Result<usize, Failed>
        ensures bound { WritesAtMost result piece.now }
        ensures some { IfOk result (λ n. 0 < length piece.now → 0 < n) }
        ensures bytes { WriteAppends (shown self.old).told (shown self.new).told result piece.now }
        ensures cause { HasCause (shown self.old).faults (shown self.new).faults result }
        ensures same { borrows self.new ≡ borrows self.old };
}

pub trait Clock {
    /// The readings that are left, where the clock tells them. The last one repeats.
    ghost shown: { Self → Stream };

    /// As of a source.
    ghost borrows: { Self → Lent } = { λ _. Nothing };

    /// Seconds since 1970. Readings may go back.
    fn now(&mut self) -> Result<u64, Failed>
        ensures reading { Reads (shown self.old).told (shown self.new).told result }
        ensures cause { HasCause (shown self.old).faults (shown self.new).faults result }
        ensures same { borrows self.new ≡ borrows self.old };
}

/// What a relay said of a certificate.
#[derive(Clone, Copy, PartialEq, Eq)]
pub enum RelayAnswer {
    /// The new certificate is there.
    Resealed,
    /// There is none, for the reason that the code names, from 1 to 5.
    Refused { code: u8 },
    /// Memory was refused.
    NoMemory,
}

pub trait RelayLink {
    /// What the relay says, where the link tells it, how often it was called, and how often a call
    /// has failed.
    ghost shown: { Self → Link };

    /// As of a source.
    ghost borrows: { Self → Lent } = { λ _. Nothing };

    /// Asks for a certificate to be sealed for a node.
    fn reseal(
        &mut self,
        node: u32,
        sealed: &[u8],
        out: &mut ArrayVec<u8, 2048>,
    ) -> Result<RelayAnswer, Failed>
        requires { length sealed.now ≤ 65531 }
        ensures reseals { Reseals (shown self.old) (shown self.new) node sealed.now result
            out.new.items }
        ensures codes { IfOk result HasRelayCode }
        ensures cause { HasCause (shown self.old).faults (shown self.new).faults result }
        ensures same { borrows self.new ≡ borrows self.old };
}

pub trait Door {
    type In: Source + Send;

    type Out: Sink + Send;

    /// The connections that are left and those that were given back, where the door tells them, and
    /// how many it gave. Where it does not tell what is left, the count may stand still at the last
    /// value of 64 bits.
    ghost shown: { Self → DoorSeen (Self.In × Self.Out) };

    /// The next connection. `None` is the end.
    fn accept(&mut self) -> Result<Option<(Self::In, Self::Out)>, Failed>
        ensures gives { GivesNext (shown self.old) (shown self.new) result }
        ensures back { (shown self.new).back ≡ (shown self.old).back }
        ensures cause { HasCause (shown self.old).faults (shown self.new).faults result };

    /// Takes a served connection back.
    fn done(&mut self, input: Self::In, output: Self::Out)
        ensures back { TakesBack (shown self.old) (shown self.new) (input, output) }

        // Nothing else changes.
        ensures rest { shown self.new ≡ record (shown self.old) { back = (shown self.new).back } };
}
