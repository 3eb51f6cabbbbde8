//! A link that speaks frames with a relay.

ghost use Rattle.std.specs.Prelude.{◌≡◌, ◌≤◌, [], length, IfOk, Option, None, MatchResult};
ghost use Rattle.frame_link.specs.Faults.{HasCause};
ghost use Rattle.frame_link.specs.Plan.{counted};
ghost use Rattle.frame_link.specs.Relay.{HasRelayCode, Reseals};
ghost use Rattle.relay_core.specs.Messages.{asking};
ghost use Rattle.relay_core.specs.Links.{Asks, shown_link, streams};

use crate::exchange::{LinkRoom, ask};
use arrayvec::ArrayVec;
use frame_link::{Failed, RelayAnswer, RelayLink, Sink, Source};
use std::alloc::{AllocError, Global};
use std::marker::Model;

/// Asks a relay by a frame of the output for each call, and reads the answer as a frame of the
/// input. Contracts see both, and how often it was called and a call has failed.
#[derive(Drop)]
pub struct LinkRelay<I, O> {
    input: I,
    output: O,
    room: LinkRoom,
    calls: u64,
    faults: u64,
}

impl<I, O> Model for LinkRelay<I, O> {
    ghost use Rattle.relay_core.specs.Links.{Link};

    ghost Value = { Link I O };

    ghost view = { λ l. record {
      input = l.input;
      output = l.output;
      calls = l.calls;
      faults = l.faults;
    } };
}

impl<I: Source + Drop, O: Sink + Drop> LinkRelay<I, O> {
    /// A link over an input and an output. All its memory is taken here.
    pub fn new(alloc: Global, input: I, output: O) -> Result<LinkRelay<I, O>, AllocError>
        ensures { IfOk result
            (λ l. l ≡ record { input = input; output = output; calls = 0; faults = 0 }) }
    {
        Ok(LinkRelay {
            input,
            output,
            room: LinkRoom::new(alloc)?,
            calls: 0,
            faults: 0,
        })
    }

    /// Gives the input and the output back.
    pub fn into_parts(self) -> (I, O)
        ensures { result ≡ (self.input, self.output) }
    {
        (self.input, self.output)
    }

    /// How often a call has failed.
    pub fn faults(&self) -> u64
        ensures { result ≡ self.now.faults }
    {
        self.faults
    }
}

impl<I: Source + Drop, O: Sink + Drop> RelayLink for LinkRelay<I, O> {
    ghost shown = { λ l. shown_link l };

    fn reseal(
        &mut self,
        node: u32,
        sealed: &[u8],
        out: &mut ArrayVec<u8, 2048>,
    ) -> Result<RelayAnswer, Failed>
        requires { length sealed.now ≤ 65531 }
        ensures asks { Asks (asking node sealed.now)
            (streams (I.shown self.old.input)
            (O.shown self.old.output))
            (streams (I.shown self.new.input)
            (O.shown self.new.output)) result out.new.items }
        ensures count { MatchResult result (λ _. self.new.faults ≡ self.old.faults)
            (λ _. self.new.faults ≡ counted self.old.faults) }
        ensures reseals { Reseals (shown_link self.old) (shown_link self.new) node sealed.now result
            out.new.items }
        ensures codes { IfOk result HasRelayCode }
        ensures cause { HasCause self.old.faults self.new.faults result }
    {
        out.clear();
        self.calls = self.calls.saturating_add(1);
        let asked = ask(
            &mut self.input,
            &mut self.output,
            &mut self.room,
            node,
            sealed,
            out,
        );
        if asked.is_err() {
            self.faults = self.faults.saturating_add(1);
        }
        asked
    }
}
