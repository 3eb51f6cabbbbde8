//! A fetch that speaks frames with a wallet.

ghost use Rattle.std.specs.Prelude.{◌≡◌, IfOk, MatchResult};
ghost use Rattle.frame_link.specs.Faults.{HasCause};
ghost use Rattle.frame_link.specs.Plan.{counted};
ghost use Rattle.cred_pull.specs.Fetching.{GivesAnswer, IsWithin, pull_of};
ghost use Rattle.cred_pull.specs.FetchLinks.{Asks, shown_fetch, streams};
ghost use Rattle.cred_pull.specs.FetchMessages.{fetching};

use crate::exchange::{FetchRoom, ask};
use crate::fetch::{Fetch, Fetched};
use frame_link::{Failed, Sink, Source};
use std::alloc::{AllocError, Global};
use std::marker::Model;

/// Asks a wallet by a frame of the output for each call, and reads the answer as a frame of the
/// input. Contracts see both, and how often a call has failed.
#[derive(Drop)]
pub struct LinkFetch<I, O> {
    input: I,
    output: O,
    room: FetchRoom,
    faults: u64,
}

impl<I, O> Model for LinkFetch<I, O> {
    ghost use Rattle.cred_pull.specs.FetchLinks.{FetchLink};

    ghost Value = { FetchLink I O };

    ghost view = { λ l. record { input = l.input; output = l.output; faults = l.faults } };
}

impl<I: Source + Drop, O: Sink + Drop> LinkFetch<I, O> {
    /// A fetch over an input and an output. All its memory for frames is taken here.
    pub fn new(alloc: Global, input: I, output: O) -> Result<LinkFetch<I, O>, AllocError>
        ensures { IfOk result (λ l. l ≡ record { input = input; output = output; faults = 0 }) }
    {
        Ok(LinkFetch {
            input,
            output,
            room: FetchRoom::new(alloc)?,
            faults: 0,
        })
    }

    /// Gives the input and the output back.
    pub fn into_parts(self) -> (I, O)
        ensures { result ≡ (self.input, self.output) }
    {
        (self.input, self.output)
    }

    /// How often a call has failed.
    pub fn faults(&self) -> u64
        ensures { result ≡ self.now.faults }
    {
        self.faults
    }
}

impl<I: Source + Drop, O: Sink + Drop> Fetch for LinkFetch<I, O> {
    ghost shown = { λ l. shown_fetch l };

    fn fetch(&mut self, alloc: Global, channel: u32, seq: u64) -> Result<Fetched, Failed>
        ensures asks { Asks (fetching channel seq)
            (streams (I.shown self.old.input) (O.shown self.old.output))
            (streams (I.shown self.new.input) (O.shown self.new.output)) (pull_of result) }
        ensures count { MatchResult result (λ _. self.new.faults ≡ self.old.faults)
            (λ _. self.new.faults ≡ counted self.old.faults) }
        ensures gives { GivesAnswer (shown_fetch self.old) (shown_fetch self.new)
            (pull_of result) }
        ensures within { IsWithin (pull_of result) }
        ensures cause { HasCause self.old.faults self.new.faults result }
    {
        let asked = ask(
            alloc,
            &mut self.input,
            &mut self.output,
            &mut self.room,
            channel,
            seq,
        );
        if asked.is_err() {
            self.faults = self.faults.saturating_add(1);
        }
        asked
    }
}
