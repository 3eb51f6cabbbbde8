//! Who serves the connections of a door.

ghost use Rattle.std.specs.Prelude.{◌≡◌, false};
ghost use Rattle.std.specs.Thread.{IsSync};
ghost use Rattle.taos_lanes.specs.Workers.{Accepts, Exchanges, GivesBack, Keeps, LaneShown, UsesReach, reach_in, shown_by};
ghost use Rattle.taos_monitor.specs.Desk.{IsFree, line_at};
ghost use Rattle.request_course.specs.States.{ServesIn};
ghost use Rattle.taos_monitor.specs.Planned.{ArePlanned};

use crate::lane::{Lane, Stock};
use crate::tally::Tally;
use agent_core::Shards;
use cred_pull::Fetch;
use frame_link::{Clock, Door, Failed, Outcome, RelayLink, Sink, Source};
use object_core::Shelf;
use std::alloc::Global;
use std::mem;
use std::sync::Wait;
use taos_calculus::Decide;
use taos_monitor::Desk;

/// What a worker serves by: the connections of a door, what their requests reach of the outside, and
/// a place for its work.
pub trait Worker {
    type In: Source + Send;

    type Out: Sink + Send;

    type Door;

    /// What its clock, its link, its door and its fetch show, with its work and what it counted.
    ghost shown: { Self → LaneShown (Self.In × Self.Out) };

    /// Its door.
    ghost door: { Self → Self.Door };

    /// Asks its door for the next connection. `None` is the end.
    fn accept(&mut self) -> Result<Option<(Self::In, Self::Out)>, Failed>
        ensures { Accepts (shown self.old) (shown self.new) result };

    /// Gives a served connection back to its door.
    fn done(&mut self, input: Self::In, output: Self::Out)
        ensures { GivesBack (shown self.old) (shown self.new) (input, output) };

    /// Serves a connection at a desk, as by `Desk::serve`.
    fn serve<W: Wait + Sync, S: Shards, H: Shelf, B: Decide, I: Source, O: Sink>(
        &mut self,
        rt: &W,
        alloc: Global,
        desk: &mut Desk<'_, '_, '_, '_, '_, S, H, B>,
        input: &mut I,
        output: &mut O,
        frames: u64,
    ) -> Outcome
        requires sync { IsSync W.row }
        requires planned { ArePlanned desk.old.keys.now.channels.entries
            (S.shown desk.old.shards.now).plans }
        requires free { IsFree H.shown desk.old }
        ensures connection { let at = line_at S.shown H.shown (reach_in shown) I.shown O.shown in
            ServesIn frames (at desk.old self.old input.old output.old)
            (at desk.new self.new input.new output.new) result }
        ensures unfetched { desk.old.pulls ≡ false
            → (shown self.new).fetch ≡ (shown self.old).fetch }
        ensures free { IsFree H.shown desk.new }
        ensures rest { UsesReach shown door self.old self.new };

    /// Puts this work in its place, and hands out what was there.
    fn exchange(&mut self, work: Option<Stock>) -> Option<Stock>
        ensures { Exchanges (shown self.old) (shown self.new) work result };

    /// Keeps what it counted as a relay.
    fn keep(&mut self, tally: Tally)
        ensures { Keeps (shown self.old) (shown self.new) tally };

    /// What it counted as a relay.
    fn tally(&self) -> Tally
        ensures { result ≡ (shown self.now).tally };
}

impl<C: Clock, R: RelayLink, D: Door, P: Fetch> Worker for Lane<C, R, D, P> {
    type In = D::In;

    type Out = D::Out;

    type Door = D;

    ghost shown = { shown_by C.shown R.shown D.shown P.shown };

    ghost door = { λ lane. lane.door };

    fn accept(&mut self) -> Result<Option<(D::In, D::Out)>, Failed> {
        self.door.accept()
    }

    fn done(&mut self, input: D::In, output: D::Out) {
        self.door.done(input, output);
    }

    fn serve<W: Wait + Sync, S: Shards, H: Shelf, B: Decide, I: Source, O: Sink>(
        &mut self,
        rt: &W,
        alloc: Global,
        desk: &mut Desk<'_, '_, '_, '_, '_, S, H, B>,
        input: &mut I,
        output: &mut O,
        frames: u64,
    ) -> Outcome {
        let mut outside = (&mut self.clock, &mut self.relay, &mut self.fetch);
        desk.serve(rt, alloc, &mut outside, input, output, frames)
    }

    fn exchange(&mut self, work: Option<Stock>) -> Option<Stock> {
        mem::replace(&mut self.work, work)
    }

    fn keep(&mut self, tally: Tally) {
        self.tally = tally;
    }

    fn tally(&self) -> Tally {
        self.tally
    }
}
