//! Answers in memory.

ghost use Rattle.std.specs.Prelude.{◌≡◌, All};
ghost use Rattle.frame_link.specs.Faults.{HasCause};
ghost use Rattle.frame_link.specs.Plan.{plan_of};
ghost use Rattle.cred_pull.specs.AnswersLeft.{Answers, shown_left, texts_in};
ghost use Rattle.cred_pull.specs.Fetching.{AreWithin, GivesAnswer, IsWithin, pull_of};

use crate::fetch::{Fetch, Fetched};
use frame_link::Failed;
use std::alloc::Global;
use std::collections::VecDeque;
use std::marker::Model;

/// Answers in memory, one to each call that does not fail; behind the last no certificate is given.
/// A call takes no memory. Contracts see the answers that are left, and which calls fail.
#[derive(Drop)]
pub struct MemFetch {
    answers: VecDeque<Vec<Vec<u8>>>,
    calls: u64,
    fails: Vec<u64>,
    faults: u64,
}

impl Model for MemFetch {
    ghost use Rattle.std.specs.Prelude.{All};
    ghost use Rattle.cred_pull.specs.AnswersLeft.{AnswersLeft, texts_in};
    ghost use Rattle.cred_pull.specs.Fetching.{AreWithin};

    ghost Value = { AnswersLeft };

    ghost view = { λ f. record {
      left = texts_in f.answers.items;
      plan = record { calls = f.calls; fails = f.fails.items; faults = f.faults };
    } };

    // Each answer is within the bounds of what is given.
    ghost invariant = { λ f. All AreWithin (texts_in f.answers.items) };
}

impl MemFetch {
    /// A fetch of these answers. `fails` has the numbers of the calls that fail, counted from 0.
    pub fn new(answers: Vec<Vec<Vec<u8>>>, fails: Vec<u64>) -> MemFetch
        requires { All AreWithin (texts_in answers.items) }
        ensures { result ≡ record { left = texts_in answers.items; plan = plan_of fails.items } }
    {
        MemFetch {
            answers: VecDeque::from(answers),
            calls: 0,
            fails,
            faults: 0,
        }
    }

    /// How often a call has failed.
    pub fn faults(&self) -> u64
        ensures { result ≡ self.now.plan.faults }
    {
        self.faults
    }
}

impl Fetch for MemFetch {
    ghost shown = { λ f. shown_left f };

    fn fetch(&mut self, alloc: Global, channel: u32, seq: u64) -> Result<Fetched, Failed>
        ensures gives { GivesAnswer (shown_left self.old) (shown_left self.new) (pull_of result) }
        ensures within { IsWithin (pull_of result) }
        ensures exact { Answers self.old self.new (pull_of result) }
        ensures cause { HasCause self.old.plan.faults self.new.plan.faults result }
    {
        let (_channel, _seq) = (channel, seq);
        let call = self.calls;
        self.calls = call.saturating_add(1);
        if self.fails.contains(&call) {
            self.faults = self.faults.saturating_add(1);
            return Err(Failed);
        }
        match self.answers.pop_front() {
            Some(certs) => Ok(Fetched::Given(certs)),
            None => Ok(Fetched::Given(Vec::new(alloc))),
        }
    }
}
