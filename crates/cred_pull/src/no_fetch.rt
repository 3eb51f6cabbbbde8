//! What stands where nothing is fetched.

ghost use Rattle.std.specs.Prelude.{◌≡◌, None, IsErr};
ghost use Rattle.frame_link.specs.Faults.{HasCause};
ghost use Rattle.frame_link.specs.Plan.{counted};
ghost use Rattle.cred_pull.specs.Fetching.{GivesAnswer, IsWithin, fetch_of, pull_of};

use crate::fetch::{Fetch, Fetched};
use frame_link::Failed;
use std::alloc::Global;
use std::marker::Model;

/// A fetch that fails at each call. Contracts see how often it has failed.
#[derive(Drop)]
pub struct NoFetch {
    faults: u64,
}

impl Model for NoFetch {
    ghost use Rattle.std.specs.Prelude.{ℕ};

    ghost Value = { ℕ };

    ghost view = { λ f. f.faults };
}

impl NoFetch {
    pub fn new() -> NoFetch
        ensures { result ≡ 0 }
    {
        NoFetch { faults: 0 }
    }

    /// How often a call has failed.
    pub fn faults(&self) -> u64
        ensures { result ≡ self.now }
    {
        self.faults
    }
}

impl Fetch for NoFetch {
    ghost shown = { λ f. fetch_of None f };

    fn fetch(&mut self, alloc: Global, channel: u32, seq: u64) -> Result<Fetched, Failed>
        ensures gives { GivesAnswer (fetch_of None self.old) (fetch_of None self.new)
            (pull_of result) }
        ensures within { IsWithin (pull_of result) }
        ensures fails { IsErr result }
        ensures count { self.new ≡ counted self.old }
        ensures cause { HasCause self.old self.new result }
    {
        let (_alloc, _channel, _seq) = (alloc, channel, seq);
        self.faults = self.faults.saturating_add(1);
        Err(Failed)
    }
}
