//! What names of certificates lead to.

ghost use Rattle.std.specs.Prelude.{◌≡◌, ◌+◌, length};

use agent_core::{ShardEntry, ShardPlan};
use std::marker::Model;

/// A shard's plan, which has what is held in common at first, and the entries of its journal.
#[derive(Drop)]
pub(crate) struct Book<'a> {
    pub plan: &'a ShardPlan,
    pub entries: &'a [ShardEntry],
}

impl<'a> Model for Book<'a> {
    ghost use Rattle.std.specs.Coded.{codes};
    ghost use Rattle.prin_term.specs.Codes.{principal_code};
    ghost use Rattle.agent_core.specs.Journals.{ShardSeen};
    ghost use Rattle.agent_core.specs.Views.{book_of};

    ghost Value = { ShardSeen };

    ghost coded = { Prim.hlevel (codes, principal_code) };

    ghost view = { λ b. book_of b.plan.now b.entries.now };
}

impl<'a> Book<'a> {
    /// How long the journal is with one entry more.
    pub fn stamp(&self) -> u64
        ensures { result ≡ length self.now.journal + 1 }
    {
        self.entries.len() as u64 + 1
    }
}
