//! The machine: events in, answers out, a journal of both.

ghost use Rattle.std.specs.Prelude.{◌≡◌, ◌↔◌, IsTrue, ◌<◌, ◌≤◌, [], map, length, All, IfOk, OnErr};
ghost use Rattle.stmt_codec.specs.View.{certificates};
ghost use Rattle.agent_core.specs.Plans.{IsPlan};
ghost use Rattle.agent_core.specs.Views.{event_of, plan_of, entry_of};
ghost use Rattle.agent_core.specs.Journals.{IsMeant, IsLegalJournal, told_at};
ghost use Rattle.agent_core.specs.Answers.{FitsEvent, Stepped, TakesMemory};
ghost use Rattle.shard_core.specs.Kept.{AreNew, first_names};

mod answering;
mod append;
mod asking;
mod forgetting;
mod keepable;
mod keeping;
mod letting;
mod meant;
mod plain;
mod presenting;
mod row;
mod serving;
mod sharing;
mod store;
mod withdrawing;

use crate::held::book::Book;
use crate::held::name::{Name, Names};
use crate::held::presented::Presented;
use crate::held::withdrawn::Withdrawn;
use crate::shard::answering::answer_to;
use crate::shard::meant::is_taken;
use crate::shard::sharing::handles_to;
use crate::shard::store::{Row, Store};
use agent_core::{Answer, Event, ShardEntry, ShardPlan};
use proof_cache::Cache;
use std::alloc::{AllocError, Global};
use std::marker::Model;
use std::sync::Arc;
use stmt_codec::Cert;

/// A shard. A contract sees its plan and its journal: all else follows from these.
#[derive(Drop)]
pub struct Shard {
    plan: ShardPlan,
    entries: Vec<ShardEntry>,
    store: Store,
    presented: Presented,
    cache: Cache,
}

impl Model for Shard {
    ghost use Rattle.std.specs.Prelude.{map};
    ghost use Rattle.std.specs.Coded.{codes};
    ghost use Rattle.prin_term.specs.Codes.{principal_code};
    ghost use Rattle.agent_core.specs.Journals.{ShardSeen};
    ghost use Rattle.shard_core.specs.Kept.{IsShard};
    ghost use Rattle.agent_core.specs.Views.{entry_of, plan_of};

    ghost Value = { ShardSeen };

    ghost coded = { Prim.hlevel (codes, principal_code) };

    ghost view = { λ s. record { plan = plan_of s.plan; journal = map entry_of s.entries.items } };

    // What is kept stands for the state after the entries, which are legal, within the limits and
    // have room, and for the proofs that they keep.
    ghost invariant = { λ s. IsShard (plan_of s.plan) s.entries s.store s.cache };
}

// The names of the plan's commons.
fn names_of(count: usize) -> Names
    requires { count ≤ 32 }
    ensures { result.items ≡ first_names count }
{
    let mut names = Names::new();
    for place in 0..count {
        names.push(Name::Common(place as u8));
    }
    names
}

// A row for each channel, without a certificate.
fn rows_for(alloc: Global, count: usize) -> Result<Vec<Row>, AllocError>
    ensures { IfOk result (λ rows. AreNew rows.items count) }
{
    let mut rows = Vec::with_capacity(alloc, count)?;
    for i in 0..count {
        rows.push(Row {
            last: 0,
            swept: 0,
            own: Names::new(),
        })?;
    }
    Ok(rows)
}

impl Shard {
    /// A shard of this plan, with an empty journal. All its memory is taken here, but for what Asks
    /// present and are handed out.
    pub fn new(alloc: Global, plan: ShardPlan) -> Result<Shard, AllocError>
        requires { IsPlan (plan_of plan) }
        ensures { IfOk result (λ s. s ≡ record { plan = plan_of plan; journal = [] }) }
    {
        let entries = Vec::with_capacity(alloc, plan.limit as usize)?;
        let rows = rows_for(alloc, plan.channels.len())?;
        let store = Store {
            clock: 0,
            swept: 0,
            commons: names_of(plan.commons.len()),
            withdrawn: Withdrawn::new(),
            rows,
        };
        let presented = Presented::of(alloc, &plan.commons)?;
        let cache = Cache::new(alloc)?;
        Ok(Shard {
            plan,
            entries,
            store,
            presented,
            cache,
        })
    }

    /// What it was opened with.
    pub fn plan(&self) -> &ShardPlan
        ensures value { plan_of result.now ≡ self.now.plan }
        ensures planned { IsPlan self.now.plan }
    {
        &self.plan
    }

    /// The events and what was told of each, in their order.
    pub fn journal(&self) -> &[ShardEntry]
        ensures value { map entry_of result.now ≡ self.now.journal }
        ensures legal { IsLegalJournal self.now.plan self.now.journal }
        ensures fits { All (λ e. FitsEvent e.event) self.now.journal }
    {
        &self.entries
    }

    /// Handles to equal certificates: those that the shard has of what Asks presented and of what is
    /// held in common, and of others the given ones.
    pub fn handles_to(
        &self,
        alloc: Global,
        certs: &[Arc<Cert>],
    ) -> Result<Vec<Arc<Cert>>, AllocError>
        ensures { IfOk result (λ handles. certificates handles.items ≡ certificates certs.now) }
    {
        let book = Book {
            plan: &self.plan,
            entries: &self.entries,
        };
        handles_to(alloc, &book, &self.store.commons, &self.presented, certs)
    }

    /// Whether `step` takes the event: an Ask's subject speaks on its channel, which is the
    /// shard's, a proof is one for an Ask of the journal, and an event is within the limits.
    pub fn takes(&self, event: &Event) -> bool
        ensures { IsTrue result ↔ (IsMeant self.now.plan self.now.journal (event_of event.now)
            × FitsEvent (event_of event.now)) }
    {
        is_taken(&self.plan, &self.entries, event)
    }

    /// Answers an event, and journals it at the place that comes with the answer. Only an Ask that
    /// is a hit or a miss takes memory, and a proof that is kept. Nothing is done at a full journal.
    pub fn step(&mut self, alloc: Global, event: Event) -> Result<(u64, Answer), AllocError>
        requires meant { IsMeant self.old.plan self.old.journal (event_of event) }
        requires fits { FitsEvent (event_of event) }
        ensures answered { IfOk result (λ r. Stepped self.old.plan self.old.journal (event_of event)
            self.new.journal r.0 r.1) }
        ensures plan { self.new.plan ≡ self.old.plan }

        ensures wanted { OnErr result (TakesMemory (told_at self.old.plan self.old.journal
            (event_of event))) }
        ensures room { OnErr result (length self.old.journal < self.old.plan.limit) }
        ensures unchanged { OnErr result (self.new ≡ self.old) }
    {
        let place = self.entries.len() as u64;
        if place == self.plan.limit {
            return Ok((place, Answer::JournalFull { length: place }));
        }
        let answer = answer_to(
            alloc,
            &self.plan,
            &mut self.entries,
            &mut self.store,
            &mut self.presented,
            &mut self.cache,
            event,
        )?;
        Ok((place, answer))
    }
}
