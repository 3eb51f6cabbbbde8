//! A shard as the value of a turn cell.

ghost use Rattle.std.specs.Prelude.{◌≡◌, ◌<◌, length, IfOk, OnErr};
ghost use Rattle.agent_core.specs.Answers.{FitsEvent, Stepped, TakesMemory};
ghost use Rattle.agent_core.specs.Journals.{IsLegalJournal, IsMeant, MayFollow, told_at};
ghost use Rattle.agent_core.specs.Views.{event_of};

use crate::models::{EntryModel, PlanModel};
use agent_core::{Answer, Event};
use shard_core::Shard;
use std::alloc::{AllocError, Global};
use std::marker::Model;
use turn_cell::Journaled;

/// A shard behind a pointer, so that no more than that moves in and out of a cell.
#[derive(Drop)]
pub struct Machine {
    shard: Box<Shard>,
}

impl Model for Machine {
    ghost use Rattle.std.specs.Coded.{codes};
    ghost use Rattle.prin_term.specs.Codes.{principal_code};
    ghost use Rattle.agent_core.specs.Journals.{ShardSeen};

    ghost Value = { ShardSeen };

    ghost coded = { Prim.hlevel (codes, principal_code) };

    ghost view = { λ m. m.shard.value };
}

impl Journaled for Machine {
    type Fixed = PlanModel;

    type Entry = EntryModel;

    ghost fixed = { λ m. m.plan };

    ghost journal = { λ m. m.journal };

    ghost allows = { λ plan before entry. MayFollow plan before entry };

    fn length(&self) -> u64 {
        self.shard.journal().len() as u64
    }

    // A turn is a step, shorter than what of a shard moves with it takes.
    fn longest_pause() -> u32 {
        64
    }
}

const _: () = prove!(size_of::<Machine>() <= 8);

impl Machine {
    /// The shard behind a pointer.
    pub fn new(alloc: Global, shard: Shard) -> Result<Machine, AllocError>
        ensures shard { IfOk result (λ m. m ≡ shard) }
        ensures legal { IfOk result (λ _. IsLegalJournal shard.plan shard.journal) }
    {
        // It says that the journal is legal.
        let _journal = shard.journal();
        Ok(Machine {
            shard: Box::new(alloc, shard)?,
        })
    }

    pub fn into_shard(self) -> Shard
        ensures { result ≡ self }
    {
        Box::into_inner(self.shard)
    }

    /// As `Shard::step`.
    pub fn step(&mut self, alloc: Global, event: Event) -> Result<(u64, Answer), AllocError>
        requires meant { IsMeant self.old.plan self.old.journal (event_of event) }
        requires fits { FitsEvent (event_of event) }
        ensures answered { IfOk result (λ r. Stepped self.old.plan self.old.journal (event_of event)
            self.new.journal r.0 r.1) }
        ensures plan { self.new.plan ≡ self.old.plan }

        ensures wanted { OnErr result (TakesMemory (told_at self.old.plan self.old.journal
            (event_of event))) }
        ensures room { OnErr result (length self.old.journal < self.old.plan.limit) }
        ensures unchanged { OnErr result (self.new ≡ self.old) }
    {
        self.shard.step(alloc, event)
    }
}
