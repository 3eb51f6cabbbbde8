//! A door in memory.

ghost use Rattle.std.specs.Prelude.{◌≡◌, ◌≤◌, List, ℕ, [], length, IfOk, Option, Some};
ghost use Rattle.frame_link.specs.Faults.{HasCause};
ghost use Rattle.frame_link.specs.Plan.{plan_of};
ghost use Rattle.frame_link.specs.Doors.{GivesNext, TakesBack};
ghost use Rattle.frame_link.specs.Hall.{Admits, KeepsBack, shown_hall};

use crate::fault_plan::FaultPlan;
use crate::outside::{Door, Failed, Sink, Source};
use std::alloc::{AllocError, Global};
use std::collections::VecDeque;
use std::marker::Model;

/// Connections in memory, and room for those that are given back.
#[derive(Drop)]
pub struct MemDoor<I, O> {
    connections: VecDeque<(I, O)>,
    given: usize,
    kept: Vec<(I, O)>,
    plan: FaultPlan,
}

impl<I, O> Model for MemDoor<I, O> {
    ghost use Rattle.std.specs.Prelude.{◌+◌, ◌≤◌, length, vec_capacity};
    ghost use Rattle.frame_link.specs.Hall.{Hall};

    ghost Value = { Hall (I × O) };

    ghost view = { λ d. record {
      left = d.connections.items;
      given = d.given;
      back = d.kept.items;
      plan = d.plan;
    } };

    // There is memory for all that may be given back, and no more came back than were given.
    ghost invariant = { λ d. (d.given + length d.connections.items ≤ vec_capacity d.kept)
        × (length d.kept.items ≤ d.given) };
}

impl<I: Drop, O: Drop> MemDoor<I, O> {
    /// A door of these connections, with room to take each of them back. `fails` has the numbers of
    /// the calls of `accept` that fail, counted from 0.
    pub fn new(
        alloc: Global,
        connections: Vec<(I, O)>,
        fails: Vec<u64>,
    ) -> Result<MemDoor<I, O>, AllocError>
        ensures { IfOk result (λ d. d ≡ record {
          left = connections.items;
          given = 0;
          back = [];
          plan = plan_of fails.items;
        }) }
    {
        let kept = Vec::with_capacity(alloc, connections.len())?;
        Ok(MemDoor {
            connections: VecDeque::from(connections),
            given: 0,
            kept,
            plan: FaultPlan::new(fails),
        })
    }

    /// The connections that were given back and not dropped, in order.
    pub fn kept(&self) -> &[(I, O)]
        ensures kept { result.now ≡ self.now.back }
        ensures fits { length result.now ≤ self.now.given }
    {
        &self.kept
    }

    /// How often a call has failed.
    pub fn faults(&self) -> u64
        ensures { result ≡ self.now.plan.faults }
    {
        self.plan.faults()
    }
}

impl<I: Source + Send + Drop, O: Sink + Send + Drop> Door for MemDoor<I, O> {
    type In = I;

    type Out = O;

    ghost shown = { λ d. shown_hall d };

    fn accept(&mut self) -> Result<Option<(I, O)>, Failed>
        ensures gives { GivesNext (shown_hall self.old) (shown_hall self.new) result }
        ensures back { (shown_hall self.new).back ≡ (shown_hall self.old).back }
        ensures cause { HasCause self.old.plan.faults self.new.plan.faults result }
        ensures exact { Admits self.old self.new result }
    {
        self.plan.begin()?;
        let next = self.connections.pop_front();
        if next.is_some() {
            self.given += 1;
        }
        Ok(next)
    }

    fn done(&mut self, input: I, output: O)
        ensures back { TakesBack (shown_hall self.old) (shown_hall self.new) (input, output) }
        ensures rest { shown_hall self.new
            ≡ record (shown_hall self.old) { back = (shown_hall self.new).back } }
        ensures exact { KeepsBack self.old self.new (input, output) }
    {
        if self.kept.len() < self.given {
            let _ = self.kept.push((input, output));
        }
    }
}
