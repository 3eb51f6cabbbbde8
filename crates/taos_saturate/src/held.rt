//! A decider with what it was asked.

ghost use Rattle.std.specs.Prelude.{◌≡◌, ℕ, [], IfOk, Some, map, slice_get};
ghost use Rattle.prin_term.specs.View.{grant, principal};
ghost use Rattle.stmt_codec.specs.View.{certificates};
ghost use Rattle.taos_calculus.specs.declared.line.Fact.{Fact};
ghost use Rattle.taos_calculus.specs.Question.{question_of, IsAskable, IsProofOf};
ghost use Rattle.taos_calculus.specs.Tables.{named, lines_of};
ghost use Rattle.taos_saturate.specs.Saturating.{facts_of};
ghost use Rattle.taos_saturate.specs.Held.{IsReserved, IsGathered, IsHeld, seen};
ghost use Rattle.term_pool.specs.Claims.{ArePlacesApart};

use crate::gather::{state_all, take_certs, take_list, take_term};
use crate::saturation::Saturation;
use prin_term::{Anchor, Entry, Term};
use std::alloc::{AllocError, Global};
use std::sync::Arc;
use stmt_codec::Cert;
use taos_calculus::{MAX_ANCHORS, MAX_CERTS, MAX_ENTRIES, MAX_LINES, MAX_NODES, Taken};
use term_pool::{Found, keep_anchors, take_proof};

/// The saturated table, with the numbers of who asks and of who is on the list.
#[derive(Drop)]
pub struct Held {
    pub table: Saturation,
    pub subject: u16,
    pub list: Vec<u16>,
}

impl Held {
    /// Room for the largest question.
    pub fn reserve(alloc: Global) -> Result<Held, AllocError>
        ensures { IfOk result (λ h. IsReserved h) }
    {
        let nodes = Vec::with_capacity(alloc, MAX_NODES)?;
        let anchors = Vec::with_capacity(alloc, MAX_ANCHORS)?;
        let cited = Vec::with_capacity(alloc, MAX_CERTS)?;
        let list = Vec::with_capacity(alloc, MAX_ENTRIES)?;
        let found = Found {
            width: 0,
            statements: Vec::with_capacity(alloc, MAX_CERTS)?,
            numbers: Vec::with_capacity(alloc, MAX_LINES)?,
            lines: Vec::with_capacity(alloc, MAX_LINES)?,
        };
        let table = Saturation {
            nodes,
            anchors,
            cited,
            found,
        };
        Ok(Held {
            table,
            subject: 0,
            list,
        })
    }

    // Nothing is held, and all room is kept.
    fn forget(&mut self)
        requires reserved { IsReserved self.old }
        ensures reserved { IsReserved self.new }
        ensures nodes { self.new.table.nodes.items ≡ [] }
        ensures anchors { self.new.table.anchors.items ≡ [] }
        ensures cited { self.new.table.cited.items ≡ [] }
        ensures statements { self.new.table.found.statements.items ≡ [] }
        ensures list { self.new.list.items ≡ [] }
    {
        self.table.nodes.clear();
        self.table.anchors.clear();
        self.table.cited.clear();
        self.table.found.statements.clear();
        self.list.clear();
    }

    // Takes in what is asked.
    fn gather(
        &mut self,
        anchors: &[Anchor],
        certs: &[Arc<Cert>],
        chosen: &[bool],
        subject: &Term,
        list: &[Entry],
    )
        requires reserved { IsReserved self.old }
        requires nodes { self.old.table.nodes.items ≡ [] }
        requires anchors { self.old.table.anchors.items ≡ [] }
        requires cited { self.old.table.cited.items ≡ [] }
        requires statements { self.old.table.found.statements.items ≡ [] }
        requires list { self.old.list.items ≡ [] }
        requires askable { IsAskable anchors.now (certificates certs.now) chosen.now
            (principal subject.now) (map grant list.now) }
        ensures reserved { IsReserved self.new }
        ensures gathered { IsGathered self.new }
        ensures seen_is { seen self.new ≡ question_of anchors.now (certificates certs.now)
            chosen.now (principal subject.now) (map grant list.now) }
        ensures apart { ArePlacesApart (seen self.new).chosen }
    {
        keep_anchors(&mut self.table.anchors, anchors);
        take_certs(&mut self.table.nodes, &mut self.table.cited, certs, chosen);
        self.subject = take_term(&mut self.table.nodes, subject);
        take_list(&mut self.table.nodes, &mut self.list, list);
        state_all(&mut self.table.found.statements, &self.table.cited);
    }

    // Finds all that is derivable about what was taken in.
    fn settle(&mut self)
        requires reserved { IsReserved self.old }
        requires gathered { IsGathered self.old }
        requires apart { ArePlacesApart (seen self.old).chosen }
        ensures held { IsHeld self.new }
        ensures seen_is { seen self.new ≡ seen self.old }
    {
        self.table.found.restart(self.table.nodes.len());
        self.table.saturate();
    }

    /// Asks about the certificates at whose place `chosen` is true.
    pub fn begin(
        &mut self,
        anchors: &[Anchor],
        certs: &[Arc<Cert>],
        chosen: &[bool],
        subject: &Term,
        list: &[Entry],
    )
        requires reserved { IsReserved self.old }
        requires askable { IsAskable anchors.now (certificates certs.now) chosen.now
            (principal subject.now) (map grant list.now) }
        ensures held { IsHeld self.new }
        ensures seen_is { seen self.new ≡ question_of anchors.now (certificates certs.now)
            chosen.now (principal subject.now) (map grant list.now) }
    {
        self.forget();
        self.gather(anchors, certs, chosen, subject, list);
        self.settle();
    }

    /// A proof of `left => right` without waste, from the line that has this fact.
    pub fn proof_of(
        &self,
        alloc: Global,
        left: u16,
        right: u16,
        number: u32,
    ) -> Result<Taken, AllocError>
        requires held { IsHeld self.now }
        requires stands { slice_get (facts_of self.now.table) number
            ≡ Some (Fact.Speaks left right) }
        ensures { IfOk result (λ t. IsProofOf (seen self.now)
            (named self.now.table.nodes.items left) (named self.now.table.nodes.items right)
            (lines_of t.proof) t.cites.items) }
    {
        let table = &self.table;
        take_proof(
            alloc,
            &table.nodes,
            &table.cited,
            &table.found.lines,
            number as usize,
        )
    }
}
