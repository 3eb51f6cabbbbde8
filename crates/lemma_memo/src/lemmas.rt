//! A decider with a memory.

ghost use Rattle.std.specs.Prelude.{◌≡◌, ◌↔◌, ◌≤◌, length, map, IfOk, IsTrue};
ghost use Rattle.std.specs.Arc.{arc_value};
ghost use Rattle.prin_term.specs.View.{grant, principal};
ghost use Rattle.stmt_codec.specs.View.{certificates};
ghost use Rattle.taos_calculus.specs.Question.{IsAskable, IsProofOf, IsTermOf, MayAnswer, question_of};
ghost use Rattle.taos_calculus.specs.Tables.{lines_of};
ghost use Rattle.taos_calculus.specs.declared.decide.TheConstants.{MAX_CERTS};
ghost use Rattle.lemma_memo.specs.Memory.{Begins, IsMemo, Remembers, empty_memo};
ghost use Rattle.lemma_memo.specs.declared.memory.TheConstants.{MAX_LEMMAS};

use crate::memory::{MAX_LEMMAS, Memory};
use prin_term::{Anchor, Entry, Term};
use std::alloc::{AllocError, Global};
use std::marker::Model;
use std::sync::Arc;
use stmt_codec::Cert;
use taos_calculus::{Decide, MAX_CERTS, Taken};

/// A decider that keeps what another one proved from anchors and commons alone, and proves it again
/// without that one, as long as each certificate that it cites is chosen. It answers as every decider
/// has to: nothing that stands on the answers of any decider shows that it remembers.
#[derive(Drop)]
pub struct Lemmas<D: Decide> {
    inner: D,
    memory: Memory,
}

impl<D: Decide> Model for Lemmas<D> {
    ghost use Rattle.std.specs.Coded.{codes};
    ghost use Rattle.prin_term.specs.Codes.{principal_code};
    ghost use Rattle.lemma_memo.specs.Question.{FitsQuestion, Remembering};

    ghost Value = { Remembering D };

    ghost coded = { Prim.hlevel (codes, principal_code) };

    ghost view = { λ l. record { inner = l.inner; memo = l.memory } };

    // What is known of a question is so of the one that the decider was asked.
    ghost invariant = { λ l. FitsQuestion (D.question l.inner) l.memory };
}

impl<D: Decide + Drop> Lemmas<D> {
    /// The decider, with room for so many lemmas from these anchors and commons. Without room it
    /// keeps none.
    pub fn new(
        inner: D,
        alloc: Global,
        room: usize,
        anchors: Arc<Vec<Anchor>>,
        commons: &[Arc<Cert>],
    ) -> Result<Lemmas<D>, AllocError>
        requires room { room ≤ MAX_LEMMAS }
        requires few { length commons.now ≤ MAX_CERTS }
        ensures inner { IfOk result (λ l. l.inner ≡ inner) }
        ensures memo { IfOk result (λ l. l.memo ≡ empty_memo room (arc_value anchors).items
            (certificates commons.now)) }
    {
        Ok(Lemmas {
            inner,
            memory: Memory::new(alloc, room, anchors, commons)?,
        })
    }

    /// How many lemmas are kept.
    pub fn held(&self) -> usize
        ensures count { result ≡ length self.now.memo.lemmas }
        ensures memo { IsMemo self.now.memo }
    {
        self.memory.held()
    }
}

impl<D: Decide + Drop> Decide for Lemmas<D> {
    ghost question = { λ l. D.question l.inner };

    fn begin(
        &mut self,
        anchors: &[Anchor],
        certs: &[Arc<Cert>],
        chosen: &[bool],
        subject: &Term,
        list: &[Entry],
    )
        requires { IsAskable anchors.now (certificates certs.now) chosen.now
            (principal subject.now) (map grant list.now) }
        ensures asked { D.question self.new.inner ≡ question_of anchors.now
            (certificates certs.now) chosen.now (principal subject.now) (map grant list.now) }
        ensures begins { Begins self.old.memo self.new.memo anchors.now (certificates certs.now)
            chosen.now }
    {
        self.memory.begin(anchors, certs, chosen);
        self.inner.begin(anchors, certs, chosen, subject, list);
    }

    fn derives(&mut self, left: &Term, right: &Term) -> bool
        requires left { IsTermOf (D.question self.old.inner) (principal left.now) }
        requires right { IsTermOf (D.question self.old.inner) (principal right.now) }
        ensures answer { IsTrue result ↔ MayAnswer (D.question self.old.inner)
            (principal left.now) (principal right.now) }
        ensures same { D.question self.new.inner ≡ D.question self.old.inner }
        ensures stays { self.new.memo ≡ self.old.memo }
    {
        if !self.memory.looks() {
            return self.inner.derives(left, right);
        }
        self.memory.serves(left, right) || self.inner.derives(left, right)
    }

    fn take_proof(&mut self, alloc: Global, left: &Term, right: &Term) -> Result<Taken, AllocError>
        requires left { IsTermOf (D.question self.old.inner) (principal left.now) }
        requires right { IsTermOf (D.question self.old.inner) (principal right.now) }
        requires derivable { MayAnswer (D.question self.old.inner) (principal left.now)
            (principal right.now) }
        ensures taken { IfOk result (λ t. IsProofOf (D.question self.old.inner)
            (principal left.now) (principal right.now) (lines_of t.proof) t.cites.items) }
        ensures same { D.question self.new.inner ≡ D.question self.old.inner }
        ensures remembers { Remembers self.old.memo (principal left.now) (principal right.now)
            self.new.memo result }
    {
        if !self.memory.looks() {
            return self.inner.take_proof(alloc, left, right);
        }
        if let Some(told) = self.memory.recall(alloc, left, right) {
            return told;
        }
        let taken = self.inner.take_proof(alloc, left, right)?;
        self.memory.keep(alloc, left, right, &taken);
        Ok(taken)
    }
}
