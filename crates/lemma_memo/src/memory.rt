//! Lemmas, and what is known of the question that is asked now.

ghost use Rattle.std.specs.Prelude.{◌≡◌, ◌↔◌, ◌≤◌, length, IfOk, IsTrue};
ghost use Rattle.std.specs.Arc.{arc_value};
ghost use Rattle.prin_term.specs.View.{principal};
ghost use Rattle.stmt_codec.specs.View.{certificates};
ghost use Rattle.taos_calculus.specs.declared.decide.TheConstants.{MAX_CERTS};
ghost use Rattle.lemma_memo.specs.Memory.{Begins, IsMemo, IsSound, Lemma, Serves, empty_memo};
ghost use Rattle.lemma_memo.specs.Question.{Keeps, Recalls, TellsSound};

use crate::here::{Here, look};
use crate::kept::{Kept, Key, keep, recall, search};
use lru::LruCache;
use prin_term::{Anchor, Term};
use std::alloc::{AllocError, Global};
use std::marker::Model;
use std::num::NonZeroUsize;
use std::sync::Arc;
use stmt_codec::Cert;
use taos_calculus::{MAX_CERTS, Taken};

/// The most lemmas that are kept at a time.
pub const MAX_LEMMAS: usize = 1_024;

/// Lemmas, the anchors and commons on which they rest, and which commons are chosen now.
#[derive(Drop)]
pub struct Memory {
    anchors: Arc<Vec<Anchor>>,
    commons: Vec<Arc<Cert>>,
    same: bool,
    here: Here,
    lemmas: Option<LruCache<Key, Kept>>,
    // The key of the lemma that served last.
    last: Key,
}

impl Model for Memory {
    ghost use Rattle.std.specs.Prelude.{◌≤◌, length};
    ghost use Rattle.std.specs.Arc.{arc_value};
    ghost use Rattle.std.specs.Coded.{codes};
    ghost use Rattle.prin_term.specs.Codes.{principal_code};
    ghost use Rattle.stmt_codec.specs.View.{certificates};
    ghost use Rattle.taos_calculus.specs.declared.decide.TheConstants.{MAX_CERTS};
    ghost use Rattle.lemma_memo.specs.Memory.{Memo};
    ghost use Rattle.lemma_memo.specs.Kept.{AreFirst, HoldsKept, memo_of};

    ghost Value = { Memo };

    ghost coded = { Prim.hlevel (codes, principal_code) };

    ghost view = { λ m. memo_of (arc_value m.anchors).items (certificates m.commons.items) m.same
        m.here.items m.lemmas };

    // Commons go by the first number that each has, and what is kept is proved by them.
    ghost invariant = { λ m. (length m.commons.items ≤ MAX_CERTS)
        × AreFirst (certificates m.commons.items) m.here.items
        × HoldsKept (arc_value m.anchors).items (certificates m.commons.items) m.lemmas };
}

fn are_same(anchors: &[Anchor], others: &[Anchor]) -> bool
    ensures { IsTrue result ↔ (anchors.now ≡ others.now) }
{
    anchors == others
}

// Handles of its own to the same certificates.
fn handles(alloc: Global, certs: &[Arc<Cert>]) -> Result<Vec<Arc<Cert>>, AllocError>
    ensures { IfOk result (λ v. certificates v.items ≡ certificates certs.now) }
{
    let mut out = Vec::with_capacity(alloc, certs.len())?;
    for at in 0..certs.len() {
        out.push(Arc::try_clone(&certs[at])?)?;
    }
    Ok(out)
}

impl Memory {
    /// Keeps nothing yet, and never anything if there is no room.
    pub fn new(
        alloc: Global,
        room: usize,
        anchors: Arc<Vec<Anchor>>,
        commons: &[Arc<Cert>],
    ) -> Result<Memory, AllocError>
        requires { length commons.now ≤ MAX_CERTS }
        ensures { IfOk result (λ m. m ≡ empty_memo room (arc_value anchors).items
            (certificates commons.now)) }
    {
        let lemmas = match NonZeroUsize::new(room) {
            Some(room) => Some(LruCache::sparse(alloc, room)?),
            None => None,
        };
        Ok(Memory {
            anchors,
            commons: handles(alloc, commons)?,
            same: false,
            here: Here::new(),
            lemmas,
            last: [0; 32],
        })
    }

    /// How many lemmas are kept.
    pub fn held(&self) -> usize
        ensures count { result ≡ length self.now.lemmas }
        ensures memo { IsMemo self.now }
    {
        match &self.lemmas {
            Some(lemmas) => lemmas.len(),
            None => 0,
        }
    }

    /// Looks what a question asks about. Takes no memory.
    pub fn begin(&mut self, anchors: &[Anchor], certs: &[Arc<Cert>], chosen: &[bool])
        requires certs { length certs.now ≤ MAX_CERTS }
        requires chosen { length chosen.now ≡ length certs.now }
        ensures { Begins self.old self.new anchors.now (certificates certs.now) chosen.now }
    {
        self.same = self.lemmas.is_some() && are_same(self.anchors.as_slice(), anchors);
        if self.same {
            look(&mut self.here, &self.commons, certs, chosen);
        }
    }

    /// Whether lemmas are looked for and kept at this question.
    pub fn looks(&self) -> bool
        ensures { result ≡ self.now.same }
    {
        self.same
    }

    /// Whether a lemma serves. Takes no memory.
    pub fn serves(&mut self, left: &Term, right: &Term) -> bool
        ensures lemma { IsTrue result → (l : Lemma) × IsSound self.old.anchors l
            × Serves self.old (principal left.now) (principal right.now) l }
        ensures stays { self.new ≡ self.old }
    {
        let Some(lemmas) = &self.lemmas else {
            return false;
        };
        if !self.same {
            return false;
        }
        let Some(found) = search(lemmas, &self.here, &self.last, left, right) else {
            return false;
        };
        let key = found.0;
        self.last = key;
        true
    }

    /// The proof by the lemma that serves, which becomes the one used last.
    pub fn recall(
        &mut self,
        alloc: Global,
        left: &Term,
        right: &Term,
    ) -> Option<Result<Taken, AllocError>>
        ensures { Recalls self.old (principal left.now) (principal right.now) self.new result }
    {
        if !self.same {
            return None;
        }
        let Some(lemmas) = &mut self.lemmas else {
            return None;
        };
        match search(lemmas, &self.here, &self.last, left, right) {
            Some(found) => {
                let key = found.0;
                Some(recall(lemmas, alloc, &key, &found.1))
            }
            None => None,
        }
    }

    /// Keeps a proof that rests on the anchors and commons alone, if memory is there.
    pub fn keep(&mut self, alloc: Global, left: &Term, right: &Term, taken: &Taken)
        requires { TellsSound self.old (principal left.now) (principal right.now) taken.now }
        ensures { Keeps self.old (principal left.now) (principal right.now) taken.now self.new }
    {
        if !self.same {
            return;
        }
        if let Some(lemmas) = &mut self.lemmas {
            keep(lemmas, alloc, &self.here, left, right, taken);
        }
    }
}
