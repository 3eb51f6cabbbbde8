//! The decider, seen by what it was asked.

ghost use Rattle.std.specs.Prelude.{◌≡◌, ◌≢◌, ◌↔◌, ℕ, ◌<◌, ◌^◌, IsTrue};
ghost use Rattle.std.specs.Prelude.{IfOk, MatchOption, [], length, map};
ghost use Rattle.prin_term.specs.Principal.{Key};
ghost use Rattle.prin_term.specs.View.{principal};
ghost use Rattle.taos_calculus.specs.Tables.{IsNodeTable, lines_of, named};
ghost use Rattle.taos_calculus.specs.Question.{question_of, IsProofOf, IsTermOf, MayAnswer};
ghost use Rattle.taos_saturate.specs.Held.{IsHeld, seen};

use crate::held::Held;
use prin_term::{Anchor, Entry, Term};
use std::alloc::{AllocError, Global};
use std::marker::Model;
use std::sync::Arc;
use stmt_codec::Cert;
use taos_calculus::{Decide, Node, Taken, node_is};

// The number of the term.
fn find(nodes: &[Node], term: &Term) -> Option<u16>
    requires table { IsNodeTable nodes.now }
    requires fits { length nodes.now < 2 ^ 16 }
    ensures { MatchOption result
        ((i : ℕ) → i < length nodes.now → named nodes.now i ≢ principal term.now)
        (λ i. (i < length nodes.now) × (named nodes.now i ≡ principal term.now)) }
{
    for i in 0..nodes.len() {
        if node_is(nodes, i as u16, term) {
            return Some(i as u16);
        }
    }
    None
}

// A proof of `left => right`, which is derivable.
fn proof_for(held: &Held, alloc: Global, left: &Term, right: &Term) -> Result<Taken, AllocError>
    requires held { IsHeld held.now }
    requires left_in { IsTermOf (seen held.now) (principal left.now) }
    requires right_in { IsTermOf (seen held.now) (principal right.now) }
    requires derivable { MayAnswer (seen held.now) (principal left.now) (principal right.now) }
    ensures { IfOk result (λ t. IsProofOf (seen held.now) (principal left.now)
        (principal right.now) (lines_of t.proof) t.cites.items) }
{
    let i = find(&held.table.nodes, left).unwrap();
    let j = find(&held.table.nodes, right).unwrap();
    let number = held.table.speaks(i, j).unwrap();
    held.proof_of(alloc, i, j, number)
}

/// A decider that knows all that is derivable about the terms that it was asked about.
#[derive(Drop)]
pub struct Saturator {
    held: Held,
}

impl Model for Saturator {
    ghost use Rattle.std.specs.Coded.{codes};
    ghost use Rattle.prin_term.specs.Codes.{principal_code};
    ghost use Rattle.taos_calculus.specs.Question.{Question};
    ghost use Rattle.taos_saturate.specs.Held.{IsHeld, seen};

    ghost Value = { Question };

    ghost coded = { Prim.hlevel (codes, principal_code) };

    ghost view = { λ s. seen s.held };

    // All that is derivable about the question is known.
    ghost invariant = { λ s. IsHeld s.held };
}

impl Saturator {
    /// A decider with room for the largest question. The key 0 is asked about, of which nothing is
    /// known.
    pub fn reserve(alloc: Global) -> Result<Saturator, AllocError>
        ensures { IfOk result (λ s. s ≡ question_of [] [] [] (Key 0) []) }
    {
        let mut held = Held::reserve(alloc)?;
        held.begin(&[], &[], &[], &Term::Key(0), &[]);
        Ok(Saturator { held })
    }

    // Whether `left => right` is among the facts.
    fn knows(&self, left: &Term, right: &Term) -> bool
        requires left_in { IsTermOf self.now (principal left.now) }
        requires right_in { IsTermOf self.now (principal right.now) }
        ensures { IsTrue result ↔ MayAnswer self.now (principal left.now) (principal right.now) }
    {
        match find(&self.held.table.nodes, left) {
            Some(i) => match find(&self.held.table.nodes, right) {
                Some(j) => match self.held.table.speaks(i, j) {
                    Some(_) => true,
                    None => false,
                },
                None => false,
            },
            None => false,
        }
    }
}

impl Decide for Saturator {
    ghost use Rattle.taos_calculus.specs.Question.{Question};

    ghost question = { λ s. s };

    fn begin(
        &mut self,
        anchors: &[Anchor],
        certs: &[Arc<Cert>],
        chosen: &[bool],
        subject: &Term,
        list: &[Entry],
    ) {
        self.held.begin(anchors, certs, chosen, subject, list);
    }

    fn derives(&mut self, left: &Term, right: &Term) -> bool {
        self.knows(left, right)
    }

    fn take_proof(
        &mut self,
        alloc: Global,
        left: &Term,
        right: &Term,
    ) -> Result<Taken, AllocError> {
        proof_for(&self.held, alloc, left, right)
    }
}
