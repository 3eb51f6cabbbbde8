//! The decider, seen by what it was asked.

ghost use Rattle.std.specs.Prelude.{◌≡◌, IfOk, []};
ghost use Rattle.prin_term.specs.Principal.{Key};
ghost use Rattle.taos_calculus.specs.Question.{question_of};

use crate::asked::Asked;
use prin_term::{Anchor, Entry, Term};
use std::alloc::{AllocError, Global};
use std::marker::Model;
use std::sync::Arc;
use stmt_codec::Cert;
use taos_calculus::{Decide, Taken};

/// A decider that searches for what it is asked, and for what this needs, and for no more.
#[derive(Drop)]
pub struct Workbench {
    asked: Asked,
}

impl Model for Workbench {
    ghost use Rattle.std.specs.Coded.{codes};
    ghost use Rattle.prin_term.specs.Codes.{principal_code};
    ghost use Rattle.taos_calculus.specs.Question.{Question};
    ghost use Rattle.goal_search.specs.Asked.{IsAsked, seen};

    ghost Value = { Question };

    ghost coded = { Prim.hlevel (codes, principal_code) };

    ghost view = { λ w. seen w.asked };

    // The question is taken in, and what is known about it is derivable.
    ghost invariant = { λ w. IsAsked w.asked };
}

impl Workbench {
    /// A decider with room for the largest question. The key 0 is asked about, of which nothing is
    /// known.
    pub fn reserve(alloc: Global) -> Result<Workbench, AllocError>
        ensures { IfOk result (λ w. w ≡ question_of [] [] [] (Key 0) []) }
    {
        let mut asked = Asked::reserve(alloc)?;
        asked.start(&[], &[], &[], &Term::Key(0), &[]);
        Ok(Workbench { asked })
    }
}

impl Decide for Workbench {
    ghost use Rattle.taos_calculus.specs.Question.{Question};

    ghost question = { λ w. w };

    fn begin(
        &mut self,
        anchors: &[Anchor],
        certs: &[Arc<Cert>],
        chosen: &[bool],
        subject: &Term,
        list: &[Entry],
    ) {
        self.asked.begin(anchors, certs, chosen, subject, list);
    }

    fn derives(&mut self, left: &Term, right: &Term) -> bool {
        self.asked.derives(left, right)
    }

    fn take_proof(
        &mut self,
        alloc: Global,
        left: &Term,
        right: &Term,
    ) -> Result<Taken, AllocError> {
        self.asked.take_proof(alloc, left, right)
    }
}
