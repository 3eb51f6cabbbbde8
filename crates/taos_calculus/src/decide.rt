//! What decides who speaks for whom.

ghost use Rattle.std.specs.Prelude.{◌≡◌, ◌↔◌, List, ℕ, map, IsTrue, IfOk};
ghost use Rattle.prin_term.specs.View.{grant, principal};
ghost use Rattle.stmt_codec.specs.View.{certificates};
ghost use Rattle.taos_calculus.specs.Tables.{lines_of};
ghost use Rattle.taos_calculus.specs.Question.{Question, question_of, IsAskable};
ghost use Rattle.taos_calculus.specs.Question.{IsTermOf, MayAnswer, IsProofOf};

use crate::proof::Proof;
use prin_term::{Anchor, Entry, Term};
use std::alloc::{AllocError, Global};
use std::sync::Arc;
use stmt_codec::Cert;

/// How many anchors a question has at most.
pub const MAX_ANCHORS: usize = prin_term::MAX_ANCHORS as usize;

/// How many certificates a question has at most.
pub const MAX_CERTS: usize = 64;

/// How many entries the list of a question has at most.
pub const MAX_ENTRIES: usize = prin_term::MAX_ENTRIES as usize;

/// A proof, with the places of the certificates that it cites, in the order of its numbers.
#[derive(Drop)]
pub struct Taken {
    pub proof: Proof,
    pub cites: Vec<u16>,
}

/// Decides for one question at a time, which `begin` asks and no other call changes.
pub trait Decide {
    /// What was asked last.
    ghost question: { Self → Question };

    /// Asks about the certificates at whose place `chosen` is true. Takes no memory.
    fn begin(
        &mut self,
        anchors: &[Anchor],
        certs: &[Arc<Cert>],
        chosen: &[bool],
        subject: &Term,
        list: &[Entry],
    )
        requires { IsAskable anchors.now (certificates certs.now) chosen.now
            (principal subject.now) (map grant list.now) }
        ensures { question self.new ≡ question_of anchors.now (certificates certs.now) chosen.now
            (principal subject.now) (map grant list.now) };

    /// Whether `left => right` is derivable. Takes no memory.
    fn derives(&mut self, left: &Term, right: &Term) -> bool
        requires left { IsTermOf (question self.old) (principal left.now) }
        requires right { IsTermOf (question self.old) (principal right.now) }
        ensures answer { IsTrue result
            ↔ MayAnswer (question self.old) (principal left.now) (principal right.now) }
        ensures same { question self.new ≡ question self.old };

    /// A proof of `left => right` without waste.
    fn take_proof(&mut self, alloc: Global, left: &Term, right: &Term) -> Result<Taken, AllocError>
        requires left { IsTermOf (question self.old) (principal left.now) }
        requires right { IsTermOf (question self.old) (principal right.now) }
        requires derivable { MayAnswer (question self.old) (principal left.now)
            (principal right.now) }
        ensures taken { IfOk result (λ t. IsProofOf (question self.old) (principal left.now)
            (principal right.now) (lines_of t.proof) t.cites.items) }
        ensures same { question self.new ≡ question self.old };
}
