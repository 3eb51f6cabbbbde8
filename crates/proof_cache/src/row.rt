//! A kept proof.

ghost use Rattle.std.specs.Prelude.{◌≡◌};
ghost use Rattle.prin_term.specs.View.{principal};
ghost use Rattle.proof_cache.specs.Mark.{mark_of};

use crate::cached::Cached;
use crate::mark::mark_of;
use std::sync::Arc;

/// How many proofs are kept at most.
pub const MAX_KEPT: usize = 64;

/// A kept proof, with the number of its key.
#[derive(Drop)]
pub(crate) struct Row {
    pub mark: u64,
    pub proof: Arc<Cached>,
    pub ghost marked: { mark ≡ mark_of (principal proof.value.subject) (principal proof.value.who) },
}

impl Row {
    pub fn of(proof: Arc<Cached>) -> Row
        ensures { result.proof ≡ proof }
    {
        let mark = mark_of(&proof.subject, &proof.who);
        Row { mark, proof }
    }
}
