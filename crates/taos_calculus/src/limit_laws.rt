//! The limits of proofs and questions, as a law.

ghost use Rattle.std.specs.Prelude.{◌≡◌};
ghost use Rattle.taos_calculus.specs.declared.proof.TheConstants.{MAX_NODES, MAX_LINES};
ghost use Rattle.taos_calculus.specs.declared.decide.TheConstants.{MAX_ANCHORS, MAX_CERTS, MAX_ENTRIES};

/// Nodes and lines of a proof, and what a question has at most: each limit is this number.
pub fn limits_are()
    ensures nodes { MAX_NODES ≡ 1296 }
    ensures lines { MAX_LINES ≡ 1762560 }
    ensures anchors { MAX_ANCHORS ≡ 64 }
    ensures certificates { MAX_CERTS ≡ 64 }
    ensures entries { MAX_ENTRIES ≡ 8 }
{}
