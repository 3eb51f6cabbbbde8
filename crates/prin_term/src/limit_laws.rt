//! The limits of terms, as a law.

ghost use Rattle.std.specs.Prelude.{◌≡◌};
ghost use Rattle.prin_term.specs.declared.limits.TheConstants.{MAX_DEPTH, CERT_NODES, QUOTED_NODES, ENTRY_NODES, MAX_ENTRIES, MAX_ANCHORS};

/// Depths and counts of nodes: each limit is this number.
pub fn limits_are()
    ensures depth { MAX_DEPTH ≡ 16 }
    ensures certificate { CERT_NODES ≡ 64 }
    ensures quoted { QUOTED_NODES ≡ 14 }
    ensures entry { ENTRY_NODES ≡ 16 }
    ensures entries { MAX_ENTRIES ≡ 8 }
    ensures anchors { MAX_ANCHORS ≡ 64 }
{}
