//! The limit of kept proofs, as a law.

ghost use Rattle.std.specs.Prelude.{◌≡◌};
ghost use Rattle.proof_cache.specs.declared.row.TheConstants.{MAX_KEPT};

/// At most 64 proofs are kept.
pub fn limits_are()
    ensures { MAX_KEPT ≡ 64 }
{}
