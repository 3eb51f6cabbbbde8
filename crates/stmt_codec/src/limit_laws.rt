//! The limits of certificate bodies, as a law.

ghost use Rattle.std.specs.Prelude.{◌≡◌};
ghost use Rattle.stmt_codec.specs.declared.limits.TheConstants.{MAX_DISTINCT, MAX_BODY_LEN};

/// Distinct subterms of a body, and its bytes: each limit is this number.
pub fn limits_are()
    ensures distinct { MAX_DISTINCT ≡ 16 }
    ensures length { MAX_BODY_LEN ≡ 990 }
{}
