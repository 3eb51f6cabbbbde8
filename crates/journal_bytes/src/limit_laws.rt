//! The numbers of journals as bytes, as a law.

ghost use Rattle.std.specs.Prelude.{◌≡◌};
ghost use Rattle.agent_core.specs.declared.limits.TheConstants.{MAX_PRESENTED};
ghost use Rattle.taos_calculus.specs.declared.decide.TheConstants.{MAX_CERTS};
ghost use Rattle.journal_bytes.specs.declared.limits.TheConstants.{JOURNALS, VERSION};
ghost use Rattle.journal_bytes.specs.declared.limits.TheConstants.{LAST_EVENT, MAX_BODIES, MAX_CITES};

/// How journals begin, and what an entry has at most: each is this number.
pub fn limits_are()
    ensures head { (JOURNALS ≡ 7) × (VERSION ≡ 1) }
    ensures events { LAST_EVENT ≡ 7 }
    ensures bodies { (MAX_BODIES ≡ 16) × (MAX_BODIES ≡ MAX_PRESENTED) }
    ensures cites { (MAX_CITES ≡ 64) × (MAX_CITES ≡ MAX_CERTS) }
{}
