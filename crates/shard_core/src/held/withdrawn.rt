//! Issuers that are withdrawn.

ghost use Rattle.std.specs.Prelude.{◌≡◌};
ghost use Rattle.agent_core.specs.Held.{is_withdrawn};

use agent_core::MAX_WITHDRAWN;
use arrayvec::ArrayVec;

/// As many issuers as a shard withdraws.
pub(crate) type Withdrawn = ArrayVec<u32, MAX_WITHDRAWN>;

/// Whether the issuer is one of these.
pub(crate) fn is_withdrawn(issuers: &Withdrawn, issuer: u32) -> bool
    ensures { result ≡ is_withdrawn issuers.now.items issuer }
{
    issuers.as_slice().iter().any(|other| issuer == *other)
}
