//! The first bytes, the limits and the status, as a law.

ghost use Rattle.std.specs.Prelude.{◌≡◌};
ghost use Rattle.cred_pull.specs.declared.limits.TheConstants.{FETCH, GIVES, MAX_ANSWER, LONGEST_ANSWER, MAX_WALLET_CERT, MAX_WALLET_LINES, PULL_FAILED};

/// Each first byte, each limit and the status is this number.
pub fn limits_are()
    ensures firsts { (FETCH ≡ 8) × (GIVES ≡ 9) }
    ensures answer { MAX_ANSWER ≡ 1048594 }
    ensures longest { LONGEST_ANSWER ≡ 16418 }
    ensures certificate { MAX_WALLET_CERT ≡ 1024 }
    ensures lines { MAX_WALLET_LINES ≡ 4096 }
    ensures status { PULL_FAILED ≡ 15 }
{}
