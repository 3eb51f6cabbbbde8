//! The codes and limits of paths, as a law.

ghost use Rattle.std.specs.Prelude.{◌≡◌};
ghost use Rattle.relay_path.specs.declared.code.TheConstants.{UNKNOWN_SENDER, LOOP, TOO_FAR, UNKNOWN_PEER, UNKNOWN_DOMAIN};
ghost use Rattle.relay_path.specs.declared.limits.TheConstants.{CARRIED, MAX_VISITED, MAX_ROUTE, MAX_DOMAINS, MAX_ISSUERS, MAX_NODES, MAX_LINKS};

/// Each code, each limit and the first byte is this number.
pub fn limits_are()
    ensures unknown_sender { UNKNOWN_SENDER ≡ 7 }
    ensures returns { LOOP ≡ 8 }
    ensures too_far { TOO_FAR ≡ 9 }
    ensures unknown_peer { UNKNOWN_PEER ≡ 10 }
    ensures unknown_domain { UNKNOWN_DOMAIN ≡ 11 }
    ensures carried { CARRIED ≡ 3 }
    ensures visited { MAX_VISITED ≡ 3 }
    ensures route { MAX_ROUTE ≡ 4 }
    ensures domains { MAX_DOMAINS ≡ 16 }
    ensures issuers { MAX_ISSUERS ≡ 1024 }
    ensures nodes { MAX_NODES ≡ 1024 }
    ensures links { MAX_LINKS ≡ 15 }
{}
