//! The codes and limits of reseal frames and of what is opened, as a law.

ghost use Rattle.std.specs.Prelude.{◌≡◌};
ghost use Rattle.relay_core.specs.declared.code.TheConstants.{MALFORMED, UNKNOWN_ISSUER, BAD_SEAL, WRONG_KIND, UNKNOWN_NODE};
ghost use Rattle.relay_core.specs.declared.message.TheConstants.{ASK, ANSWER, RESEALED, NO_MEMORY, MAX_CERT, MAX_FRAME};
ghost use Rattle.relay_core.specs.declared.opened.TheConstants.{OPENED_ROOM};
ghost use Rattle.relay_core.specs.declared.presenting.TheConstants.{BAD_RESEAL};

/// Each code, each first byte and each limit is this number.
pub fn limits_are()
    ensures malformed { MALFORMED ≡ 1 }
    ensures unknown_issuer { UNKNOWN_ISSUER ≡ 2 }
    ensures bad_seal { BAD_SEAL ≡ 3 }
    ensures wrong_kind { WRONG_KIND ≡ 4 }
    ensures unknown_node { UNKNOWN_NODE ≡ 5 }
    ensures bad_reseal { BAD_RESEAL ≡ 6 }
    ensures firsts { (ASK ≡ 5) × (ANSWER ≡ 6) }
    ensures answers { (RESEALED ≡ 0) × (NO_MEMORY ≡ 11) }
    ensures certificate { MAX_CERT ≡ 2048 }
    ensures frame { MAX_FRAME ≡ 65536 }
    ensures opened { OPENED_ROOM ≡ 256 }
{}
