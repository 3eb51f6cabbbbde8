//! The waits and limits of the outside, as a law.

ghost use Rattle.std.specs.Prelude.{◌≡◌};
ghost use Rattle.system_io.specs.declared.clock.TheConstants.{AHEAD};
ghost use Rattle.system_io.specs.declared.exchange.TheConstants.{MAX_ANSWER};
ghost use Rattle.system_io.specs.declared.listen.TheConstants.{MAX_ADDRESSES};
ghost use Rattle.system_io.specs.declared.outbox.TheConstants.{PIECE};
ghost use Rattle.system_io.specs.declared.peer.TheConstants.{FIRST, FRAME, IDLE, TAKE, LINGER};
ghost use Rattle.system_io.specs.declared.relay.TheConstants.{QUIET};
ghost use Rattle.system_io.specs.declared.wallet_exchange.TheConstants.{MAX_GIVING};
ghost use Rattle.system_io.specs.declared.wire.TheConstants.{LIMIT, REST};

/// Each wait and each limit is this number.
pub fn limits_are()
    ensures clock { AHEAD ≡ 86400 }
    ensures answer { (MAX_ANSWER ≡ 2054) × (MAX_GIVING ≡ 1048598) }
    ensures addresses { MAX_ADDRESSES ≡ 16 }
    ensures piece { PIECE ≡ 65536 }
    ensures peer { (FIRST ≡ 2) × (FRAME ≡ 10) × (IDLE ≡ 60) × (TAKE ≡ 10) × (LINGER ≡ 1) }
    ensures relay { (LIMIT ≡ 5) × (REST ≡ 1) × (QUIET ≡ 1) }
{}
