//! The numbers of requests and replies, as a law.

ghost use Rattle.std.specs.Prelude.{◌≡◌};
ghost use Rattle.taos_wire.specs.declared.request.TheConstants.{MAX_CERTS};
ghost use Rattle.taos_wire.specs.declared.reply.TheConstants.{LAST_STATUS, MAX_CITED};
ghost use Rattle.taos_wire.specs.declared.reply_head.TheConstants.{HEAD};
ghost use Rattle.taos_wire.specs.declared.reply_writing.TheConstants.{VERSION, GRANTED, DENIED};

/// What a message carries at most, and how a reply begins: each is this number.
pub fn limits_are()
    ensures presented { MAX_CERTS ≡ 16 }
    ensures cited { MAX_CITED ≡ 64 }
    ensures head { (VERSION ≡ 4) × (HEAD ≡ 27) }
    ensures statuses { (GRANTED ≡ 0) × (DENIED ≡ 1) × (LAST_STATUS ≡ 14) }
{}
