//! The limits of a shard, as a law.

ghost use Rattle.std.specs.Prelude.{◌≡◌};
ghost use Rattle.agent_core.specs.declared.limits.TheConstants.{MAX_OWN, MAX_COMMONS, MAX_WITHDRAWN, MAX_PRESENTED, MAX_CHANNELS, MAX_JOURNAL, MAX_SHARDS};

/// Each limit of a shard is this number.
pub fn limits_are()
    ensures own { MAX_OWN ≡ 32 }
    ensures commons { MAX_COMMONS ≡ 32 }
    ensures withdrawn { MAX_WITHDRAWN ≡ 64 }
    ensures presented { MAX_PRESENTED ≡ 16 }
    ensures channels { MAX_CHANNELS ≡ 1024 }
    ensures journal { MAX_JOURNAL ≡ 1048576 }
    ensures shards { MAX_SHARDS ≡ 64 }
{}
