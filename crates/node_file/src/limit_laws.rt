//! The limits of openings and of files, as a law.

ghost use Rattle.std.specs.Prelude.{◌≡◌};
ghost use Rattle.node_file.specs.declared.limits.TheConstants.{MAX_FILE, MAX_SHARDS, MAX_KEEP, MAX_LIMIT, MAX_CHANNELS, MAX_ANCHORS, MAX_COMMONS, MAX_OBJECTS, MAX_ROOM, MAX_ISSUERS, MAX_NODES};

/// Each limit of a file is this number.
pub fn limits_are()
    ensures file { MAX_FILE ≡ 4194304 }
    ensures shards { MAX_SHARDS ≡ 64 }
    ensures keep { MAX_KEEP ≡ 31536000 }
    ensures journal { MAX_LIMIT ≡ 1048576 }
    ensures channels { MAX_CHANNELS ≡ 1024 }
    ensures anchors { MAX_ANCHORS ≡ 64 }
    ensures commons { MAX_COMMONS ≡ 32 }
    ensures objects { MAX_OBJECTS ≡ 256 }
    ensures room { MAX_ROOM ≡ 8388608 }
    ensures issuers { MAX_ISSUERS ≡ 4096 }
    ensures nodes { MAX_NODES ≡ 1024 }
{}
