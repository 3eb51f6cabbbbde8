//! The limit of the journals that are judged, as a law.

ghost use Rattle.std.specs.Prelude.{◌≡◌};
ghost use Rattle.node_journals.specs.declared.replay.TheConstants.{MAX_JOURNALS};

/// How many bytes of journals are judged at most: this number.
pub fn limits_are()
    ensures journals { MAX_JOURNALS ≡ 268435456 }
{}
