//! The limits of commands, as a law.

ghost use Rattle.std.specs.Prelude.{◌≡◌};
ghost use Rattle.node_commands.specs.declared.check.TheConstants.{MAX_REPLY};
ghost use Rattle.node_commands.specs.declared.words.wanted.TheConstants.{MAX_FRAMES, LANE_CONNECTIONS};

/// A reply of at most 67,108,864 bytes is looked over.
/// Frames of a connection and connections of a lane, where the words give no other number.
pub fn limits_are()
    ensures reply { MAX_REPLY ≡ 67108864 }
    ensures frames { MAX_FRAMES ≡ 1000000 }
    ensures connections { LANE_CONNECTIONS ≡ 1 }
{}
