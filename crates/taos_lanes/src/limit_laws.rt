//! The limit of lanes, and the room of a line, as a law.

ghost use Rattle.std.specs.Prelude.{◌≡◌};
ghost use Rattle.taos_lanes.specs.declared.serving.TheConstants.{MAX_LANES};
ghost use Rattle.taos_lanes.specs.declared.summary.TheConstants.{MAX_LINE};

/// Lanes of a node at most, and bytes of a line: this number.
pub fn limits_are()
    ensures lanes { MAX_LANES ≡ 16 }
    ensures line { MAX_LINE ≡ 256 }
{}
