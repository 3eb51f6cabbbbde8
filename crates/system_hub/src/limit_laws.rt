//! The limits, as a law.

ghost use Rattle.std.specs.Prelude.{◌≡◌};
ghost use Rattle.system_hub.specs.declared.limits.TheConstants.{CLIENTS, OWN, EVENTS, PIECE, OUT, GUESTS, LEAVINGS, LOOK, ABSENCE};
ghost use Rattle.system_hub.specs.declared.machine.limits.TheConstants.{MAX_KEPT, MAX_UNDER_WAY, MAX_READY, MAX_LEFT, MAX_CLIENTS, MAX_AT_LANE, MAX_LANES};

/// Each limit, as a number.
pub fn limits_are()
    ensures clients { (CLIENTS ≡ 10000) × (OWN ≡ 128) }
    ensures bytes { (PIECE ≡ 65536) × (OUT ≡ 65536) × (LEAVINGS ≡ 4194304) }
    ensures events { (EVENTS ≡ 1024) × (GUESTS ≡ 64) }
    ensures times { (LOOK ≡ 250) × (ABSENCE ≡ 10) }
    ensures kept { MAX_KEPT ≡ 65540 }
    ensures under_way { MAX_UNDER_WAY ≡ 2 }
    ensures ready { MAX_READY ≡ 65536 }
    ensures left { MAX_LEFT ≡ 67174404 }
    ensures seats { MAX_CLIENTS ≡ 65536 }
    ensures at_lane { MAX_AT_LANE ≡ 1024 }
    ensures lanes { MAX_LANES ≡ 65536 }
{}
