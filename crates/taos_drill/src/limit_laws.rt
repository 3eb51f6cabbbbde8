//! The numbers of a drill, as a law.

ghost use Rattle.std.specs.Prelude.{◌≡◌};
ghost use Rattle.taos_drill.specs.declared.numbers.TheConstants.{MAX_REQUESTS, MAX_LANES, READING};

/// Requests and lanes of a drill at most, and what its clocks read.
pub fn limits_are()
    ensures requests { MAX_REQUESTS ≡ 10000 }
    ensures lanes { MAX_LANES ≡ 16 }
    ensures reading { READING ≡ 1000 }
{}
