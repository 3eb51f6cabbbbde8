//! A moment in whole seconds.

ghost use Rattle.std.specs.Prelude.{◌≡◌, ◌/◌};
ghost use Rattle.std.specs.Time.{system_time_nanos};

use std::time::{SystemTime, UNIX_EPOCH};

/// The whole seconds since 1970 of a reading.
pub fn seconds_of(time: SystemTime) -> u64
    ensures { result ≡ system_time_nanos time / 1_000_000_000 }
{
    match time.duration_since(UNIX_EPOCH) {
        Ok(since) => since.as_secs(),
        Err(_) => 0,
    }
}
