//! Which lane a client's frames go to.

ghost use Rattle.std.specs.Prelude.{◌≡◌, ◌+◌, ◌<◌, ◌%◌, slice_index};
ghost use Rattle.system_hub.specs.Accounts.{number_at};

// The byte at so many behind the place; one that lacks is 0.
fn byte_at(payload: &[u8], place: usize, more: usize) -> u8
    ensures { result ≡ slice_index payload.now (place + more) }
{
    match place.checked_add(more) {
        None => 0,
        Some(at) => match payload.get(at) {
            None => 0,
            Some(byte) => *byte,
        },
    }
}

/// The lane of who sends this payload first, by the number of four bytes at the place. A byte that
/// it lacks is 0.
pub fn lane_by(payload: &[u8], place: usize, lanes: usize) -> usize
    requires { 0 < lanes }
    ensures lane { result ≡ number_at place payload.now % lanes }
    ensures within { result < lanes }
{
    let high = byte_at(payload, place, 0) as u32 * 256 + byte_at(payload, place, 1) as u32;
    let low = byte_at(payload, place, 2) as u32 * 256 + byte_at(payload, place, 3) as u32;
    (high * 65_536 + low) as usize % lanes
}
