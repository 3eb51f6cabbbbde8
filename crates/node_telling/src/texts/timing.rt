//! How long replies take.

ghost use Rattle.node_telling.specs.Times.{FallsAt};

/// The greatest microseconds of each count but the last, which has all others.
pub const BOUNDS: [u64; 16] = [
    100, 250, 500, 1_000, 2_500, 5_000, 10_000, 25_000, 50_000, 100_000, 250_000, 500_000,
    1_000_000, 2_500_000, 5_000_000, 10_000_000,
];

/// Into which count so many microseconds fall: that of the first bound which is no less.
pub fn place_of(micros: u64) -> usize
    ensures { FallsAt micros result }
{
    for place in 0..BOUNDS.len() {
        if micros <= BOUNDS[place] {
            return place;
        }
    }
    BOUNDS.len()
}
