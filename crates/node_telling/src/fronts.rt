//! What stands at the front of each payload of a stream of frames.

ghost use Rattle.std.specs.Prelude.{◌<◌, ◌≤◌, length};

use crate::texts::reply::FRONT;
use arrayvec::ArrayVec;
use system_hub::Place;

/// The front of the payload that passes, however its frame is cut into pieces.
#[derive(Drop)]
pub(crate) struct Fronts {
    place: Place,
    front: ArrayVec<u8, FRONT>,
}

impl Fronts {
    // Before the first frame.
    pub(crate) fn new() -> Fronts {
        Fronts {
            place: Place::new(),
            front: ArrayVec::new(),
        }
    }

    // Takes some of these bytes, up to the end of a frame at most. How many, and whether the frame
    // ended with them.
    pub(crate) fn step(&mut self, bytes: &[u8]) -> (usize, bool)
        requires { 0 < length bytes.now }
        ensures { result.0 ≤ length bytes.now }
    {
        let is_payload = self.place.is_inside();
        let (count, has_ended) = self.place.step(bytes);
        if is_payload {
            let room = FRONT - self.front.len();
            let _ = self.front.try_extend_from_slice(&bytes[..count.min(room)]);
        } else {
            self.front.clear();
        }
        (count, has_ended)
    }

    // Those of these bytes which come before the next frame, and whether a frame ends with them.
    pub(crate) fn until_end<'a>(&self, bytes: &'a [u8]) -> (&'a [u8], bool)
        ensures { length result.0.now ≤ length bytes.now }
    {
        let left = match self.place.left() {
            0 => 1,
            left => left,
        };
        let count = left.min(bytes.len());
        (&bytes[..count], self.place.is_inside() && count == left)
    }

    // The front of the payload once these bytes have passed too.
    pub(crate) fn front_with(&self, bytes: &[u8]) -> ArrayVec<u8, FRONT> {
        let mut front = ArrayVec::new();
        let _ = front.try_extend_from_slice(&self.front);
        let room = FRONT - front.len();
        let _ = front.try_extend_from_slice(&bytes[..bytes.len().min(room)]);
        front
    }

    // What came of the payload, up to `FRONT` bytes.
    pub(crate) fn front(&self) -> &[u8] {
        &self.front
    }
}
