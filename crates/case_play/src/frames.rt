//! The frames of an input and of its output.

use std::alloc::{AllocError, Global};

// How many bytes the first frame has, where it is whole.
fn first_len(bytes: &[u8]) -> Option<usize> {
    let (word, rest) = bytes.split_first_chunk::<4>()?;
    let length = u32::from_be_bytes(*word) as usize;
    if length > rest.len() {
        return None;
    }
    Some(length + 4)
}

// Where whole frames begin, and where the last of them ends.
fn places_of(alloc: Global, bytes: &[u8]) -> Result<Vec<usize>, AllocError> {
    let mut places = vec![in alloc; 0]?;
    let mut at = 0usize;
    for _ in 0..bytes.len() {
        let Some(length) = bytes.get(at..).and_then(first_len) else {
            break;
        };
        at = at.saturating_add(length);
        places.push(at)?;
    }
    Ok(places)
}

// The frame of a number, counted from 0.
fn frame_at<'a>(bytes: &'a [u8], places: &[usize], number: usize) -> Option<&'a [u8]> {
    let from = *places.get(number)?;
    let to = *places.get(number.checked_add(1)?)?;
    bytes.get(from..to)
}

/// An input and its output, with the places of their frames.
#[derive(Drop)]
pub struct Exchange<'a> {
    input: &'a [u8],
    output: &'a [u8],
    asked: Vec<usize>,
    told: Vec<usize>,
}

impl<'a> Exchange<'a> {
    pub fn new(
        alloc: Global,
        input: &'a [u8],
        output: &'a [u8],
    ) -> Result<Exchange<'a>, AllocError> {
        Ok(Exchange {
            input,
            output,
            asked: places_of(alloc, input)?,
            told: places_of(alloc, output)?,
        })
    }

    /// The frame of the output that begins there, behind the frame of the input with its number.
    pub fn frames_at(&self, at: usize) -> Option<(&'a [u8], &'a [u8])> {
        let number = self.told.binary_search(&at).ok()?;
        let reply = frame_at(self.output, &self.told, number)?;
        let request = frame_at(self.input, &self.asked, number)?;
        Some((request, reply))
    }
}
