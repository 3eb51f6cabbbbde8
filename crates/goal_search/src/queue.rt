//! What came into a row and was not followed yet. Nothing rests on it.

ghost use Rattle.std.specs.Prelude.{◌≤◌, vec_capacity};
ghost use Rattle.taos_calculus.specs.declared.proof.TheConstants.{MAX_NODES};

use std::alloc::{AllocError, Global};
use taos_calculus::MAX_NODES;

/// Numbers, of which the last one is taken first.
#[derive(Drop)]
pub struct Queue {
    numbers: Vec<u16>,
    /// There is room for all numbers of the largest table.
    ghost room: { MAX_NODES ≤ vec_capacity numbers },
}

impl Queue {
    /// Room for the largest table.
    pub fn reserve(alloc: Global) -> Result<Queue, AllocError> {
        Ok(Queue {
            numbers: Vec::with_capacity(alloc, MAX_NODES)?,
        })
    }

    /// Puts a number in, where there is room. Takes no memory.
    pub fn put(&mut self, number: u16) {
        if self.numbers.len() < MAX_NODES {
            self.numbers.push(number).unwrap();
        }
    }

    /// How many are in.
    pub fn count(&self) -> usize {
        self.numbers.len()
    }

    /// The number at this place, or 0 where none is.
    pub fn at(&self, place: usize) -> u16 {
        match self.numbers.get(place) {
            Some(number) => *number,
            None => 0,
        }
    }

    /// Takes a number out.
    pub fn take(&mut self) -> Option<u16> {
        self.numbers.pop()
    }

    /// Leaves nothing in.
    pub fn clear(&mut self) {
        self.numbers.clear();
    }
}
