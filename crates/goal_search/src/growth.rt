//! How rows grew, and when each was worked on last. Nothing rests on it: it tells what need not be
//! looked at again.

ghost use Rattle.std.specs.Prelude.{◌+◌, ◌≤◌, vec_capacity};
ghost use Rattle.taos_calculus.specs.declared.decide.TheConstants.{MAX_CERTS};
ghost use Rattle.taos_calculus.specs.declared.proof.TheConstants.{MAX_NODES};

use std::alloc::{AllocError, Global};
use taos_calculus::{MAX_CERTS, MAX_NODES};

/// How many rows there are at most.
pub const MAX_ROWS: usize = MAX_NODES + MAX_CERTS;

/// How a row grew. A moment is the number of cells that were filled by then, over all rows.
#[derive(Clone, Copy)]
struct Grown {
    /// The moment at which a number came in last.
    changed: u32,
    /// The moment at which the row was worked on last.
    swept: u32,
    /// How many numbers it has.
    size: u32,
}

/// How each row grew.
#[derive(Drop)]
pub struct Growth {
    rows: Vec<Grown>,
    /// There is room for the rows of the largest table.
    ghost room: { MAX_NODES + MAX_CERTS ≤ vec_capacity rows },
}

// A row without numbers.
const NOTHING: Grown = Grown {
    changed: 0,
    swept: 0,
    size: 0,
};

impl Growth {
    /// Room for the largest table.
    pub fn reserve(alloc: Global) -> Result<Growth, AllocError> {
        Ok(Growth {
            rows: Vec::with_capacity(alloc, MAX_ROWS)?,
        })
    }

    /// So many rows without numbers. Takes no memory.
    pub fn restart(&mut self, rows: usize)
        requires { rows ≤ MAX_NODES + MAX_CERTS }
    {
        self.rows.clear();
        self.rows.resize(rows, NOTHING).unwrap();
    }

    /// One row more, where there is room. Takes no memory.
    pub fn add_row(&mut self) {
        if self.rows.len() < MAX_ROWS {
            self.rows.push(NOTHING).unwrap();
        }
    }

    /// A number came into the row.
    pub fn came(&mut self, row: usize, moment: u32) {
        if let Some(it) = self.rows.get_mut(row) {
            it.changed = moment;
            it.size = it.size.saturating_add(1);
        }
    }

    /// The row is worked on. Answers when it was worked on before, or 0 if never.
    pub fn sweep(&mut self, row: usize, moment: u32) -> u32 {
        match self.rows.get_mut(row) {
            Some(it) => {
                let before = it.swept;
                it.swept = moment;
                before
            }
            None => 0,
        }
    }

    /// Whether a number came into the row after this moment.
    pub fn changed_since(&self, row: u16, moment: u32) -> bool {
        match self.rows.get(row as usize) {
            Some(it) => it.changed > moment,
            None => true,
        }
    }

    /// How many numbers the row has.
    pub fn size(&self, row: u16) -> u32 {
        match self.rows.get(row as usize) {
            Some(it) => it.size,
            None => u32::MAX,
        }
    }
}
