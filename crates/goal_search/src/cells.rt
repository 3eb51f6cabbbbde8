//! Rows of numbers, as a table whose cells tell in which order they were filled, and why.

ghost use Rattle.std.specs.Prelude.{◌≡◌, ◌+◌, ◌*◌, ◌<◌, ◌≤◌, vec_capacity};
ghost use Rattle.taos_calculus.specs.declared.proof.TheConstants.{MAX_LINES};

use std::alloc::{AllocError, Global};
use taos_calculus::MAX_LINES;

/// There are fewer reasons than this.
pub const REASONS: u32 = 2_048;

/// A cell for each row and each column. It holds 0 while it is empty, then its stamp, from 1 on in
/// the order in which cells were filled, times `REASONS`, and its reason.
#[derive(Drop)]
pub struct Cells {
    pub width: usize,
    pub rows: usize,
    /// How many cells are filled.
    pub count: u32,
    pub cells: Vec<u32>,
    /// There is room for the largest table.
    ghost room: { MAX_LINES ≤ vec_capacity cells },
}

// The place of a row and a column.
fn place(row: usize, column: usize, width: usize, rows: usize) -> usize
    requires row_in { row < rows }
    requires column_in { column < width }
    requires fits { width * rows ≤ MAX_LINES }
    ensures place { result ≡ row * width + column }
    ensures within { result < width * rows }
{
    row * width + column
}

impl Cells {
    ghost use Rattle.std.specs.Prelude.{◌≢◌, ◌↔◌, ℕ, IsTrue, slice_index};
    ghost use Rattle.goal_search.specs.Cells.{AreCells, Fills, IsIn, IsPlace, held_at};

    /// Room for the largest table.
    pub fn reserve(alloc: Global) -> Result<Cells, AllocError> {
        Ok(Cells {
            width: 0,
            rows: 0,
            count: 0,
            cells: Vec::with_capacity(alloc, MAX_LINES)?,
        })
    }

    /// An empty table of this size.
    pub fn restart(&mut self, width: usize, rows: usize)
        requires { width * rows ≤ MAX_LINES }
        ensures cells { AreCells self.new }
        ensures width { self.new.width ≡ width }
        ensures rows { self.new.rows ≡ rows }
        ensures empty { (place : ℕ) → slice_index self.new.cells.items place ≡ 0 }
    {
        self.width = width;
        self.rows = rows;
        self.count = 0;
        self.cells.clear();
        self.cells.resize(width * rows, 0).unwrap();
    }

    /// One row more, which is empty.
    pub fn add_row(&mut self)
        requires cells { AreCells self.old }
        requires few { self.old.rows < MAX_LINES }
        requires fits { self.old.width * (self.old.rows + 1) ≤ MAX_LINES }
        ensures cells { AreCells self.new }
        ensures width { self.new.width ≡ self.old.width }
        ensures rows { self.new.rows ≡ self.old.rows + 1 }
        ensures same { (place : ℕ) → slice_index self.new.cells.items place
            ≡ slice_index self.old.cells.items place }
    {
        self.rows += 1;
        self.cells.resize(self.width * self.rows, 0).unwrap();
    }

    /// What the cell holds.
    pub fn held(&self, row: usize, column: usize) -> u32
        requires cells { AreCells self.now }
        requires place { IsPlace self.now row column }
        ensures { result ≡ held_at self.now row column }
    {
        self.cells[place(row, column, self.width, self.rows)]
    }

    /// Whether the cell is filled.
    pub fn has(&self, row: usize, column: usize) -> bool
        requires cells { AreCells self.now }
        requires place { IsPlace self.now row column }
        ensures { IsTrue result ↔ IsIn self.now row column }
    {
        self.held(row, column) != 0
    }

    /// Fills a cell that is empty.
    pub fn fill(&mut self, row: usize, column: usize, reason: u16)
        requires cells { AreCells self.old }
        requires place { IsPlace self.old row column }
        requires empty { held_at self.old row column ≡ 0 }
        requires reason { reason < 2048 }
        ensures { Fills self.old self.new row column reason }
    {
        let at = place(row, column, self.width, self.rows);
        self.count += 1;
        self.cells[at] = self.count * REASONS + reason as u32;
    }
}
