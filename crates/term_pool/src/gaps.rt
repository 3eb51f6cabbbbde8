//! What one row of the table knows and another does not.

ghost use Rattle.std.specs.Prelude.{◌≡◌, ◌≢◌, ℕ, ◌+◌, ◌*◌, ◌^◌, ◌<◌, ◌↔◌};
ghost use Rattle.std.specs.Prelude.{IsTrue, MatchOption, length, slice_index};
ghost use Rattle.term_pool.specs.Finding.{IsFound, Covers, IsGap};

use crate::found::Found;

// Whether each place that the second knows is known to the first. It looks at all places, which is
// faster than to stop at one.
fn covers(over: &[u32], under: &[u32]) -> bool
    requires { length over.now ≡ length under.now }
    ensures { IsTrue result → (c : ℕ) → c < length under.now → slice_index under.now c ≢ 0
        → slice_index over.now c ≢ 0 }
{
    let mut missing = false;
    for c in 0..under.len() {
        if under[c] != 0 && over[c] == 0 {
            missing = true;
        }
    }
    !missing
}

impl Found {
    // Whether the row knows each column that the other row knows.
    fn covers(&self, row: usize, through: usize) -> bool
        requires found { IsFound self.now }
        requires row_in { row < self.now.width + length self.now.statements.items }
        requires through_in { through < self.now.width }
        ensures { IsTrue result → Covers self.now row through }
    {
        let over = row * self.width;
        let under = through * self.width;
        covers(
            &self.numbers[over..over + self.width],
            &self.numbers[under..under + self.width],
        )
    }

    // The number of the line at a row and a column, and one more, or 0.
    fn at(&self, row: usize, column: usize) -> u32
        requires found { IsFound self.now }
        requires row_in { row < self.now.width + length self.now.statements.items }
        requires column_in { column < self.now.width }
        ensures { result ≡ slice_index self.now.numbers.items (row * self.now.width + column) }
    {
        self.numbers[row * self.width + column]
    }

    fn is_gap(&self, row: usize, through: usize, column: usize) -> bool
        requires found { IsFound self.now }
        requires row_in { row < self.now.width + length self.now.statements.items }
        requires through_in { through < self.now.width }
        requires column_in { column < self.now.width }
        ensures { IsTrue result ↔ IsGap self.now row through column }
    {
        self.at(through, column) != 0 && self.at(row, column) == 0
    }

    /// A column that the row does not know, though the other row does.
    pub fn gap(&self, row: usize, through: usize) -> Option<u16>
        requires found { IsFound self.now }
        requires narrow { self.now.width < 2 ^ 16 }
        requires row_in { row < self.now.width + length self.now.statements.items }
        requires through_in { through < self.now.width }
        ensures { MatchOption result (Covers self.now row through) (IsGap self.now row through) }
    {
        if self.covers(row, through) {
            return None;
        }
        for c in 0..self.width {
            if self.is_gap(row, through, c) {
                return Some(c as u16);
            }
        }
        None
    }
}
