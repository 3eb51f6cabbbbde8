//! Doing what is left, until a goal is reached or nothing is left.

ghost use Rattle.std.specs.Prelude.{◌⊎◌, ◌<◌, Contains, IsTrue};
ghost use Rattle.goal_search.specs.Gaps.{IsGap, IsUnwanted};
ghost use Rattle.goal_search.specs.Searching.{core, IsReady, IsNumber, IsGrown, IsSettled, Has};
ghost use Rattle.goal_search.specs.Searching.{left_to_do, about, IsBegun, IsFilled, IsRow};

use crate::look::Gap;
use crate::search::Search;

impl Search {
    // Begins a row, of a number or of a statement.
    fn begin(&mut self, row: u16)
        requires ready { IsReady (core self.old) }
        requires row_in { IsRow (core self.old) row }
        ensures filled { IsFilled (core self.old) (core self.new) }
        ensures begun { IsBegun (about (core self.new)) (Has (core self.new)) row }
    {
        let count = self.nodes.len();
        if (row as usize) < count {
            self.begin_number(row);
        } else {
            self.begin_statement(row as usize - count);
        }
    }

    /// Wants a row that is not wanted.
    pub fn want(&mut self, row: u16)
        requires ready { IsReady (core self.old) }
        requires row_in { IsUnwanted (core self.old) row }
        ensures grown { IsGrown (core self.old) (core self.new) }
        ensures wanted { Contains self.new.wanted.items row }
        ensures less { left_to_do (core self.new) < left_to_do (core self.old) }
    {
        self.begin(row);
        self.wanted.push(row).unwrap();
        self.close(row as usize);
    }

    // Does what is left.
    fn mend(&mut self, gap: Gap)
        requires ready { IsReady (core self.old) }
        requires gap { IsGap (core self.old) gap }
        ensures grown { IsGrown (core self.old) (core self.new) }
        ensures less { left_to_do (core self.new) < left_to_do (core self.old) }
    {
        match gap {
            Gap::Number {
                row,
                number,
                reason,
            } => {
                self.add(row as usize, number, reason);
                self.close(row as usize);
            }
            Gap::Row { row } => self.want(row),
        }
    }

    /// Goes on until the left one is known to speak for the right one, or nothing is left to do.
    /// Answers which.
    pub fn settle(&mut self, left: u16, right: u16) -> bool
        requires ready { IsReady (core self.old) }
        requires left_in { IsNumber (core self.old) left }
        requires right_in { IsNumber (core self.old) right }
        ensures grown { IsGrown (core self.old) (core self.new) }
        ensures answer { IsTrue result → Has (core self.new) left right }
        ensures settled { IsTrue result ⊎ IsSettled (core self.new) }
    {
        self.work_at(left, right);
        loop {
            if self.has(left as usize, right) {
                return true;
            }
            match self.gap() {
                Some(gap) => self.mend(gap),
                None => return false,
            }
            self.work(left, right);
        }
    }
}
