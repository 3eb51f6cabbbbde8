//! Looking for what is left to do about the rows that are wanted. What this does not find, is not.

ghost use Rattle.std.specs.Prelude.{◌≡◌, ◌<◌, ℕ, Some, MatchOption};
ghost use Rattle.std.specs.Prelude.{slice_get};
ghost use Rattle.goal_search.specs.declared.search.Anchored.{Anchored};
ghost use Rattle.taos_calculus.specs.declared.line.Node.{Node};
ghost use Rattle.goal_search.specs.Reasons.{IsEdge};
ghost use Rattle.goal_search.specs.Gaps.{IsGap, IsFormed, IsNamedIn};
ghost use Rattle.goal_search.specs.Searching.{core, IsReady, IsNumber, IsRow, IsFinishedIn, IsSettled};
ghost use Rattle.goal_search.specs.Searching.{Has, about};

use crate::search::{OF_BOTH, Search};
use taos_calculus::Node;

/// What is left to do.
#[derive(Clone, Copy)]
pub enum Gap {
    /// A number is to be put into a row, for this reason.
    Number { row: u16, number: u16, reason: u16 },
    /// A row is to be wanted.
    Row { row: u16 },
}

impl Search {
    // A part of a conjunction that the row lacks.
    fn part_gap(&self, row: usize, whole: u16, part: u16) -> Option<Gap>
        requires ready { IsReady (core self.now) }
        requires row_in { IsRow (core self.now) row }
        requires whole_in { IsNumber (core self.now) whole }
        requires part_in { IsNumber (core self.now) part }
        requires part_of { IsEdge (about (core self.now)) (Has (core self.now)) whole part }
        ensures { MatchOption result (Has (core self.now) row whole → Has (core self.now) row part)
            (IsGap (core self.now)) }
    {
        if self.has(row, whole) && !self.has(row, part) {
            return Some(Gap::Number {
                row: row as u16,
                number: part,
                reason: whole,
            });
        }
        None
    }

    // A conjunction that the row lacks, though it has both parts.
    fn both_gap(&self, row: usize, whole: u16, a: u16, b: u16) -> Option<Gap>
        requires ready { IsReady (core self.now) }
        requires row_in { IsRow (core self.now) row }
        requires whole_in { slice_get self.now.nodes.items whole ≡ Some (Node.And a b) }
        ensures { MatchOption result
            (Has (core self.now) row a → Has (core self.now) row b → Has (core self.now) row whole)
            (IsGap (core self.now)) }
    {
        if self.has(row, a) && self.has(row, b) && !self.has(row, whole) {
            return Some(Gap::Number {
                row: row as u16,
                number: whole,
                reason: OF_BOTH,
            });
        }
        None
    }

    // What a conjunction or a role would give the row.
    fn form_gap(&self, row: usize, number: u16) -> Option<Gap>
        requires ready { IsReady (core self.now) }
        requires row_in { IsRow (core self.now) row }
        requires number_in { IsNumber (core self.now) number }
        ensures { MatchOption result (IsFormed (core self.now) row number) (IsGap (core self.now)) }
    {
        match self.node(number) {
            Node::And(a, b) => {
                if let Some(gap) = self.part_gap(row, number, a) {
                    return Some(gap);
                }
                if let Some(gap) = self.part_gap(row, number, b) {
                    return Some(gap);
                }
                self.both_gap(row, number, a, b)
            }
            Node::AsRole(a, _) => self.part_gap(row, a, number),
            _ => None,
        }
    }

    // What the conjunctions and the roles would give the row.
    fn form_gaps(&self, row: usize) -> Option<Gap>
        requires ready { IsReady (core self.now) }
        requires row_in { IsRow (core self.now) row }
        ensures { MatchOption result
            ((number : ℕ) → IsNumber (core self.now) number → IsFormed (core self.now) row number)
            (IsGap (core self.now)) }
    {
        for number in 0..self.nodes.len() {
            if let Some(gap) = self.form_gap(row, number as u16) {
                return Some(gap);
            }
        }
        None
    }

    // The name of an anchor that the row lacks, though it has the key.
    fn name_gaps(&self, row: usize) -> Option<Gap>
        requires ready { IsReady (core self.now) }
        requires row_in { IsRow (core self.now) row }
        ensures { MatchOption result
            ((k : ℕ) (link : Anchored) → slice_get self.now.links.items k ≡ Some link
            → IsNamedIn (core self.now) row link)
            (IsGap (core self.now)) }
    {
        for k in 0..self.links.len() {
            let link = self.links[k];
            if let Some(gap) = self.part_gap(row, link.key, link.name) {
                return Some(gap);
            }
        }
        None
    }

    // What is left to do about one row.
    fn row_gap(&self, row: usize) -> Option<Gap>
        requires ready { IsReady (core self.now) }
        requires row_in { IsRow (core self.now) row }
        ensures { MatchOption result (IsFinishedIn (core self.now) row) (IsGap (core self.now)) }
    {
        if let Some(gap) = self.form_gaps(row) {
            return Some(gap);
        }
        if let Some(gap) = self.name_gaps(row) {
            return Some(gap);
        }
        if let Some(gap) = self.heard_gaps(row) {
            return Some(gap);
        }
        self.all_passed_gaps(row)
    }

    /// What is left to do, about the row that was wanted last first.
    pub fn gap(&self) -> Option<Gap>
        requires ready { IsReady (core self.now) }
        ensures { MatchOption result (IsSettled (core self.now)) (IsGap (core self.now)) }
    {
        let count = self.wanted.len();
        for step in 0..count {
            if let Some(gap) = self.row_gap(self.wanted[count - 1 - step] as usize) {
                return Some(gap);
            }
        }
        None
    }
}
