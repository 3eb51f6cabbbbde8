//! What the wanted rows refuse.

ghost use Rattle.std.specs.Prelude.{◌≡◌, ◌↔◌, ◌<◌, Some, IsTrue, slice_get, length};
ghost use Rattle.term_pool.specs.declared.cited.Cited.{Cited};
ghost use Rattle.goal_search.specs.Goals.{ForWhom, WhoSays};
ghost use Rattle.goal_search.specs.Gaps.{RefusesIn, SaysAll, IsSide, IsSayingRow};
ghost use Rattle.goal_search.specs.Gaps.{IsSayingSide};
ghost use Rattle.goal_search.specs.Reasons.{IsAlike};
ghost use Rattle.goal_search.specs.Searching.{core, IsReady, IsNumber, IsRow, Has};

use crate::search::Search;

/// Whether one speaks for another, or says a statement, as far as it is known.
#[derive(Clone, Copy)]
pub enum Side {
    /// It is known.
    Passed,
    /// A wanted row has the one and lacks the other.
    Refused,
    /// This row is to be wanted, to find out.
    Open(u16),
}

impl Search {
    // Whether the row has the speaker of the other certificate, if both make one statement.
    fn says_one(&self, row: usize, number: usize, other: usize) -> bool
        requires ready { IsReady (core self.now) }
        requires row_in { IsRow (core self.now) row }
        requires number_in { number < length self.now.cited.items }
        requires other_in { other < length self.now.cited.items }
        ensures { (c d : Cited) → slice_get self.now.cited.items other ≡ Some c
            → slice_get self.now.cited.items number ≡ Some d
            → IsTrue result ↔ (IsAlike c d → Has (core self.now) row c.speaker) }
    {
        let it = self.cite(number);
        let one = self.cite(other);
        one.left != it.left || one.right != it.right || self.has(row, one.speaker)
    }

    /// Whether the row has the speaker of each certificate that makes the statement of this one.
    pub fn says_all(&self, row: usize, number: usize) -> bool
        requires ready { IsReady (core self.now) }
        requires row_in { IsRow (core self.now) row }
        requires number_in { number < length self.now.cited.items }
        ensures { IsTrue result ↔ SaysAll (core self.now) row number }
    {
        for other in 0..self.cited.len() {
            if !self.says_one(row, number, other) {
                return false;
            }
        }
        true
    }

    /// Whether a wanted row has the left one and lacks the right one.
    pub fn refuses(&self, left: u16, right: u16) -> bool
        requires ready { IsReady (core self.now) }
        requires left_in { IsNumber (core self.now) left }
        requires right_in { IsNumber (core self.now) right }
        ensures { IsTrue result ↔ RefusesIn (core self.now) (ForWhom left) right }
    {
        for place in 0..self.wanted.len() {
            let row = self.wanted[place] as usize;
            if self.has(row, left) && !self.has(row, right) {
                return true;
            }
        }
        false
    }

    // Whether the row has all speakers of the certificate's statement and lacks this one.
    fn lacks_saying(&self, row: usize, number: usize, who: u16) -> bool
        requires ready { IsReady (core self.now) }
        requires row_in { IsRow (core self.now) row }
        requires number_in { number < length self.now.cited.items }
        requires who_in { IsNumber (core self.now) who }
        ensures { IsTrue result
            ↔ (Has (core self.now) row who → ⊥) × SaysAll (core self.now) row number }
    {
        !self.has(row, who) && self.says_all(row, number)
    }

    /// Whether a wanted row has all speakers of the certificate's statement and lacks this one.
    pub fn refuses_saying(&self, number: usize, who: u16) -> bool
        requires ready { IsReady (core self.now) }
        requires number_in { number < length self.now.cited.items }
        requires who_in { IsNumber (core self.now) who }
        ensures { (c : Cited) → slice_get self.now.cited.items number ≡ Some c
            → IsTrue result ↔ RefusesIn (core self.now) (WhoSays c.left c.right) who }
    {
        for place in 0..self.wanted.len() {
            let row = self.wanted[place] as usize;
            if self.lacks_saying(row, number, who) {
                return true;
            }
        }
        false
    }

    /// Whether the left one speaks for the right one.
    pub fn side(&self, left: u16, right: u16) -> Side
        requires ready { IsReady (core self.now) }
        requires left_in { IsNumber (core self.now) left }
        requires right_in { IsNumber (core self.now) right }
        ensures { IsSide (core self.now) left right result }
    {
        if self.passes(left, right) {
            return Side::Passed;
        }
        if self.refuses(left, right) {
            return Side::Refused;
        }
        Side::Open(left)
    }

    // The row that tells who says the statement of the certificate: the speaker's own, where it has
    // all speakers.
    fn saying_row(&self, number: usize) -> usize
        requires ready { IsReady (core self.now) }
        requires number_in { number < length self.now.cited.items }
        ensures { IsSayingRow (core self.now) number result }
    {
        let it = self.cite(number);
        if self.says_all(it.speaker as usize, number) {
            return it.speaker as usize;
        }
        self.statement_row(number)
    }

    /// Whether this one says the statement of the certificate.
    pub fn saying_side(&self, number: usize, who: u16) -> Side
        requires ready { IsReady (core self.now) }
        requires number_in { number < length self.now.cited.items }
        requires who_in { IsNumber (core self.now) who }
        ensures { (c : Cited) → slice_get self.now.cited.items number ≡ Some c
            → IsSayingSide (core self.now) number c who result }
    {
        if self.is_said(number, who) {
            return Side::Passed;
        }
        if self.refuses_saying(number, who) {
            return Side::Refused;
        }
        Side::Open(self.saying_row(number) as u16)
    }
}
