//! What certificates would give a row.

ghost use Rattle.std.specs.Prelude.{◌≡◌, ◌<◌, ℕ, Some, MatchOption};
ghost use Rattle.std.specs.Prelude.{slice_get, length};
ghost use Rattle.term_pool.specs.declared.cited.Cited.{Cited};
ghost use Rattle.goal_search.specs.Edges.{IsDelegation};
ghost use Rattle.goal_search.specs.Goals.{WhoSays};
ghost use Rattle.goal_search.specs.Gaps.{IsOpenIn, RefusesIn};
ghost use Rattle.goal_search.specs.Gaps.{IsGap, IsHandedIn};
ghost use Rattle.goal_search.specs.Searching.{core, IsReady, IsNumber, IsRow};
ghost use Rattle.goal_search.specs.Searching.{about};

use crate::look::Gap;
use crate::refusing::Side;
use crate::search::Search;

impl Search {
    // What a certificate about a number that the row has would give it by a delegation.
    fn delegated_gap(&self, row: usize, number: usize, who: u16) -> Option<Gap>
        requires ready { IsReady (core self.now) }
        requires row_in { IsRow (core self.now) row }
        requires number_in { number < length self.now.cited.items }
        requires who_in { IsNumber (core self.now) who }
        requires who_is { (b : ℕ) × IsDelegation (core self.now) number who b }
        requires open { IsOpenIn (core self.now) row number }
        ensures { (c : Cited) → slice_get self.now.cited.items number ≡ Some c
            → MatchOption result (RefusesIn (core self.now) (WhoSays c.left c.right) who)
            (IsGap (core self.now)) }
    {
        let it = self.cite(number);
        match self.saying_side(number, who) {
            Side::Refused => None,
            Side::Open(wanted) => Some(Gap::Row { row: wanted }),
            Side::Passed => Some(Gap::Number {
                row: row as u16,
                number: it.right,
                reason: it.left,
            }),
        }
    }

    // What a certificate about a number that the row has would give it by a hand-off.
    fn handed_gap(&self, row: usize, number: usize) -> Option<Gap>
        requires ready { IsReady (core self.now) }
        requires row_in { IsRow (core self.now) row }
        requires number_in { number < length self.now.cited.items }
        requires open { IsOpenIn (core self.now) row number }
        ensures { (c : Cited) → slice_get self.now.cited.items number ≡ Some c
            → MatchOption result (RefusesIn (core self.now) (WhoSays c.left c.right) c.right)
            (IsGap (core self.now)) }
    {
        let it = self.cite(number);
        match self.saying_side(number, it.right) {
            Side::Refused => None,
            Side::Open(wanted) => Some(Gap::Row { row: wanted }),
            Side::Passed => Some(Gap::Number {
                row: row as u16,
                number: it.right,
                reason: it.left,
            }),
        }
    }

    // What a certificate would give the row.
    fn heard_gap(&self, row: usize, number: usize) -> Option<Gap>
        requires ready { IsReady (core self.now) }
        requires row_in { IsRow (core self.now) row }
        requires number_in { number < length self.now.cited.items }
        ensures { MatchOption result (IsHandedIn (core self.now) row number)
            (IsGap (core self.now)) }
    {
        let it = self.cite(number);
        if !self.has(row, it.left) {
            return None;
        }
        if self.has(row, it.right) {
            return None;
        }
        if let Some(gap) = self.handed_gap(row, number) {
            return Some(gap);
        }
        match self.delegator(number) {
            Some(who) => self.delegated_gap(row, number, who),
            None => None,
        }
    }

    /// What the certificates would give the row.
    pub fn heard_gaps(&self, row: usize) -> Option<Gap>
        requires ready { IsReady (core self.now) }
        requires row_in { IsRow (core self.now) row }
        ensures { MatchOption result
            ((number : ℕ) → number < length self.now.cited.items
            → IsHandedIn (core self.now) row number)
            (IsGap (core self.now)) }
    {
        for number in 0..self.cited.len() {
            if let Some(gap) = self.heard_gap(row, number) {
                return Some(gap);
            }
        }
        None
    }
}
