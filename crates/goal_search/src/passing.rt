//! What the form of one number would give a row of another.

ghost use Rattle.std.specs.Prelude.{◌≡◌, ◌⊎◌, ◌<◌, ℕ, Some, IsTrue, MatchOption};
ghost use Rattle.std.specs.Prelude.{slice_get};
ghost use Rattle.taos_calculus.specs.declared.line.Node.{Node};
ghost use Rattle.goal_search.specs.Goals.{ForWhom};
ghost use Rattle.goal_search.specs.Reasons.{IsEdge, IsPassed};
ghost use Rattle.goal_search.specs.Gaps.{RefusesIn};
ghost use Rattle.goal_search.specs.Gaps.{IsGap, IsPassedOnIn, IsUnwanted, form_of};
ghost use Rattle.goal_search.specs.Searching.{core, IsReady, IsNumber, IsRow};
ghost use Rattle.goal_search.specs.Searching.{Has, about};

use crate::look::Gap;
use crate::refusing::Side;
use crate::search::Search;
use crate::witness::Witnesses;
use taos_calculus::Node;

impl Search {
    // What it gives that an operand of a number may speak for one of another.
    fn operand_gap(&self, row: usize, from: u16, to: u16, left: u16, right: u16) -> Option<Gap>
        requires ready { IsReady (core self.now) }
        requires row_in { IsRow (core self.now) row }
        requires from_in { IsNumber (core self.now) from }
        requires to_in { IsNumber (core self.now) to }
        requires has { Has (core self.now) row from }
        requires lacks { Has (core self.now) row to → ⊥ }
        requires left_in { IsNumber (core self.now) left }
        requires right_in { IsNumber (core self.now) right }
        requires edge { IsPassed (Has (core self.now)) left right
            → IsEdge (about (core self.now)) (Has (core self.now)) from to }
        ensures { MatchOption result (RefusesIn (core self.now) (ForWhom left) right)
            (IsGap (core self.now)) }
    {
        match self.side(left, right) {
            Side::Refused => None,
            Side::Open(wanted) => Some(Gap::Row { row: wanted }),
            Side::Passed => Some(Gap::Number {
                row: row as u16,
                number: to,
                reason: from,
            }),
        }
    }

    // The row that is to be wanted, unless the left one does not speak for the right one.
    fn unless_refused(&self, wanted: u16, left: u16, right: u16) -> Option<Gap>
        requires ready { IsReady (core self.now) }
        requires left_in { IsNumber (core self.now) left }
        requires right_in { IsNumber (core self.now) right }
        requires unwanted { IsUnwanted (core self.now) wanted }
        ensures { MatchOption result (RefusesIn (core self.now) (ForWhom left) right)
            (IsGap (core self.now)) }
    {
        if self.refuses(left, right) {
            return None;
        }
        Some(Gap::Row { row: wanted })
    }

    // What it gives that the operands of a number may speak for those of another.
    fn pair_gap(
        &self,
        row: usize,
        from: u16,
        to: u16,
        first: (u16, u16),
        second: (u16, u16),
    ) -> Option<Gap>
        requires ready { IsReady (core self.now) }
        requires row_in { IsRow (core self.now) row }
        requires from_in { IsNumber (core self.now) from }
        requires to_in { IsNumber (core self.now) to }
        requires has { Has (core self.now) row from }
        requires lacks { Has (core self.now) row to → ⊥ }
        requires first_in { IsNumber (core self.now) first.0 × IsNumber (core self.now) first.1 }
        requires second_in { IsNumber (core self.now) second.0
            × IsNumber (core self.now) second.1 }
        requires edge { IsPassed (Has (core self.now)) first.0 first.1
            → IsPassed (Has (core self.now)) second.0 second.1
            → IsEdge (about (core self.now)) (Has (core self.now)) from to }
        ensures { MatchOption result
            (RefusesIn (core self.now) (ForWhom first.0) first.1
            ⊎ RefusesIn (core self.now) (ForWhom second.0) second.1)
            (IsGap (core self.now)) }
    {
        match self.side(first.0, first.1) {
            Side::Refused => None,
            Side::Open(wanted) => self.unless_refused(wanted, second.0, second.1),
            Side::Passed => self.operand_gap(row, from, to, second.0, second.1),
        }
    }

    // What one that quotes, of these operands, would give the row of another.
    fn quoting_gap(&self, row: usize, from: u16, to: u16, a: u16, b: u16) -> Option<Gap>
        requires ready { IsReady (core self.now) }
        requires row_in { IsRow (core self.now) row }
        requires to_in { IsNumber (core self.now) to }
        requires stands { slice_get self.now.nodes.items from ≡ Some (Node.Quote a b) }
        requires has { Has (core self.now) row from }
        ensures { MatchOption result (IsPassedOnIn (core self.now) row from to)
            (IsGap (core self.now)) }
    {
        if let Node::Quote(c, d) = self.node(to) {
            if !self.has(row, to) {
                return self.pair_gap(row, from, to, (a, c), (b, d));
            }
        }
        None
    }

    // What one that acts for another, of these operands, would give the row of another.
    fn for_gap(&self, row: usize, from: u16, to: u16, a: u16, b: u16) -> Option<Gap>
        requires ready { IsReady (core self.now) }
        requires row_in { IsRow (core self.now) row }
        requires to_in { IsNumber (core self.now) to }
        requires stands { slice_get self.now.nodes.items from ≡ Some (Node.For a b) }
        requires has { Has (core self.now) row from }
        ensures { MatchOption result (IsPassedOnIn (core self.now) row from to)
            (IsGap (core self.now)) }
    {
        if let Node::For(c, d) = self.node(to) {
            if !self.has(row, to) {
                return self.pair_gap(row, from, to, (a, c), (b, d));
            }
        }
        None
    }

    // What one in a role would give the row of another in it.
    fn role_gap(&self, row: usize, from: u16, to: u16, a: u16, role: u32) -> Option<Gap>
        requires ready { IsReady (core self.now) }
        requires row_in { IsRow (core self.now) row }
        requires to_in { IsNumber (core self.now) to }
        requires stands { slice_get self.now.nodes.items from ≡ Some (Node.AsRole a role) }
        requires has { Has (core self.now) row from }
        ensures { MatchOption result (IsPassedOnIn (core self.now) row from to)
            (IsGap (core self.now)) }
    {
        if let Node::AsRole(c, other) = self.node(to) {
            if role == other && !self.has(row, to) {
                return self.pair_gap(row, from, to, (a, c), (a, a));
            }
        }
        None
    }

    // What the form of one number, which the row has, would give it of another.
    fn passed_gap(&self, row: usize, from: u16, to: u16) -> Option<Gap>
        requires ready { IsReady (core self.now) }
        requires row_in { IsRow (core self.now) row }
        requires from_in { IsNumber (core self.now) from }
        requires to_in { IsNumber (core self.now) to }
        requires has { Has (core self.now) row from }
        ensures { MatchOption result (IsPassedOnIn (core self.now) row from to)
            (IsGap (core self.now)) }
    {
        match self.node(from) {
            Node::Quote(a, b) => self.quoting_gap(row, from, to, a, b),
            Node::For(a, b) => self.for_gap(row, from, to, a, b),
            Node::AsRole(a, role) => self.role_gap(row, from, to, a, role),
            _ => None,
        }
    }

    // What the form of one number would give the row of another.
    fn member_gap(&self, row: usize, from: u16, to: u16) -> Option<Gap>
        requires ready { IsReady (core self.now) }
        requires row_in { IsRow (core self.now) row }
        requires from_in { IsNumber (core self.now) from }
        requires to_in { IsNumber (core self.now) to }
        ensures { MatchOption result (IsPassedOnIn (core self.now) row from to)
            (IsGap (core self.now)) }
    {
        if !self.has(row, from) {
            return None;
        }
        self.passed_gap(row, from, to)
    }

    // What the forms of the numbers that the row has would give it of one.
    fn passed_gaps(&self, row: usize, to: u16) -> Option<Gap>
        requires ready { IsReady (core self.now) }
        requires row_in { IsRow (core self.now) row }
        requires to_in { IsNumber (core self.now) to }
        ensures { MatchOption result
            ((from : ℕ) → IsNumber (core self.now) from → IsPassedOnIn (core self.now) row from to)
            (IsGap (core self.now)) }
    {
        for from in 0..self.nodes.len() {
            if let Some(gap) = self.member_gap(row, from as u16, to) {
                return Some(gap);
            }
        }
        None
    }

    /// Whether it is of a form that is passed on part by part.
    pub fn is_compound(&self, number: u16) -> bool
        requires ready { IsReady (core self.now) }
        requires number_in { IsNumber (core self.now) number }
        ensures { IsTrue result ⊎ ((row from : ℕ) → IsPassedOnIn (core self.now) row from number) }
    {
        match self.node(number) {
            Node::Quote(_, _) | Node::For(_, _) | Node::AsRole(_, _) => true,
            _ => false,
        }
    }

    // What the forms of the numbers that the row has would give it of one number.
    fn target_gap(&self, row: usize, to: u16) -> Option<Gap>
        requires ready { IsReady (core self.now) }
        requires row_in { IsRow (core self.now) row }
        requires to_in { IsNumber (core self.now) to }
        ensures { MatchOption result
            ((from : ℕ) → IsNumber (core self.now) from → IsPassedOnIn (core self.now) row from to)
            (IsGap (core self.now)) }
    {
        if self.has(row, to) {
            return None;
        }
        if !self.is_compound(to) {
            return None;
        }
        self.passed_gaps(row, to)
    }

    // What the forms of all numbers that the row has would give it, by what it lacks.
    fn target_gaps(&self, row: usize) -> Option<Gap>
        requires ready { IsReady (core self.now) }
        requires row_in { IsRow (core self.now) row }
        ensures { MatchOption result
            ((to from : ℕ) → IsNumber (core self.now) to → IsNumber (core self.now) from
            → IsPassedOnIn (core self.now) row from to)
            (IsGap (core self.now)) }
    {
        for to in 0..self.nodes.len() {
            if let Some(gap) = self.target_gap(row, to as u16) {
                return Some(gap);
            }
        }
        None
    }
    // The form of a number: 0 where it is passed on by none.
    fn form(&self, number: u16) -> u64
        requires ready { IsReady (core self.now) }
        requires number_in { IsNumber (core self.now) number }
        ensures { (node : Node) → slice_get self.now.nodes.items number ≡ Some node
            → result ≡ form_of node }
    {
        match self.node(number) {
            Node::Quote(_, _) => 1,
            Node::For(_, _) => 2,
            Node::AsRole(_, role) => role as u64 + 3,
            _ => 0,
        }
    }

    // What a number that the row has, of this form, would give it of one.
    fn given_gap(
        &self,
        row: usize,
        from: u16,
        to: u16,
        form: u64,
        witnesses: Witnesses,
    ) -> Option<Gap>
        requires ready { IsReady (core self.now) }
        requires row_in { IsRow (core self.now) row }
        requires from_in { IsNumber (core self.now) from }
        requires to_in { IsNumber (core self.now) to }
        requires has { Has (core self.now) row from }
        requires form_is { (node : Node) → slice_get self.now.nodes.items from ≡ Some node
            → form ≡ form_of node }
        ensures { MatchOption result (IsPassedOnIn (core self.now) row from to)
            (IsGap (core self.now)) }
    {
        if self.form(to) != form {
            return None;
        }
        if self.refuse_form(witnesses, from, to) {
            return None;
        }
        self.passed_gap(row, from, to)
    }

    // What a number that the row has, of this form, would give it of all numbers.
    fn given_gaps(&self, row: usize, from: u16, form: u64) -> Option<Gap>
        requires ready { IsReady (core self.now) }
        requires row_in { IsRow (core self.now) row }
        requires from_in { IsNumber (core self.now) from }
        requires has { Has (core self.now) row from }
        requires form_is { (node : Node) → slice_get self.now.nodes.items from ≡ Some node
            → form ≡ form_of node }
        ensures { MatchOption result
            ((to : ℕ) → IsNumber (core self.now) to → IsPassedOnIn (core self.now) row from to)
            (IsGap (core self.now)) }
    {
        let witnesses = self.witnesses(from);
        for to in 0..self.nodes.len() {
            if let Some(gap) = self.given_gap(row, from, to as u16, form, witnesses) {
                return Some(gap);
            }
        }
        None
    }

    // What the form of one number would give the row.
    fn source_gap(&self, row: usize, from: u16) -> Option<Gap>
        requires ready { IsReady (core self.now) }
        requires row_in { IsRow (core self.now) row }
        requires from_in { IsNumber (core self.now) from }
        ensures { MatchOption result
            ((to : ℕ) → IsNumber (core self.now) to → IsPassedOnIn (core self.now) row from to)
            (IsGap (core self.now)) }
    {
        if !self.has(row, from) {
            return None;
        }
        let form = self.form(from);
        if form == 0 {
            return None;
        }
        self.given_gaps(row, from, form)
    }

    // What the forms of all numbers that the row has would give it, by what it has.
    fn source_gaps(&self, row: usize) -> Option<Gap>
        requires ready { IsReady (core self.now) }
        requires row_in { IsRow (core self.now) row }
        ensures { MatchOption result
            ((from to : ℕ) → IsNumber (core self.now) from → IsNumber (core self.now) to
            → IsPassedOnIn (core self.now) row from to)
            (IsGap (core self.now)) }
    {
        for from in 0..self.nodes.len() {
            if let Some(gap) = self.source_gap(row, from as u16) {
                return Some(gap);
            }
        }
        None
    }

    // Whether the row has fewer compounds than it lacks.
    fn has_few(&self, row: usize) -> bool
        requires ready { IsReady (core self.now) }
        requires row_in { IsRow (core self.now) row }
    {
        let mut has = 0_usize;
        let mut lacks = 0_usize;
        for number in 0..self.nodes.len() {
            if self.is_compound(number as u16) {
                if self.has(row, number as u16) {
                    has = has.wrapping_add(1);
                } else {
                    lacks = lacks.wrapping_add(1);
                }
            }
        }
        has < lacks
    }

    /// What the forms of all numbers that the row has would give it. Either the compounds that it has
    /// are gone through or those that it lacks, whichever are fewer, so that a row which has few
    /// numbers, or nearly all, is soon looked through.
    pub fn all_passed_gaps(&self, row: usize) -> Option<Gap>
        requires ready { IsReady (core self.now) }
        requires row_in { IsRow (core self.now) row }
        ensures { MatchOption result
            ((to from : ℕ) → IsNumber (core self.now) to → IsNumber (core self.now) from
            → IsPassedOnIn (core self.now) row from to)
            (IsGap (core self.now)) }
    {
        if self.has_few(row) {
            self.source_gaps(row)
        } else {
            self.target_gaps(row)
        }
    }
}
