//! Wanted rows that refuse at once. Nothing rests on which are found.

ghost use Rattle.std.specs.Prelude.{◌⊎◌, ℕ, IsTrue};
ghost use Rattle.goal_search.specs.Goals.{ForWhom};
ghost use Rattle.goal_search.specs.Gaps.{IsPassedOnIn, RefusesIn};
ghost use Rattle.goal_search.specs.Searching.{core, IsReady, IsNumber};

use crate::search::Search;
use taos_calculus::Node;

/// The places of two wanted rows that are asked first: what one operand of a compound speaks for, and
/// what the other does.
#[derive(Clone, Copy)]
pub struct Witnesses {
    left: usize,
    right: usize,
}

impl Search {
    // The place of the smallest wanted row that has the number; past the last where none has.
    fn witness(&self, number: u16) -> usize
        requires ready { IsReady (core self.now) }
        requires number_in { IsNumber (core self.now) number }
    {
        let mut found = self.wanted.len();
        let mut least = u32::MAX;
        for place in 0..self.wanted.len() {
            let row = self.wanted[place];
            if self.growth.size(row) < least && self.has(row as usize, number) {
                found = place;
                least = self.growth.size(row);
            }
        }
        found
    }

    /// The rows to be asked first about a compound.
    pub fn witnesses(&self, number: u16) -> Witnesses
        requires ready { IsReady (core self.now) }
        requires number_in { IsNumber (core self.now) number }
    {
        match self.node(number) {
            Node::Quote(a, b) | Node::For(a, b) => Witnesses {
                left: self.witness(a),
                right: self.witness(b),
            },
            Node::AsRole(a, _) => Witnesses {
                left: self.witness(a),
                right: usize::MAX,
            },
            _ => Witnesses {
                left: usize::MAX,
                right: usize::MAX,
            },
        }
    }

    // Whether there is a wanted row at this place that has the left one and lacks the right one.
    fn refuses_at(&self, place: usize, left: u16, right: u16) -> bool
        requires ready { IsReady (core self.now) }
        requires left_in { IsNumber (core self.now) left }
        requires right_in { IsNumber (core self.now) right }
        ensures { IsTrue result → RefusesIn (core self.now) (ForWhom left) right }
    {
        if place >= self.wanted.len() {
            return false;
        }
        let row = self.wanted[place] as usize;
        self.has(row, left) && !self.has(row, right)
    }

    // Whether these rows refuse that the operands of one compound speak for those of another.
    fn refuse_either(&self, witnesses: Witnesses, first: (u16, u16), second: (u16, u16)) -> bool
        requires ready { IsReady (core self.now) }
        requires first_in { IsNumber (core self.now) first.0 × IsNumber (core self.now) first.1 }
        requires second_in { IsNumber (core self.now) second.0
            × IsNumber (core self.now) second.1 }
        ensures { IsTrue result → RefusesIn (core self.now) (ForWhom first.0) first.1
            ⊎ RefusesIn (core self.now) (ForWhom second.0) second.1 }
    {
        self.refuses_at(witnesses.left, first.0, first.1)
            || self.refuses_at(witnesses.right, second.0, second.1)
    }

    /// Whether these rows refuse what the form of one number would give of another.
    pub fn refuse_form(&self, witnesses: Witnesses, from: u16, to: u16) -> bool
        requires ready { IsReady (core self.now) }
        requires from_in { IsNumber (core self.now) from }
        requires to_in { IsNumber (core self.now) to }
        ensures { IsTrue result → (row : ℕ) → IsPassedOnIn (core self.now) row from to }
    {
        match self.node(from) {
            Node::Quote(a, b) => match self.node(to) {
                Node::Quote(c, d) => self.refuse_either(witnesses, (a, c), (b, d)),
                _ => false,
            },
            Node::For(a, b) => match self.node(to) {
                Node::For(c, d) => self.refuse_either(witnesses, (a, c), (b, d)),
                _ => false,
            },
            Node::AsRole(a, role) => match self.node(to) {
                Node::AsRole(c, other) => { role == other && self.refuses_at(witnesses.left, a, c) }
                _ => false,
            },
            _ => false,
        }
    }
}
