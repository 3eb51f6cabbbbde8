//! Numbers that come into rows, each for a reason.

ghost use Rattle.std.specs.Prelude.{◌≡◌, ℕ, ◌+◌, ◌<◌, Some, IsTrue, slice_get, length};
ghost use Rattle.term_pool.specs.declared.cited.Cited.{Cited};
ghost use Rattle.goal_search.specs.Cells.{room_in};
ghost use Rattle.goal_search.specs.Edges.{IsHeard};
ghost use Rattle.goal_search.specs.Reasons.{IsEdge, IsReason, IsAlike};
ghost use Rattle.goal_search.specs.Searching.{core, IsReady, IsNumber, IsRow, IsFilled, IsBegun, Has, about};

use crate::search::{AT_ONCE, OF_BOTH, Search};
use taos_calculus::Node;

impl Search {
    /// Puts a number into a row.
    pub fn add(&mut self, row: usize, number: u16, reason: u16)
        requires ready { IsReady (core self.old) }
        requires row_in { IsRow (core self.old) row }
        requires number_in { IsNumber (core self.old) number }
        requires new { Has (core self.old) row number → ⊥ }
        requires reason { IsReason (about (core self.old)) (Has (core self.old)) row number reason }
        ensures filled { IsFilled (core self.old) (core self.new) }
        ensures there { Has (core self.new) row number }
        ensures less { room_in self.new.cells < room_in self.old.cells }
    {
        self.cells.fill(row, number as usize, reason);
        self.growth.came(row, self.cells.count);
        self.queue.put(number);
    }

    /// Puts what an edge leads to into a row that has where it comes from.
    pub fn go_on(&mut self, row: usize, from: u16, to: u16)
        requires ready { IsReady (core self.old) }
        requires row_in { IsRow (core self.old) row }
        requires from_in { IsNumber (core self.old) from }
        requires to_in { IsNumber (core self.old) to }
        requires edge { IsEdge (about (core self.old)) (Has (core self.old)) from to }
        ensures { IsFilled (core self.old) (core self.new) }
    {
        if self.has(row, from) && !self.has(row, to) {
            self.add(row, to, from);
        }
    }

    /// Puts a part of a conjunction into a row.
    pub fn take_apart(&mut self, row: usize, whole: u16, part: u16)
        requires ready { IsReady (core self.old) }
        requires row_in { IsRow (core self.old) row }
        requires whole_in { IsNumber (core self.old) whole }
        requires part_in { IsNumber (core self.old) part }
        ensures { IsFilled (core self.old) (core self.new) }
    {
        if self.is_part(whole, part) {
            self.go_on(row, whole, part);
        }
    }

    /// Puts one in a role into a row.
    pub fn take_role(&mut self, row: usize, base: u16, whole: u16)
        requires ready { IsReady (core self.old) }
        requires row_in { IsRow (core self.old) row }
        requires base_in { IsNumber (core self.old) base }
        requires whole_in { IsNumber (core self.old) whole }
        ensures { IsFilled (core self.old) (core self.new) }
    {
        if self.is_in_role(base, whole) {
            self.go_on(row, base, whole);
        }
    }

    /// Puts a compound into a row that has one of its form.
    pub fn pass_on(&mut self, row: usize, from: u16, to: u16)
        requires ready { IsReady (core self.old) }
        requires row_in { IsRow (core self.old) row }
        requires from_in { IsNumber (core self.old) from }
        requires to_in { IsNumber (core self.old) to }
        ensures { IsFilled (core self.old) (core self.new) }
    {
        if self.is_form_edge(from, to) {
            self.go_on(row, from, to);
        }
    }

    /// Puts the name of an anchor into a row that has its key.
    pub fn name(&mut self, row: usize, link: usize)
        requires ready { IsReady (core self.old) }
        requires row_in { IsRow (core self.old) row }
        requires link_in { link < length self.old.links.items }
        ensures { IsFilled (core self.old) (core self.new) }
    {
        let it = self.links[link];
        self.go_on(row, it.key, it.name);
    }

    /// Puts the right side of a certificate that is believed into a row.
    pub fn hand_off(&mut self, row: usize, number: usize)
        requires ready { IsReady (core self.old) }
        requires row_in { IsRow (core self.old) row }
        requires number_in { number < length self.old.cited.items }
        ensures { IsFilled (core self.old) (core self.new) }
    {
        let it = self.cite(number);
        if self.has(row, it.left) && !self.has(row, it.right) && self.is_heard(number) {
            self.go_on(row, it.left, it.right);
        }
    }

    // Whether it is a conjunction, and the row has both parts.
    fn has_both(&self, row: usize, whole: u16) -> bool
        requires ready { IsReady (core self.now) }
        requires row_in { IsRow (core self.now) row }
        requires whole_in { IsNumber (core self.now) whole }
        ensures { IsTrue result
            → IsReason (about (core self.now)) (Has (core self.now)) row whole 1297 }
    {
        match self.node(whole) {
            Node::And(a, b) => self.has(row, a) && self.has(row, b),
            _ => false,
        }
    }

    /// Puts a conjunction into a row that has both parts.
    pub fn join(&mut self, row: usize, whole: u16)
        requires ready { IsReady (core self.old) }
        requires row_in { IsRow (core self.old) row }
        requires whole_in { IsNumber (core self.old) whole }
        ensures { IsFilled (core self.old) (core self.new) }
    {
        if !self.has(row, whole) && self.has_both(row, whole) {
            self.add(row, whole, OF_BOTH);
        }
    }

    /// Begins the row of a number.
    pub fn begin_number(&mut self, number: u16)
        requires ready { IsReady (core self.old) }
        requires number_in { IsNumber (core self.old) number }
        ensures filled { IsFilled (core self.old) (core self.new) }
        ensures begun { IsBegun (about (core self.new)) (Has (core self.new)) number }
    {
        if !self.has(number as usize, number) {
            self.add(number as usize, number, AT_ONCE);
        }
    }

    // Puts the speaker of a certificate into the row of one, where both make one statement.
    fn begin_speaker(&mut self, number: usize, other: usize)
        requires ready { IsReady (core self.old) }
        requires number_in { number < length self.old.cited.items }
        requires other_in { other < length self.old.cited.items }
        ensures filled { IsFilled (core self.old) (core self.new) }
        ensures there { (c d : Cited) → slice_get self.old.cited.items other ≡ Some c
            → slice_get self.old.cited.items number ≡ Some d → IsAlike c d
            → Has (core self.new) (length self.old.nodes.items + number) c.speaker }
    {
        let it = self.cite(number);
        let one = self.cite(other);
        let row = self.statement_row(number);
        if one.left == it.left && one.right == it.right && !self.has(row, one.speaker) {
            self.add(row, one.speaker, AT_ONCE);
        }
    }

    /// Begins the row of who says the statement of a certificate.
    pub fn begin_statement(&mut self, number: usize)
        requires ready { IsReady (core self.old) }
        requires number_in { number < length self.old.cited.items }
        ensures filled { IsFilled (core self.old) (core self.new) }
        ensures begun { IsBegun (about (core self.new)) (Has (core self.new))
            (length self.old.nodes.items + number) }
    {
        for other in 0..self.cited.len() {
            self.begin_speaker(number, other);
        }
    }
}
