//! The work on the compounds of one row: what their forms give it. Nothing rests on how far this
//! goes.

ghost use Rattle.goal_search.specs.Searching.{core, IsReady, IsNumber, IsRow, IsFilled};

use crate::cells::REASONS;
use crate::search::Search;
use taos_calculus::Node;
use term_pool::compound;

impl Search {
    // Whether a number that the row has may give it more than it did at this moment.
    fn is_fresh(&self, row: usize, number: u16, moment: u32) -> bool
        requires ready { IsReady (core self.now) }
        requires row_in { IsRow (core self.now) row }
        requires number_in { IsNumber (core self.now) number }
    {
        let is_new = self.cells.held(row, number as usize) / REASONS > moment;
        match self.node(number) {
            Node::Quote(a, b) | Node::For(a, b) => {
                is_new
                    || self.growth.changed_since(a, moment)
                    || self.growth.changed_since(b, moment)
            }
            Node::AsRole(a, _) => is_new || self.growth.changed_since(a, moment),
            _ => false,
        }
    }

    // Lists a compound that the row lacks, or that may give it more than it did at this moment.
    fn list(&mut self, row: usize, number: u16, moment: u32)
        requires ready { IsReady (core self.old) }
        requires row_in { IsRow (core self.old) row }
        requires number_in { IsNumber (core self.old) number }
        ensures { IsFilled (core self.old) (core self.new) }
    {
        if !self.has(row, number) {
            if self.is_compound(number) {
                self.lacking.put(number);
            }
        } else if self.is_fresh(row, number, moment) {
            self.fresh.put(number);
        }
    }

    // Lists all of them.
    fn list_all(&mut self, row: usize, moment: u32)
        requires ready { IsReady (core self.old) }
        requires row_in { IsRow (core self.old) row }
        ensures { IsFilled (core self.old) (core self.new) }
    {
        self.fresh.clear();
        self.lacking.clear();
        for number in 0..self.nodes.len() {
            self.list(row, number as u16, moment);
        }
    }

    // Puts a compound that a row lacks into it by the form of another, where it can be had so.
    fn pass_by(&mut self, row: usize, from: u16, to: u16)
        requires ready { IsReady (core self.old) }
        requires row_in { IsRow (core self.old) row }
        requires from_in { IsNumber (core self.old) from }
        ensures { IsFilled (core self.old) (core self.new) }
    {
        if (to as usize) < self.nodes.len() && !self.has(row, to) {
            self.pass_on(row, from, to);
        }
    }

    // Puts those that have this operand into a row by the form of a compound.
    fn pass_narrow(&mut self, row: usize, from: u16, operand: u16)
        requires ready { IsReady (core self.old) }
        requires row_in { IsRow (core self.old) row }
        requires from_in { IsNumber (core self.old) from }
        ensures { IsFilled (core self.old) (core self.new) }
    {
        let mut link = self.parents.first(operand);
        for _ in 0..self.parents.count() {
            if link == 0 {
                return;
            }
            let whole = compound(link);
            link = self.parents.next(link);
            self.pass_by(row, from, whole);
        }
    }

    // Puts those that are listed as lacking into a row by the form of a compound.
    fn pass_wide(&mut self, row: usize, from: u16)
        requires ready { IsReady (core self.old) }
        requires row_in { IsRow (core self.old) row }
        requires from_in { IsNumber (core self.old) from }
        ensures { IsFilled (core self.old) (core self.new) }
    {
        for place in 0..self.lacking.count() {
            let to = self.lacking.at(place);
            self.pass_by(row, from, to);
        }
    }

    // An operand of the compound that is known to speak for no other: only what has it as an operand
    // too can be had by this form.
    fn lone_operand(&self, number: u16) -> Option<u16>
        requires ready { IsReady (core self.now) }
        requires number_in { IsNumber (core self.now) number }
    {
        match self.node(number) {
            Node::Quote(a, b) | Node::For(a, b) => {
                if self.growth.size(a) <= 1 {
                    Some(a)
                } else if self.growth.size(b) <= 1 {
                    Some(b)
                } else {
                    None
                }
            }
            Node::AsRole(a, _) => {
                if self.growth.size(a) <= 1 {
                    Some(a)
                } else {
                    None
                }
            }
            _ => None,
        }
    }

    // What the form of a compound gives the row, through the rows of its operands.
    fn pass_form(&mut self, row: usize, from: u16)
        requires ready { IsReady (core self.old) }
        requires row_in { IsRow (core self.old) row }
        requires from_in { IsNumber (core self.old) from }
        ensures { IsFilled (core self.old) (core self.new) }
    {
        match self.lone_operand(from) {
            Some(operand) => self.pass_narrow(row, from, operand),
            None => self.pass_wide(row, from),
        }
    }

    // The same of a listed one, with all that follows.
    fn pass_from(&mut self, row: usize, from: u16)
        requires ready { IsReady (core self.old) }
        requires row_in { IsRow (core self.old) row }
        ensures { IsFilled (core self.old) (core self.new) }
    {
        if (from as usize) < self.nodes.len() {
            self.pass_form(row, from);
            self.close(row);
        }
    }

    /// What the compounds of the row give it, but for what they gave it at this moment.
    pub fn sweep_compounds(&mut self, row: usize, moment: u32)
        requires ready { IsReady (core self.old) }
        requires row_in { IsRow (core self.old) row }
        ensures { IsFilled (core self.old) (core self.new) }
    {
        self.list_all(row, moment);
        for place in 0..self.fresh.count() {
            let from = self.fresh.at(place);
            self.pass_from(row, from);
        }
    }
}
