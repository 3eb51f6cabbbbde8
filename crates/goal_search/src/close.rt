//! What follows in a row from what came into it, by that row alone. Nothing rests on how far this
//! goes.

ghost use Rattle.std.specs.Prelude.{◌<◌, length};
ghost use Rattle.goal_search.specs.Searching.{core, IsReady, IsNumber, IsRow, IsFilled};

use crate::search::Search;
use taos_calculus::Node;
use term_pool::compound;

impl Search {
    // The conjunctions and the roles that the number is an operand of.
    fn rise(&mut self, row: usize, number: u16)
        requires ready { IsReady (core self.old) }
        requires row_in { IsRow (core self.old) row }
        requires number_in { IsNumber (core self.old) number }
        ensures { IsFilled (core self.old) (core self.new) }
    {
        let mut link = self.parents.first(number);
        for _ in 0..self.parents.count() {
            if link == 0 {
                return;
            }
            let whole = compound(link);
            link = self.parents.next(link);
            self.rise_to(row, number, whole);
        }
    }

    // One compound that the number is an operand of.
    fn rise_to(&mut self, row: usize, number: u16, whole: u16)
        requires ready { IsReady (core self.old) }
        requires row_in { IsRow (core self.old) row }
        requires number_in { IsNumber (core self.old) number }
        ensures { IsFilled (core self.old) (core self.new) }
    {
        if whole as usize >= self.nodes.len() {
            return;
        }
        match self.node(whole) {
            Node::And(_, _) => self.join(row, whole),
            Node::AsRole(_, _) => self.take_role(row, number, whole),
            _ => {}
        }
    }

    // The names of the keys that the row has.
    fn name_all(&mut self, row: usize)
        requires ready { IsReady (core self.old) }
        requires row_in { IsRow (core self.old) row }
        ensures { IsFilled (core self.old) (core self.new) }
    {
        for link in 0..self.links.len() {
            self.name(row, link);
        }
    }

    // What follows from the form of one number.
    fn fall(&mut self, row: usize, number: u16)
        requires ready { IsReady (core self.old) }
        requires row_in { IsRow (core self.old) row }
        requires number_in { IsNumber (core self.old) number }
        ensures { IsFilled (core self.old) (core self.new) }
    {
        match self.node(number) {
            Node::And(a, b) => {
                self.take_apart(row, number, a);
                self.take_apart(row, number, b);
            }
            Node::Key(_) => self.name_all(row),
            _ => {}
        }
    }

    // What follows from one number.
    fn follow(&mut self, row: usize, number: u16)
        requires ready { IsReady (core self.old) }
        requires row_in { IsRow (core self.old) row }
        ensures { IsFilled (core self.old) (core self.new) }
    {
        if (number as usize) < self.nodes.len() {
            self.fall(row, number);
            self.rise(row, number);
        }
    }

    /// What follows from what came into the row and was not followed yet.
    pub fn close(&mut self, row: usize)
        requires ready { IsReady (core self.old) }
        requires row_in { IsRow (core self.old) row }
        ensures { IsFilled (core self.old) (core self.new) }
    {
        for _ in 0..self.cells.cells.len() {
            match self.queue.take() {
                Some(number) => self.follow(row, number),
                None => return,
            }
        }
    }
}
