//! The work on the rows that are wanted: what follows from their numbers and from rows that were
//! begun. Nothing rests on how far this goes.

ghost use Rattle.std.specs.Prelude.{◌<◌, length};
ghost use Rattle.goal_search.specs.Searching.{core, IsReady, IsNumber, IsRow, IsFilled};

use crate::search::Search;
use taos_calculus::Node;

impl Search {
    // Begins the row of a number, and closes it.
    fn open(&mut self, number: u16)
        requires ready { IsReady (core self.old) }
        requires number_in { IsNumber (core self.old) number }
        ensures { IsFilled (core self.old) (core self.new) }
    {
        if !self.has(number as usize, number) {
            self.begin_number(number);
            self.close(number as usize);
        }
    }

    // Begins the row of the certificate's speaker, and closes it; also that of its statement, where
    // several speakers make this and the one alone is not enough.
    fn open_statement(&mut self, number: usize)
        requires ready { IsReady (core self.old) }
        requires number_in { number < length self.old.cited.items }
        ensures { IsFilled (core self.old) (core self.new) }
    {
        let it = self.cite(number);
        self.open(it.speaker);
        if self.is_heard(number) {
            return;
        }
        let row = self.statement_row(number);
        if !self.says_all(it.speaker as usize, number) && !self.has(row, it.speaker) {
            self.begin_statement(number);
            self.close(row);
        }
    }

    // What the certificate gives the row.
    fn sweep_cited(&mut self, row: usize, number: usize)
        requires ready { IsReady (core self.old) }
        requires row_in { IsRow (core self.old) row }
        requires number_in { number < length self.old.cited.items }
        ensures { IsFilled (core self.old) (core self.new) }
    {
        let it = self.cite(number);
        if self.has(row, it.left) && !self.has(row, it.right) {
            self.open_statement(number);
            self.hand_off(row, number);
            self.close(row);
        }
    }

    // What the certificates give the row, the first one first.
    fn sweep_forth(&mut self, row: usize)
        requires ready { IsReady (core self.old) }
        requires row_in { IsRow (core self.old) row }
        ensures { IsFilled (core self.old) (core self.new) }
    {
        for number in 0..self.cited.len() {
            self.sweep_cited(row, number);
        }
    }

    // What the certificates give the row, the last one first.
    fn sweep_back(&mut self, row: usize)
        requires ready { IsReady (core self.old) }
        requires row_in { IsRow (core self.old) row }
        ensures { IsFilled (core self.old) (core self.new) }
    {
        let count = self.cited.len();
        for step in 0..count {
            self.sweep_cited(row, count - 1 - step);
        }
    }

    // Begins the rows of the operands of a number that the row has.
    fn open_operands(&mut self, row: usize, number: u16)
        requires ready { IsReady (core self.old) }
        requires row_in { IsRow (core self.old) row }
        requires number_in { IsNumber (core self.old) number }
        ensures { IsFilled (core self.old) (core self.new) }
    {
        if !self.has(row, number) {
            return;
        }
        match self.node(number) {
            Node::Quote(a, b) | Node::For(a, b) => {
                self.open(a);
                self.open(b);
            }
            Node::AsRole(a, _) => self.open(a),
            _ => {}
        }
    }

    // The same of all numbers that the row has.
    fn open_all(&mut self, row: usize)
        requires ready { IsReady (core self.old) }
        requires row_in { IsRow (core self.old) row }
        ensures { IsFilled (core self.old) (core self.new) }
    {
        for number in 0..self.nodes.len() {
            self.open_operands(row, number as u16);
        }
    }

    // Works on one row.
    fn sweep(&mut self, row: usize)
        requires ready { IsReady (core self.old) }
        requires row_in { IsRow (core self.old) row }
        ensures { IsFilled (core self.old) (core self.new) }
    {
        let before = self.growth.sweep(row, self.cells.count);
        self.sweep_back(row);
        self.sweep_forth(row);
        self.open_all(row);
        self.sweep_compounds(row, before);
    }

    // Works on each row that is wanted, until the goal is reached.
    fn sweep_all(&mut self, left: u16, right: u16)
        requires ready { IsReady (core self.old) }
        requires left_in { IsNumber (core self.old) left }
        requires right_in { IsNumber (core self.old) right }
        ensures { IsFilled (core self.old) (core self.new) }
    {
        for place in 0..self.wanted.len() {
            if self.has(left as usize, right) {
                return;
            }
            let row = self.wanted[place] as usize;
            self.sweep(row);
        }
    }

    /// Works on the row of the left one alone until nothing more comes, or the goal is reached.
    pub fn work_at(&mut self, left: u16, right: u16)
        requires ready { IsReady (core self.old) }
        requires left_in { IsNumber (core self.old) left }
        requires right_in { IsNumber (core self.old) right }
        ensures { IsFilled (core self.old) (core self.new) }
    {
        for _ in 0..self.cells.cells.len() {
            if self.has(left as usize, right) {
                return;
            }
            let before = self.cells.count;
            self.sweep(left as usize);
            if self.cells.count == before {
                return;
            }
        }
    }

    /// Works on the rows that are wanted until nothing more comes, or the goal is reached.
    pub fn work(&mut self, left: u16, right: u16)
        requires ready { IsReady (core self.old) }
        requires left_in { IsNumber (core self.old) left }
        requires right_in { IsNumber (core self.old) right }
        ensures { IsFilled (core self.old) (core self.new) }
    {
        for _ in 0..self.cells.cells.len() {
            let before = self.cells.count;
            self.sweep_all(left, right);
            if self.cells.count == before {
                return;
            }
        }
    }
}
