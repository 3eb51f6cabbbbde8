//! Rounds over all pairs, lines and statements.

ghost use Rattle.std.specs.Prelude.{◌<◌, IfSome, length};
ghost use Rattle.term_pool.specs.Finding.{room};
ghost use Rattle.taos_saturate.specs.Saturating.{IsReady, IsNumber, IsNew, IsSound, IsGrown};

use crate::saturation::Saturation;
use taos_calculus::{Fact, Line};

impl Saturation {
    /// One line more.
    pub fn add(&mut self, line: Line)
        requires ready { IsReady self.old }
        requires sound { IsSound self.old }
        requires new { IsNew self.old line }
        ensures grown { IsGrown self.old self.new }
        ensures less { room self.new.found < room self.old.found }
    {
        self.found.add(line.fact, line.step);
    }

    // Whom the left one speaks for by no chain.
    fn try_row(&mut self, left: u16)
        requires ready { IsReady self.old }
        requires sound { IsSound self.old }
        requires left_in { IsNumber self.old left }
        ensures { IsGrown self.old self.new }
    {
        for k in 0..self.nodes.len() {
            let right = k as u16;
            if let Some(step) = self.new_speaks(left, right) {
                self.add(Line {
                    fact: Fact::Speaks { left, right },
                    step,
                });
            }
        }
    }

    // Who speaks for whom by no chain.
    fn try_rows(&mut self)
        requires ready { IsReady self.old }
        requires sound { IsSound self.old }
        ensures { IsGrown self.old self.new }
    {
        for k in 0..self.nodes.len() {
            self.try_row(k as u16);
        }
    }

    // A new fact by a chain that begins with the line of this number, if there is one.
    fn new_behind(&self, number: usize) -> Option<Line>
        requires { IsReady self.now }
        ensures { IfSome result (λ line. IsNew self.now line) }
    {
        if number < self.found.lines.len() {
            self.new_by_line(number)
        } else {
            None
        }
    }

    // What follows by chains that begin with the line of this number.
    fn chain_line(&mut self, number: usize)
        requires ready { IsReady self.old }
        requires sound { IsSound self.old }
        ensures { IsGrown self.old self.new }
    {
        while let Some(line) = self.new_behind(number) {
            self.add(line);
        }
    }

    // What follows by chains. Lines that come on the way are chains, which begin none.
    fn chain_lines(&mut self)
        requires ready { IsReady self.old }
        requires sound { IsSound self.old }
        ensures { IsGrown self.old self.new }
    {
        for number in 0..self.found.lines.len() {
            self.chain_line(number);
        }
    }

    // That this one says the statement at this place, and all for whom it speaks.
    fn tell(&mut self, who: u16, place: usize)
        requires ready { IsReady self.old }
        requires sound { IsSound self.old }
        requires who_in { IsNumber self.old who }
        requires place_in { place < length self.old.found.statements.items }
        ensures { IsGrown self.old self.new }
    {
        while let Some(line) = self.new_about(who, place) {
            self.add(line);
        }
    }

    // Who says the statement at this place.
    fn tell_statement(&mut self, place: usize)
        requires ready { IsReady self.old }
        requires sound { IsSound self.old }
        requires place_in { place < length self.old.found.statements.items }
        ensures { IsGrown self.old self.new }
    {
        for k in 0..self.nodes.len() {
            self.tell(k as u16, place);
        }
    }

    // Who says what.
    fn tell_statements(&mut self)
        requires ready { IsReady self.old }
        requires sound { IsSound self.old }
        ensures { IsGrown self.old self.new }
    {
        for place in 0..self.found.statements.len() {
            self.tell_statement(place);
        }
    }

    /// Adds what steps give that was not known: one look at each pair, line and statement.
    pub fn round(&mut self)
        requires ready { IsReady self.old }
        requires sound { IsSound self.old }
        ensures { IsGrown self.old self.new }
    {
        self.tell_statements();
        self.try_rows();
        self.chain_lines();
    }
}
