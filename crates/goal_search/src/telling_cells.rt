//! Lines that tell why a number is in a row.

ghost use Rattle.std.specs.Prelude.{◌≡◌, ◌<◌, ℕ, Some, slice_get, length};
ghost use Rattle.taos_calculus.specs.declared.line.Fact.{Fact};
ghost use Rattle.taos_calculus.specs.declared.line.Node.{Node};
ghost use Rattle.term_pool.specs.declared.cited.Cited.{Cited};
ghost use Rattle.goal_search.specs.Reasons.{IsAlike, IsEdge, IsReason};
ghost use Rattle.goal_search.specs.Searching.{core, about, IsReady, IsNumber, IsRow};
ghost use Rattle.goal_search.specs.Telling.{IsTelling, IsTold, TellsMore, TellsOf};
ghost use Rattle.goal_search.specs.TellingSteps.{TellsJoined, TellsLifted, TellsStated};

use crate::search::{AT_ONCE, OF_BOTH, Search};
use taos_calculus::{Node, Step};
use term_pool::Found;

impl Search {
    // Tells what a number's row has by an edge.
    fn tell_chain(&self, found: &mut Found, row: u16, from: u16, to: u16)
        requires ready { IsReady (core self.now) }
        requires telling { IsTelling (core self.now) found.old }
        requires row_in { IsNumber (core self.now) row }
        requires from_in { IsNumber (core self.now) from }
        requires to_in { IsNumber (core self.now) to }
        ensures more { TellsMore (core self.now) found.old found.new }
        ensures told { IsTold found.old (Fact.Speaks row from)
            → IsEdge (about (core self.now)) (TellsOf (core self.now) found.old) from to
            → IsTold found.new (Fact.Speaks row to) }
    {
        self.tell_edge(found, from, to);
        match self.speaks_line(found, row, from) {
            Some(first) => {
                match self.speaks_line(found, from, to) {
                    Some(second) => {
                        self.tell_speaks(found, row, to, Step::Chain { first, second });
                    }
                    None => {}
                }
            }
            None => {}
        }
    }

    // Tells what a statement's row has by an edge.
    fn tell_lift(&self, found: &mut Found, number: usize, from: u16, to: u16)
        requires ready { IsReady (core self.now) }
        requires telling { IsTelling (core self.now) found.old }
        requires number_in { number < length self.now.cited.items }
        requires from_in { IsNumber (core self.now) from }
        requires to_in { IsNumber (core self.now) to }
        ensures more { TellsMore (core self.now) found.old found.new }
        ensures told { TellsLifted (core self.now) found.old found.new number from to }
    {
        self.tell_edge(found, from, to);
        match self.says_line(found, number, from) {
            Some(says) => {
                match self.speaks_line(found, from, to) {
                    Some(speaks) => {
                        self.tell_says(found, number, to, Step::Lift { says, speaks });
                    }
                    None => {}
                }
            }
            None => {}
        }
    }

    // Tells that a number's row has a conjunction.
    fn tell_both(&self, found: &mut Found, row: u16, whole: u16)
        requires ready { IsReady (core self.now) }
        requires telling { IsTelling (core self.now) found.old }
        requires row_in { IsNumber (core self.now) row }
        requires whole_in { IsNumber (core self.now) whole }
        ensures more { TellsMore (core self.now) found.old found.new }
        ensures told { (a b : ℕ) → slice_get self.now.nodes.items whole ≡ Some (Node.And a b)
            → IsTold found.old (Fact.Speaks row a) → IsTold found.old (Fact.Speaks row b)
            → IsTold found.new (Fact.Speaks row whole) }
    {
        if let Node::And(a, b) = self.node(whole) {
            match self.speaks_line(found, row, a) {
                Some(first) => {
                    match self.speaks_line(found, row, b) {
                        Some(second) => {
                            self.tell_speaks(found, row, whole, Step::Both { first, second });
                        }
                        None => {}
                    }
                }
                None => {}
            }
        }
    }

    // Tells that a statement's row has a conjunction.
    fn tell_join(&self, found: &mut Found, number: usize, who: u16)
        requires ready { IsReady (core self.now) }
        requires telling { IsTelling (core self.now) found.old }
        requires number_in { number < length self.now.cited.items }
        requires who_in { IsNumber (core self.now) who }
        ensures more { TellsMore (core self.now) found.old found.new }
        ensures told { TellsJoined (core self.now) found.old found.new number who }
    {
        if let Node::And(a, b) = self.node(who) {
            match self.says_line(found, number, a) {
                Some(first) => {
                    match self.says_line(found, number, b) {
                        Some(second) => {
                            self.tell_says(found, number, who, Step::Join { first, second });
                        }
                        None => {}
                    }
                }
                None => {}
            }
        }
    }

    // Tells that this one says the statement of a certificate, where the other certificate makes it.
    fn tell_made(&self, found: &mut Found, number: usize, other: usize, who: u16)
        requires ready { IsReady (core self.now) }
        requires telling { IsTelling (core self.now) found.old }
        requires number_in { number < length self.now.cited.items }
        requires other_in { other < length self.now.cited.items }
        requires who_in { IsNumber (core self.now) who }
        ensures more { TellsMore (core self.now) found.old found.new }
        ensures told { (c d : Cited) → slice_get self.now.cited.items other ≡ Some c
            → slice_get self.now.cited.items number ≡ Some d → IsAlike c d → who ≡ c.speaker
            → IsTold found.new (Fact.Says who d.left d.right) }
    {
        let it = self.cite(number);
        let one = self.cite(other);
        if one.is(who, it.left, it.right) {
            let cite = other as u16;
            self.tell_says(found, number, who, Step::Said { cite });
        }
    }

    // Tells that a speaker says the statement of a certificate, where one makes it.
    fn tell_speaker(&self, found: &mut Found, number: usize, who: u16)
        requires ready { IsReady (core self.now) }
        requires telling { IsTelling (core self.now) found.old }
        requires number_in { number < length self.now.cited.items }
        requires who_in { IsNumber (core self.now) who }
        ensures more { TellsMore (core self.now) found.old found.new }
        ensures told { (i : ℕ) (c d : Cited) → slice_get self.now.cited.items i ≡ Some c
            → slice_get self.now.cited.items number ≡ Some d → IsAlike c d → who ≡ c.speaker
            → IsTold found.new (Fact.Says who d.left d.right) }
    {
        for other in 0..self.cited.len() {
            self.tell_made(found, number, other, who);
        }
    }

    // Tells that a number's row has a number, for this reason.
    fn tell_of_number(&self, found: &mut Found, row: u16, number: u16, reason: u16)
        requires ready { IsReady (core self.now) }
        requires telling { IsTelling (core self.now) found.old }
        requires row_in { IsNumber (core self.now) row }
        requires number_in { IsNumber (core self.now) number }
        ensures more { TellsMore (core self.now) found.old found.new }
        ensures told { IsReason (about (core self.now)) (TellsOf (core self.now) found.old) row
            number reason → IsTold found.new (Fact.Speaks row number) }
    {
        if reason == AT_ONCE {
            self.tell_same(found, row, number);
        } else if reason == OF_BOTH {
            self.tell_both(found, row, number);
        } else if (reason as usize) < self.nodes.len() {
            self.tell_chain(found, row, reason, number);
        }
    }

    // Tells that a statement's row has a number, for this reason.
    fn tell_of_statement(&self, found: &mut Found, place: usize, number: u16, reason: u16)
        requires ready { IsReady (core self.now) }
        requires telling { IsTelling (core self.now) found.old }
        requires place_in { place < length self.now.cited.items }
        requires number_in { IsNumber (core self.now) number }
        ensures more { TellsMore (core self.now) found.old found.new }
        ensures told { TellsStated (core self.now) found.old found.new place number reason }
    {
        if reason == AT_ONCE {
            self.tell_speaker(found, place, number);
        } else if reason == OF_BOTH {
            self.tell_join(found, place, number);
        } else if (reason as usize) < self.nodes.len() {
            self.tell_lift(found, place, reason, number);
        }
    }

    /// Tells that a row has a number, for this reason.
    pub fn tell_cell(&self, found: &mut Found, row: usize, number: u16, reason: u16)
        requires ready { IsReady (core self.now) }
        requires telling { IsTelling (core self.now) found.old }
        requires row_in { IsRow (core self.now) row }
        requires number_in { IsNumber (core self.now) number }
        ensures more { TellsMore (core self.now) found.old found.new }
        ensures told { IsReason (about (core self.now)) (TellsOf (core self.now) found.old) row
            number reason → TellsOf (core self.now) found.new row number }
    {
        if row < self.nodes.len() {
            self.tell_of_number(found, row as u16, number, reason);
        } else {
            self.tell_of_statement(found, row - self.nodes.len(), number, reason);
        }
    }
}
