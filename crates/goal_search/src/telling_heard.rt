//! Lines that tell what certificates hand off and delegate.

ghost use Rattle.std.specs.Prelude.{◌≡◌, ◌<◌, ℕ, IsTrue, Some, slice_get, length};
ghost use Rattle.taos_calculus.specs.declared.line.Fact.{Fact};
ghost use Rattle.term_pool.specs.declared.cited.Cited.{Cited};
ghost use Rattle.goal_search.specs.Searching.{core, IsReady, IsNumber};
ghost use Rattle.goal_search.specs.Telling.{IsTelling, IsTold, TellsMore, TellsSaid, TellsHeard};
ghost use Rattle.goal_search.specs.TellingSteps.{TellsDelegated, TellsHanded};

use crate::search::Search;
use taos_calculus::Step;
use term_pool::Found;

impl Search {
    // Tells that this one says the statement of the certificate, where its speaker speaks for it.
    fn tell_said(&self, found: &mut Found, number: usize, who: u16)
        requires ready { IsReady (core self.now) }
        requires telling { IsTelling (core self.now) found.old }
        requires number_in { number < length self.now.cited.items }
        requires who_in { IsNumber (core self.now) who }
        ensures more { TellsMore (core self.now) found.old found.new }
        ensures told { (c : Cited) → slice_get self.now.cited.items number ≡ Some c
            → TellsSaid (core self.now) found.old number c who
            → IsTold found.new (Fact.Says who c.left c.right) }
    {
        let it = self.cite(number);
        let cite = number as u16;
        self.tell_says(found, number, it.speaker, Step::Said { cite });
        if who == it.speaker {
            return;
        }
        match self.says_line(found, number, it.speaker) {
            Some(says) => match self.speaks_line(found, it.speaker, who) {
                Some(speaks) => self.tell_says(found, number, who, Step::Lift { says, speaks }),
                None => {}
            },
            None => {}
        }
    }

    // Tells what the certificate hands off.
    fn tell_handed(&self, found: &mut Found, number: usize)
        requires ready { IsReady (core self.now) }
        requires telling { IsTelling (core self.now) found.old }
        requires number_in { number < length self.now.cited.items }
        ensures more { TellsMore (core self.now) found.old found.new }
        ensures told { TellsHanded (core self.now) found.old found.new number }
    {
        let it = self.cite(number);
        self.tell_said(found, number, it.right);
        match self.says_line(found, number, it.right) {
            Some(says) => {
                self.tell_speaks(found, it.left, it.right, Step::HandOff { says });
            }
            None => {}
        }
    }

    // Tells what the certificate delegates.
    fn tell_delegated(&self, found: &mut Found, number: usize)
        requires ready { IsReady (core self.now) }
        requires telling { IsTelling (core self.now) found.old }
        requires number_in { number < length self.now.cited.items }
        ensures more { TellsMore (core self.now) found.old found.new }
        ensures told { TellsDelegated (core self.now) found.old found.new number }
    {
        let it = self.cite(number);
        match self.delegator(number) {
            Some(who) => {
                self.tell_said(found, number, who);
                match self.says_line(found, number, who) {
                    Some(says) => {
                        self.tell_speaks(found, it.left, it.right, Step::Delegate { says });
                    }
                    None => {}
                }
            }
            None => {}
        }
    }

    // Tells what the certificate gives from the one to the other. Answers whether the lines now tell
    // that the one speaks for the other.
    fn tell_one(&self, found: &mut Found, number: usize, from: u16, to: u16) -> bool
        requires ready { IsReady (core self.now) }
        requires telling { IsTelling (core self.now) found.old }
        requires number_in { number < length self.now.cited.items }
        ensures more { TellsMore (core self.now) found.old found.new }
        ensures told { TellsHeard (core self.now) found.old found.new from to number }
        ensures done { IsTrue result → IsTold found.new (Fact.Speaks from to) }
    {
        let it = self.cite(number);
        if it.left == from && it.right == to {
            self.tell_handed(found, number);
            self.tell_delegated(found, number);
            return self.speaks_line(found, it.left, it.right).is_some();
        }
        false
    }

    /// Tells what the certificates give from the one to the other.
    pub fn tell_heard(&self, found: &mut Found, from: u16, to: u16)
        requires ready { IsReady (core self.now) }
        requires telling { IsTelling (core self.now) found.old }
        ensures more { TellsMore (core self.now) found.old found.new }
        ensures told { (i : ℕ) → i < length self.now.cited.items
            → TellsHeard (core self.now) found.old found.new from to i }
    {
        for number in 0..self.cited.len() {
            if self.tell_one(found, number, from, to) {
                return;
            }
        }
    }
}
