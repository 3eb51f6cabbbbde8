//! Lines of a derivation that tell what a search found, each after those that it follows from.

ghost use Rattle.std.specs.Prelude.{◌≡◌, ◌<◌, Some, slice_get, length};
ghost use Rattle.taos_calculus.specs.declared.line.Fact.{Fact};
ghost use Rattle.term_pool.specs.declared.cited.Cited.{Cited};
ghost use Rattle.goal_search.specs.Searching.{core, IsReady, IsNumber};
ghost use Rattle.goal_search.specs.Telling.{IsTelling, IsTold, TellsMore, TellsPassed, IsFactIn};
ghost use Rattle.goal_search.specs.TellingSteps.{FindsLine, FindsSaid, GivesIn, GivesSaid};

use crate::search::Search;
use taos_calculus::{Fact, Step};
use term_pool::Found;

// The fact that the left one speaks for the right one.
fn speaking(left: u16, right: u16) -> Fact
    ensures { result ≡ Fact.Speaks left right }
{
    Fact::Speaks { left, right }
}

impl Search {
    // The fact that this one says the statement of a certificate.
    fn saying(&self, number: usize, who: u16) -> Fact
        requires ready { IsReady (core self.now) }
        requires number_in { number < length self.now.cited.items }
        requires who_in { IsNumber (core self.now) who }
        ensures is { (c : Cited) → slice_get self.now.cited.items number ≡ Some c
            → result ≡ Fact.Says who c.left c.right }
        ensures stands { (c : Cited) × (slice_get self.now.cited.items number ≡ Some c)
            × (result ≡ Fact.Says who c.left c.right) }
        ensures fact_in { IsFactIn (core self.now) result }
    {
        let it = self.cite(number);
        Fact::Says {
            who,
            left: it.left,
            right: it.right,
        }
    }

    // Tells a fact, where no line does.
    fn tell(&self, found: &mut Found, fact: Fact, step: Step)
        requires ready { IsReady (core self.now) }
        requires telling { IsTelling (core self.now) found.old }
        requires fact_in { IsFactIn (core self.now) fact }
        requires gives { GivesIn (core self.now) found.old fact step }
        ensures more { TellsMore (core self.now) found.old found.new }
        ensures told { IsTold found.new fact }
    {
        if found.number(fact).is_none() {
            found.add(fact, step);
        }
    }

    /// Tells that the left one speaks for the right one.
    pub fn tell_speaks(&self, found: &mut Found, left: u16, right: u16, step: Step)
        requires ready { IsReady (core self.now) }
        requires telling { IsTelling (core self.now) found.old }
        requires left_in { IsNumber (core self.now) left }
        requires right_in { IsNumber (core self.now) right }
        requires gives { GivesIn (core self.now) found.old (Fact.Speaks left right) step }
        ensures more { TellsMore (core self.now) found.old found.new }
        ensures told { IsTold found.new (Fact.Speaks left right) }
    {
        self.tell(found, speaking(left, right), step);
    }

    /// Tells that this one says the statement of a certificate.
    pub fn tell_says(&self, found: &mut Found, number: usize, who: u16, step: Step)
        requires ready { IsReady (core self.now) }
        requires telling { IsTelling (core self.now) found.old }
        requires number_in { number < length self.now.cited.items }
        requires who_in { IsNumber (core self.now) who }
        requires gives { GivesSaid (core self.now) found.old number who step }
        ensures more { TellsMore (core self.now) found.old found.new }
        ensures told { (c : Cited) → slice_get self.now.cited.items number ≡ Some c
            → IsTold found.new (Fact.Says who c.left c.right) }
    {
        self.tell(found, self.saying(number, who), step);
    }

    /// Tells that the left one speaks for the right one, where they are the same.
    pub fn tell_same(&self, found: &mut Found, left: u16, right: u16)
        requires ready { IsReady (core self.now) }
        requires telling { IsTelling (core self.now) found.old }
        requires left_in { IsNumber (core self.now) left }
        ensures more { TellsMore (core self.now) found.old found.new }
        ensures told { TellsPassed (core self.now) found.old left right
            → IsTold found.new (Fact.Speaks left right) }
    {
        if left == right {
            self.tell_speaks(found, left, right, Step::Same);
        }
    }

    /// The number of the line that tells that the left one speaks for the right one.
    pub fn speaks_line(&self, found: &Found, left: u16, right: u16) -> Option<u32>
        requires ready { IsReady (core self.now) }
        requires telling { IsTelling (core self.now) found.now }
        requires left_in { IsNumber (core self.now) left }
        requires right_in { IsNumber (core self.now) right }
        ensures { FindsLine found.now (Fact.Speaks left right) result }
    {
        found.number(speaking(left, right))
    }

    /// The number of the line that tells that this one says the statement of a certificate.
    pub fn says_line(&self, found: &Found, number: usize, who: u16) -> Option<u32>
        requires ready { IsReady (core self.now) }
        requires telling { IsTelling (core self.now) found.now }
        requires number_in { number < length self.now.cited.items }
        requires who_in { IsNumber (core self.now) who }
        ensures { FindsSaid (core self.now) found.now number who result }
    {
        found.number(self.saying(number, who))
    }
}
