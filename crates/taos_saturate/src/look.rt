//! Looking for a line that may come next.

ghost use Rattle.std.specs.Prelude.{◌≡◌, ℕ, ◌<◌, Some, MatchOption, slice_get, length};
ghost use Rattle.taos_calculus.specs.declared.line.Fact.{Fact};
ghost use Rattle.term_pool.specs.declared.found.Pair.{Pair};
ghost use Rattle.taos_saturate.specs.Saturating.{IsReady, IsSound, IsNumber, IsNew, SpeaksFull};
ghost use Rattle.taos_saturate.specs.Saturating.{SaysFull, ChainFull, LineFull, LiftFull, IsFull};

use crate::saturation::Saturation;
use taos_calculus::{Fact, Line, Step};

impl Saturation {
    // A step to a fact that is not known.
    pub fn new_speaks(&self, left: u16, right: u16) -> Option<Step>
        requires ready { IsReady self.now }
        requires left_in { IsNumber self.now left }
        requires right_in { IsNumber self.now right }
        ensures { MatchOption result (SpeaksFull self.now left right)
            (λ step. IsNew self.now (record { fact = Fact.Speaks left right; step = step })) }
    {
        match self.speaks(left, right) {
            Some(_) => None,
            None => self.find_speaks(left, right),
        }
    }

    // A step to a fact that is not known.
    pub fn new_says(&self, who: u16, place: usize) -> Option<Line>
        requires ready { IsReady self.now }
        requires who_in { IsNumber self.now who }
        requires place_in { place < length self.now.found.statements.items }
        ensures { MatchOption result
            ((p : Pair) → slice_get self.now.found.statements.items place ≡ Some p
            → SaysFull self.now who p)
            (IsNew self.now) }
    {
        let statement = self.found.statement(place);
        match self.says(who, statement.left, statement.right) {
            Some(_) => None,
            None => match self.find_says(who, statement.left, statement.right) {
                Some(step) => Some(Line {
                    fact: Fact::Says {
                        who,
                        left: statement.left,
                        right: statement.right,
                    },
                    step,
                }),
                None => None,
            },
        }
    }

    // A fact about what the left one speaks for through the middle one.
    fn new_by_chain(&self, left: u16, middle: u16) -> Option<Line>
        requires ready { IsReady self.now }
        requires left_in { IsNumber self.now left }
        requires middle_in { IsNumber self.now middle }
        ensures { MatchOption result (ChainFull self.now left middle) (IsNew self.now) }
    {
        if let Some(first) = self.speaks(left, middle) {
            if let Some(right) = self.found.gap(left as usize, middle as usize) {
                if let Some(second) = self.speaks(middle, right) {
                    return Some(Line {
                        fact: Fact::Speaks { left, right },
                        step: Step::Chain { first, second },
                    });
                }
            }
        }
        None
    }

    // A fact about who says the statement at this place because this one says it.
    fn new_by_lift(&self, who: u16, place: usize) -> Option<Line>
        requires ready { IsReady self.now }
        requires who_in { IsNumber self.now who }
        requires place_in { place < length self.now.found.statements.items }
        ensures { MatchOption result
            ((p : Pair) → slice_get self.now.found.statements.items place ≡ Some p
            → LiftFull self.now who p)
            (IsNew self.now) }
    {
        let statement = self.found.statement(place);
        if let Some(says) = self.says(who, statement.left, statement.right) {
            if let Some(row) = self.found.row(statement.left, statement.right) {
                if let Some(other) = self.found.gap(self.found.width + row, who as usize) {
                    if let Some(speaks) = self.speaks(who, other) {
                        return Some(Line {
                            fact: Fact::Says {
                                who: other,
                                left: statement.left,
                                right: statement.right,
                            },
                            step: Step::Lift { says, speaks },
                        });
                    }
                }
            }
        }
        None
    }

    /// A new fact about who says the statement at this place: this one, or one for whom it speaks.
    pub fn new_about(&self, who: u16, place: usize) -> Option<Line>
        requires ready { IsReady self.now }
        requires who_in { IsNumber self.now who }
        requires place_in { place < length self.now.found.statements.items }
        ensures { MatchOption result
            ((p : Pair) → slice_get self.now.found.statements.items place ≡ Some p
            → SaysFull self.now who p × LiftFull self.now who p)
            (IsNew self.now) }
    {
        match self.new_says(who, place) {
            Some(line) => Some(line),
            None => self.new_by_lift(who, place),
        }
    }

    // A new fact about what the left one speaks for, by no chain.
    fn new_in_row(&self, left: u16) -> Option<Line>
        requires ready { IsReady self.now }
        requires left_in { IsNumber self.now left }
        ensures { MatchOption result ((r : ℕ) → IsNumber self.now r → SpeaksFull self.now left r)
            (IsNew self.now) }
    {
        for k in 0..self.nodes.len() {
            let right = k as u16;
            if let Some(step) = self.new_speaks(left, right) {
                return Some(Line {
                    fact: Fact::Speaks { left, right },
                    step,
                });
            }
        }
        None
    }

    // A new fact by no chain about who speaks for whom.
    fn new_in_rows(&self) -> Option<Line>
        requires { IsReady self.now }
        ensures { MatchOption result
            ((l r : ℕ) → IsNumber self.now l → IsNumber self.now r → SpeaksFull self.now l r)
            (IsNew self.now) }
    {
        for k in 0..self.nodes.len() {
            let left = k as u16;
            if let Some(line) = self.new_in_row(left) {
                return Some(line);
            }
        }
        None
    }

    /// A new fact by a chain that begins with this line. A line that comes by a chain itself needs
    /// no look, since what follows through it follows through the lines that it comes from.
    pub fn new_by_line(&self, number: usize) -> Option<Line>
        requires ready { IsReady self.now }
        requires number_in { number < length self.now.found.lines.items }
        ensures { MatchOption result (LineFull self.now number) (IsNew self.now) }
    {
        let line = self.found.line(number);
        match line.step {
            Step::Chain { .. } => None,
            _ => match line.fact {
                Fact::Speaks { left, right } => self.new_by_chain(left, right),
                Fact::Says { .. } => None,
            },
        }
    }

    // A new fact by a chain.
    fn new_in_lines(&self) -> Option<Line>
        requires { IsReady self.now }
        ensures { MatchOption result
            ((k : ℕ) → k < length self.now.found.lines.items → LineFull self.now k)
            (IsNew self.now) }
    {
        for number in 0..self.found.lines.len() {
            if let Some(line) = self.new_by_line(number) {
                return Some(line);
            }
        }
        None
    }

    // A new fact about who says the statement at this place.
    fn new_in_statement(&self, place: usize) -> Option<Line>
        requires ready { IsReady self.now }
        requires place_in { place < length self.now.found.statements.items }
        ensures { MatchOption result
            ((w : ℕ) → IsNumber self.now w → (p : Pair)
            → slice_get self.now.found.statements.items place ≡ Some p
            → SaysFull self.now w p × LiftFull self.now w p)
            (IsNew self.now) }
    {
        for k in 0..self.nodes.len() {
            if let Some(line) = self.new_about(k as u16, place) {
                return Some(line);
            }
        }
        None
    }

    // A new fact about who says what.
    fn new_in_statements(&self) -> Option<Line>
        requires { IsReady self.now }
        ensures { MatchOption result
            ((k w : ℕ) (p : Pair) → slice_get self.now.found.statements.items k ≡ Some p
            → IsNumber self.now w → SaysFull self.now w p × LiftFull self.now w p)
            (IsNew self.now) }
    {
        for place in 0..self.found.statements.len() {
            if let Some(line) = self.new_in_statement(place) {
                return Some(line);
            }
        }
        None
    }

    /// A line that may come next.
    pub fn new_line(&self) -> Option<Line>
        requires ready { IsReady self.now }
        requires sound { IsSound self.now }
        ensures { MatchOption result (IsFull self.now) (IsNew self.now) }
    {
        if let Some(line) = self.new_in_rows() {
            return Some(line);
        }
        if let Some(line) = self.new_in_lines() {
            return Some(line);
        }
        self.new_in_statements()
    }
}
