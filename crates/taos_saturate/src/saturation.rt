//! A table of principals with its certificates, and the facts that were found about it.

ghost use Rattle.std.specs.Prelude.{◌≡◌, ℕ, ◌<◌, Some, MatchOption, slice_get, length};
ghost use Rattle.taos_calculus.specs.declared.line.Fact.{Fact};
ghost use Rattle.taos_calculus.specs.Tables.{OperandsBelow};
ghost use Rattle.taos_saturate.specs.Saturating.{facts_of, FindsBoth, IsReady, IsNumber};

use prin_term::Anchor;
use taos_calculus::{Fact, Node};
use term_pool::{Cited, Found};

/// The table, and the facts that were found.
#[derive(Drop)]
pub struct Saturation {
    pub nodes: Vec<Node>,
    pub anchors: Vec<Anchor>,
    pub cited: Vec<Cited>,
    pub found: Found,
}

impl Saturation {
    pub fn node(&self, id: u16) -> Node
        requires ready { IsReady self.now }
        requires id_in { IsNumber self.now id }
        ensures stands { slice_get self.now.nodes.items id ≡ Some result }
        ensures operands { OperandsBelow (length self.now.nodes.items) result }
    {
        self.nodes[id as usize]
    }

    /// The number of the line that has the fact.
    pub fn speaks(&self, left: u16, right: u16) -> Option<u32>
        requires ready { IsReady self.now }
        requires left_in { IsNumber self.now left }
        requires right_in { IsNumber self.now right }
        ensures { MatchOption result
            ((k : ℕ) → slice_get (facts_of self.now) k ≡ Some (Fact.Speaks left right) → ⊥)
            (λ k. slice_get (facts_of self.now) k ≡ Some (Fact.Speaks left right)) }
    {
        self.found.number(Fact::Speaks { left, right })
    }

    /// The number of the line that has the fact.
    pub fn says(&self, who: u16, left: u16, right: u16) -> Option<u32>
        requires ready { IsReady self.now }
        requires who_in { IsNumber self.now who }
        requires left_in { IsNumber self.now left }
        requires right_in { IsNumber self.now right }
        ensures { MatchOption result
            ((k : ℕ) → slice_get (facts_of self.now) k ≡ Some (Fact.Says who left right) → ⊥)
            (λ k. slice_get (facts_of self.now) k ≡ Some (Fact.Says who left right)) }
    {
        self.found.number(Fact::Says { who, left, right })
    }

    // The two numbers of facts that give a pair of pairs.
    pub fn both_speak(&self, a: u16, b: u16, c: u16, d: u16) -> Option<(u32, u32)>
        requires ready { IsReady self.now }
        requires a_in { IsNumber self.now a }
        requires b_in { IsNumber self.now b }
        requires c_in { IsNumber self.now c }
        requires d_in { IsNumber self.now d }
        ensures { FindsBoth self.now (Fact.Speaks a b) (Fact.Speaks c d) result }
    {
        match self.speaks(a, b) {
            Some(first) => match self.speaks(c, d) {
                Some(second) => Some((first, second)),
                None => None,
            },
            None => None,
        }
    }
}
