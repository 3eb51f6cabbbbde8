//! Lines that tell an edge: how the one speaks for the other at once.

ghost use Rattle.std.specs.Prelude.{◌≡◌, ◌<◌, ◌^◌, ℕ, Some, MatchOption, slice_get, length};
ghost use Rattle.taos_calculus.specs.declared.line.Fact.{Fact};
ghost use Rattle.taos_calculus.specs.declared.line.Node.{Node};
ghost use Rattle.goal_search.specs.Reasons.{IsEdge};
ghost use Rattle.goal_search.specs.Searching.{core, about, IsReady, IsNumber};
ghost use Rattle.goal_search.specs.Telling.{IsTelling, IsTold, TellsMore, TellsOf};
ghost use Rattle.goal_search.specs.Telling.{TellsActing, TellsAnchored, TellsFormed};
ghost use Rattle.goal_search.specs.Telling.{TellsQuoted, TellsUnder};
ghost use Rattle.goal_search.specs.TellingSteps.{FindsParts};

use crate::search::Search;
use prin_term::Anchor;
use taos_calculus::{Node, Step};
use term_pool::Found;

impl Search {
    // Tells that a conjunction speaks for its part.
    fn tell_part(&self, found: &mut Found, from: u16, to: u16)
        requires ready { IsReady (core self.now) }
        requires telling { IsTelling (core self.now) found.old }
        requires from_in { IsNumber (core self.now) from }
        requires to_in { IsNumber (core self.now) to }
        ensures more { TellsMore (core self.now) found.old found.new }
        ensures left { (b : ℕ) → slice_get self.now.nodes.items from ≡ Some (Node.And to b)
            → IsTold found.new (Fact.Speaks from to) }
        ensures right { (a : ℕ) → slice_get self.now.nodes.items from ≡ Some (Node.And a to)
            → IsTold found.new (Fact.Speaks from to) }
    {
        if let Node::And(a, b) = self.node(from) {
            if a == to {
                self.tell_speaks(found, from, to, Step::Left);
            } else if b == to {
                self.tell_speaks(found, from, to, Step::Right);
            }
        }
    }

    // Tells that one speaks for itself in a role.
    fn tell_in_role(&self, found: &mut Found, from: u16, to: u16)
        requires ready { IsReady (core self.now) }
        requires telling { IsTelling (core self.now) found.old }
        requires from_in { IsNumber (core self.now) from }
        requires to_in { IsNumber (core self.now) to }
        ensures more { TellsMore (core self.now) found.old found.new }
        ensures told { (r : ℕ) → slice_get self.now.nodes.items to ≡ Some (Node.AsRole from r)
            → IsTold found.new (Fact.Speaks from to) }
    {
        if let Node::AsRole(a, _) = self.node(to) {
            if a == from {
                self.tell_speaks(found, from, to, Step::Role);
            }
        }
    }

    // The place of an anchor, if it is there.
    fn anchor_at(&self, key: u32, name: u32) -> Option<u16>
        requires few { length self.now.anchors.items < 2 ^ 16 }
        ensures { MatchOption result ((i : ℕ) → slice_get self.now.anchors.items i
            ≡ Some (record { key = key; name = name }) → ⊥)
            (λ i. slice_get self.now.anchors.items i ≡ Some (record { key = key; name = name })) }
    {
        for i in 0..self.anchors.len() {
            if self.anchors[i] == (Anchor { key, name }) {
                return Some(i as u16);
            }
        }
        None
    }

    // Tells that an anchor's key speaks for its name.
    fn tell_anchored(&self, found: &mut Found, from: u16, to: u16)
        requires ready { IsReady (core self.now) }
        requires telling { IsTelling (core self.now) found.old }
        requires from_in { IsNumber (core self.now) from }
        requires to_in { IsNumber (core self.now) to }
        ensures more { TellsMore (core self.now) found.old found.new }
        ensures told { TellsAnchored (core self.now) found.new from to }
    {
        if let Node::Key(key) = self.node(from) {
            if let Node::Name(name) = self.node(to) {
                match self.anchor_at(key, name) {
                    Some(index) => {
                        self.tell_speaks(found, from, to, Step::Anchor { index });
                    }
                    None => {}
                }
            }
        }
    }

    // Tells that the parts of one form speak for those of another, where they are the same. Answers
    // the numbers of both lines.
    fn told_parts(&self, found: &mut Found, a: u16, b: u16, c: u16, d: u16) -> Option<(u32, u32)>
        requires ready { IsReady (core self.now) }
        requires telling { IsTelling (core self.now) found.old }
        requires a_in { IsNumber (core self.now) a }
        requires b_in { IsNumber (core self.now) b }
        requires c_in { IsNumber (core self.now) c }
        requires d_in { IsNumber (core self.now) d }
        ensures more { TellsMore (core self.now) found.old found.new }
        ensures told { FindsParts (core self.now) found.old found.new a b c d result }
    {
        self.tell_same(found, a, c);
        self.tell_same(found, b, d);
        match self.speaks_line(found, a, c) {
            Some(first) => match self.speaks_line(found, b, d) {
                Some(second) => Some((first, second)),
                None => None,
            },
            None => None,
        }
    }

    // Tells that one that quotes speaks for another.
    fn tell_quoted(&self, found: &mut Found, from: u16, to: u16)
        requires ready { IsReady (core self.now) }
        requires telling { IsTelling (core self.now) found.old }
        requires from_in { IsNumber (core self.now) from }
        requires to_in { IsNumber (core self.now) to }
        ensures more { TellsMore (core self.now) found.old found.new }
        ensures told { TellsQuoted (core self.now) found.old found.new from to }
    {
        if let Node::Quote(a, b) = self.node(from) {
            if let Node::Quote(c, d) = self.node(to) {
                match self.told_parts(found, a, b, c, d) {
                    Some((first, second)) => {
                        self.tell_speaks(found, from, to, Step::Quote { first, second });
                    }
                    None => {}
                }
            }
        }
    }

    // Tells that one that acts for another speaks for another such.
    fn tell_acting(&self, found: &mut Found, from: u16, to: u16)
        requires ready { IsReady (core self.now) }
        requires telling { IsTelling (core self.now) found.old }
        requires from_in { IsNumber (core self.now) from }
        requires to_in { IsNumber (core self.now) to }
        ensures more { TellsMore (core self.now) found.old found.new }
        ensures told { TellsActing (core self.now) found.old found.new from to }
    {
        if let Node::For(a, b) = self.node(from) {
            if let Node::For(c, d) = self.node(to) {
                match self.told_parts(found, a, b, c, d) {
                    Some((first, second)) => {
                        self.tell_speaks(found, from, to, Step::For { first, second });
                    }
                    None => {}
                }
            }
        }
    }

    // Tells that one in a role speaks for another in that role.
    fn tell_under(&self, found: &mut Found, from: u16, to: u16)
        requires ready { IsReady (core self.now) }
        requires telling { IsTelling (core self.now) found.old }
        requires from_in { IsNumber (core self.now) from }
        requires to_in { IsNumber (core self.now) to }
        ensures more { TellsMore (core self.now) found.old found.new }
        ensures told { TellsUnder (core self.now) found.old found.new from to }
    {
        if let Node::AsRole(a, role) = self.node(from) {
            if let Node::AsRole(c, other) = self.node(to) {
                self.tell_same(found, a, c);
                if role == other {
                    match self.speaks_line(found, a, c) {
                        Some(first) => {
                            self.tell_speaks(found, from, to, Step::RoleUnder { first });
                        }
                        None => {}
                    }
                }
            }
        }
    }

    // Tells what forms and anchors give from the one to the other.
    fn tell_formed(&self, found: &mut Found, from: u16, to: u16)
        requires ready { IsReady (core self.now) }
        requires telling { IsTelling (core self.now) found.old }
        requires from_in { IsNumber (core self.now) from }
        requires to_in { IsNumber (core self.now) to }
        ensures more { TellsMore (core self.now) found.old found.new }
        ensures told { TellsFormed (core self.now) found.old found.new from to }
    {
        self.tell_part(found, from, to);
        self.tell_in_role(found, from, to);
        self.tell_anchored(found, from, to);
        self.tell_quoted(found, from, to);
        self.tell_acting(found, from, to);
        self.tell_under(found, from, to);
    }

    /// Tells an edge.
    pub fn tell_edge(&self, found: &mut Found, from: u16, to: u16)
        requires ready { IsReady (core self.now) }
        requires telling { IsTelling (core self.now) found.old }
        requires from_in { IsNumber (core self.now) from }
        requires to_in { IsNumber (core self.now) to }
        ensures more { TellsMore (core self.now) found.old found.new }
        ensures told { IsEdge (about (core self.now)) (TellsOf (core self.now) found.old) from to
            → IsTold found.new (Fact.Speaks from to) }
    {
        self.tell_formed(found, from, to);
        if self.speaks_line(found, from, to).is_none() {
            self.tell_heard(found, from, to);
        }
    }
}
