//! Whether one number speaks for another at once, by what the rows have.

ghost use Rattle.std.specs.Prelude.{◌≡◌, ◌↔◌, ℕ, ◌<◌, Some, IsTrue, MatchOption, slice_get, length};
ghost use Rattle.taos_calculus.specs.declared.line.Node.{Node};
ghost use Rattle.term_pool.specs.declared.cited.Cited.{Cited};
ghost use Rattle.goal_search.specs.Edges.{IsDelegation, IsHeard};
ghost use Rattle.goal_search.specs.Reasons.{IsEdge, IsPassed, IsSaid};
ghost use Rattle.goal_search.specs.Searching.{core, IsReady, IsNumber, Has, about};

use crate::search::Search;
use taos_calculus::Node;

impl Search {
    /// Whether the left one is the right one, or is known to speak for it.
    pub fn passes(&self, left: u16, right: u16) -> bool
        requires ready { IsReady (core self.now) }
        requires left_in { IsNumber (core self.now) left }
        requires right_in { IsNumber (core self.now) right }
        ensures { IsTrue result ↔ IsPassed (Has (core self.now)) left right }
    {
        left == right || self.has(left as usize, right)
    }

    /// Whether this one is known to say the statement of the certificate.
    pub fn is_said(&self, number: usize, who: u16) -> bool
        requires ready { IsReady (core self.now) }
        requires number_in { number < length self.now.cited.items }
        requires who_in { IsNumber (core self.now) who }
        ensures { (c : Cited) → slice_get self.now.cited.items number ≡ Some c
            → IsTrue result ↔ IsSaid (about (core self.now)) (Has (core self.now)) number c who }
    {
        let row = self.statement_row(number);
        let it = self.cite(number);
        self.has(row, who) || self.has(it.speaker as usize, who)
    }

    /// Who delegates by the certificate, if it is of that form.
    pub fn delegator(&self, number: usize) -> Option<u16>
        requires ready { IsReady (core self.now) }
        requires number_in { number < length self.now.cited.items }
        ensures { MatchOption result
            ((a b : ℕ) → IsDelegation (core self.now) number a b → ⊥)
            (λ a. IsNumber (core self.now) a
            × ((b : ℕ) × IsDelegation (core self.now) number a b)) }
    {
        let it = self.cite(number);
        if let Node::Quote(b, a) = self.node(it.left) {
            if let Node::For(c, d) = self.node(it.right) {
                if b == c && a == d {
                    return Some(a);
                }
            }
        }
        None
    }

    /// Whether the certificate is believed, by what is known of who says its statement.
    pub fn is_heard(&self, number: usize) -> bool
        requires ready { IsReady (core self.now) }
        requires number_in { number < length self.now.cited.items }
        ensures { IsTrue result → IsHeard (core self.now) number }
    {
        let it = self.cite(number);
        if self.is_said(number, it.right) {
            return true;
        }
        match self.delegator(number) {
            Some(a) => self.is_said(number, a),
            None => false,
        }
    }

    // Whether an edge leads from one that quotes, of these operands, to another.
    fn is_quoting_edge(&self, a: u16, b: u16, to: u16) -> bool
        requires ready { IsReady (core self.now) }
        requires a_in { IsNumber (core self.now) a }
        requires b_in { IsNumber (core self.now) b }
        requires to_in { IsNumber (core self.now) to }
        ensures { IsTrue result
            → (from : ℕ) → slice_get self.now.nodes.items from ≡ Some (Node.Quote a b)
            → IsEdge (about (core self.now)) (Has (core self.now)) from to }
    {
        match self.node(to) {
            Node::Quote(c, d) => self.passes(a, c) && self.passes(b, d),
            _ => false,
        }
    }

    // Whether an edge leads from one that acts for another, of these operands, to another.
    fn is_for_edge(&self, a: u16, b: u16, to: u16) -> bool
        requires ready { IsReady (core self.now) }
        requires a_in { IsNumber (core self.now) a }
        requires b_in { IsNumber (core self.now) b }
        requires to_in { IsNumber (core self.now) to }
        ensures { IsTrue result
            → (from : ℕ) → slice_get self.now.nodes.items from ≡ Some (Node.For a b)
            → IsEdge (about (core self.now)) (Has (core self.now)) from to }
    {
        match self.node(to) {
            Node::For(c, d) => self.passes(a, c) && self.passes(b, d),
            _ => false,
        }
    }

    // Whether an edge leads from one in this role to another.
    fn is_role_edge(&self, a: u16, role: u32, to: u16) -> bool
        requires ready { IsReady (core self.now) }
        requires a_in { IsNumber (core self.now) a }
        requires to_in { IsNumber (core self.now) to }
        ensures { IsTrue result
            → (from : ℕ) → slice_get self.now.nodes.items from ≡ Some (Node.AsRole a role)
            → IsEdge (about (core self.now)) (Has (core self.now)) from to }
    {
        match self.node(to) {
            Node::AsRole(c, other) => role == other && self.passes(a, c),
            _ => false,
        }
    }

    /// Whether an edge leads from one compound to another of its form.
    pub fn is_form_edge(&self, from: u16, to: u16) -> bool
        requires ready { IsReady (core self.now) }
        requires from_in { IsNumber (core self.now) from }
        requires to_in { IsNumber (core self.now) to }
        ensures { IsTrue result
            → IsEdge (about (core self.now)) (Has (core self.now)) from to }
    {
        match self.node(from) {
            Node::Quote(a, b) => self.is_quoting_edge(a, b, to),
            Node::For(a, b) => self.is_for_edge(a, b, to),
            Node::AsRole(a, role) => self.is_role_edge(a, role, to),
            _ => false,
        }
    }

    /// Whether the one is a part of the conjunction.
    pub fn is_part(&self, whole: u16, part: u16) -> bool
        requires ready { IsReady (core self.now) }
        requires whole_in { IsNumber (core self.now) whole }
        ensures { IsTrue result → IsEdge (about (core self.now)) (Has (core self.now)) whole part }
    {
        match self.node(whole) {
            Node::And(a, b) => a == part || b == part,
            _ => false,
        }
    }

    /// Whether the one is the other in some role.
    pub fn is_in_role(&self, base: u16, whole: u16) -> bool
        requires ready { IsReady (core self.now) }
        requires whole_in { IsNumber (core self.now) whole }
        ensures { IsTrue result → IsEdge (about (core self.now)) (Has (core self.now)) base whole }
    {
        match self.node(whole) {
            Node::AsRole(a, _) => a == base,
            _ => false,
        }
    }
}
