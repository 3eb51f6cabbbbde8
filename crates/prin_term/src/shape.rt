//! Sizes, equality, parts and copies of terms.

ghost use Rattle.std.specs.Prelude.{◌≡◌, ◌↔◌, ◌+◌, ◌-◌, ◌≤◌, IsTrue, IfOk, IfErr};
ghost use Rattle.std.specs.Prelude.{Some, slice_get};
ghost use Rattle.std.specs.Option.{SomeIff, option_map};
ghost use Rattle.prin_term.specs.Principal.{node_count, depth, subterms};
ghost use Rattle.prin_term.specs.View.{principal};

use crate::term::Term;
use std::alloc::{AllocError, Global};

impl Term {
    /// Whether the term has at most so many nodes and is at most so many levels deep.
    pub fn fits(&self, nodes: u32, levels: u32) -> bool
        ensures { IsTrue result ↔ ((node_count (principal self.now) ≤ nodes)
            × (depth (principal self.now) ≤ levels)) }
    {
        self.nodes_left(nodes, levels).is_some()
    }

    // How many nodes of the limit are left, if the term is within both limits.
    #[tactic(auto, using(crate::proofs::Terms::some_nodes, crate::proofs::Terms::some_depth))]
    fn nodes_left(&self, nodes: u32, levels: u32) -> Option<u32>
        ensures { SomeIff result ((node_count (principal self.now) ≤ nodes)
            × (depth (principal self.now) ≤ levels)) (nodes - node_count (principal self.now)) }
    {
        if nodes == 0 || levels == 0 {
            return None;
        }
        match self {
            Term::Key(_) | Term::Name(_) => Some(nodes - 1),
            Term::And(left, right) | Term::Quote(left, right) | Term::For(left, right) => {
                let nodes = left.nodes_left(nodes - 1, levels - 1)?;
                right.nodes_left(nodes, levels - 1)
            }
            Term::AsRole(base, _) => base.nodes_left(nodes - 1, levels - 1),
        }
    }

    /// Whether the two are one term.
    pub fn same(&self, other: &Term) -> bool
        ensures { IsTrue result ↔ (principal self.now ≡ principal other.now) }
    {
        match (self, other) {
            (Term::Key(a), Term::Key(b)) => *a == *b,
            (Term::Name(a), Term::Name(b)) => *a == *b,
            (Term::And(a, b), Term::And(c, d)) => a.same(c) && b.same(d),
            (Term::Quote(a, b), Term::Quote(c, d)) => a.same(c) && b.same(d),
            (Term::For(a, b), Term::For(c, d)) => a.same(c) && b.same(d),
            (Term::AsRole(a, r), Term::AsRole(b, s)) => *r == *s && a.same(b),
            _ => false,
        }
    }

    /// The subterm at a place in pre-order; none where there are not more nodes than that.
    pub fn part(&self, place: u8) -> Option<&Term>
        ensures { option_map (λ t. principal t.now) result
            ≡ slice_get (subterms (principal self.now)) place }
    {
        match self.part_from(place) {
            Ok(part) => Some(part),
            Err(_) => None,
        }
    }

    // The subterm at the place, or the place counted from behind the term.
    fn part_from(&self, place: u8) -> Result<&Term, u8>
        ensures found { IfOk result
            (λ t. slice_get (subterms (principal self.now)) place ≡ Some (principal t.now)) }
        ensures behind { IfErr result
            (λ left. left + node_count (principal self.now) ≡ place) }
    {
        if place == 0 {
            return Ok(self);
        }
        match self {
            Term::Key(_) | Term::Name(_) => Err(place - 1),
            Term::And(left, right) | Term::Quote(left, right) | Term::For(left, right) => {
                match left.part_from(place - 1) {
                    Ok(part) => Ok(part),
                    Err(place) => right.part_from(place),
                }
            }
            Term::AsRole(base, _) => base.part_from(place - 1),
        }
    }

    /// An equal term of its own.
    pub fn copy(&self, alloc: Global) -> Result<Term, AllocError>
        ensures { IfOk result (λ t. principal t ≡ principal self.now) }
    {
        match self {
            Term::Key(key) => Ok(Term::Key(*key)),
            Term::Name(name) => Ok(Term::Name(*name)),
            Term::And(left, right) => Ok(Term::And(
                Box::new(alloc, left.copy(alloc)?)?,
                Box::new(alloc, right.copy(alloc)?)?,
            )),
            Term::Quote(left, right) => Ok(Term::Quote(
                Box::new(alloc, left.copy(alloc)?)?,
                Box::new(alloc, right.copy(alloc)?)?,
            )),
            Term::AsRole(base, role) => Ok(Term::AsRole(
                Box::new(alloc, base.copy(alloc)?)?,
                *role,
            )),
            Term::For(left, right) => Ok(Term::For(
                Box::new(alloc, left.copy(alloc)?)?,
                Box::new(alloc, right.copy(alloc)?)?,
            )),
        }
    }
}
