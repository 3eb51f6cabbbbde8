//! A pool of terms with numbers.

ghost use Rattle.std.specs.Prelude.{◌≡◌, ℕ, ◌+◌, ◌<◌, ◌≤◌, [], IfOk, MatchOption, Some, length};
ghost use Rattle.std.specs.Prelude.{slice_get};
ghost use Rattle.prin_term.specs.View.{principal};
ghost use Rattle.taos_calculus.specs.declared.proof.TheConstants.{MAX_NODES};
ghost use Rattle.taos_calculus.specs.Tables.{IsNodeTable, principals_of};
ghost use Rattle.term_pool.specs.Pool.{HasNumber, HasRoomFor, Interns, IsNodeAt};

use crate::region::Region;
use prin_term::Term;
use std::alloc::{AllocError, Global};
use std::marker::Model;
use taos_calculus::Node;

/// Terms, each once, by numbers from 0 on: two terms have one number exactly where they are equal.
/// A contract sees them as principals, each at its number, and the room for them, which `reserve`
/// takes. No other call takes memory.
#[derive(Drop)]
pub struct Pool {
    region: Region,
}

impl Model for Pool {
    ghost use Rattle.std.specs.Coded.{codes};
    ghost use Rattle.prin_term.specs.Codes.{principal_code};
    ghost use Rattle.term_pool.specs.Filing.{IsRegion};
    ghost use Rattle.term_pool.specs.Pool.{Pooled, pool_of};

    ghost Value = { Pooled };

    ghost coded = { Prim.hlevel (codes, principal_code) };

    ghost view = { λ p. pool_of p.region };

    ghost invariant = { λ p. IsRegion p.region };
}

impl Pool {
    /// Room for so many terms.
    pub fn reserve(alloc: Global, nodes: u32) -> Result<Pool, AllocError>
        requires some { 1 ≤ nodes }
        requires small { nodes ≤ MAX_NODES }
        ensures { IfOk result (λ p. p ≡ record { terms = []; room = nodes }) }
    {
        Ok(Pool {
            region: Region::reserve(alloc, nodes)?,
        })
    }

    /// The number of a term. Each part of it that is not there gets the next number, operands
    /// first.
    pub fn intern(&mut self, term: &Term) -> u16
        requires { HasRoomFor self.old (principal term.now) }
        ensures { Interns self.old self.new (principal term.now) result }
    {
        self.region.intern(term)
    }

    /// The number of a term that is there.
    pub fn find(&self, term: &Term) -> Option<u16>
        ensures { MatchOption result
            ((i : ℕ) → slice_get self.now.terms i ≡ Some (principal term.now) → ⊥)
            (HasNumber self.now (principal term.now)) }
    {
        self.region.find(term)
    }

    /// What stands at a number, by the numbers of its operands.
    pub fn node(&self, id: u16) -> Node
        requires { id < length self.now.terms }
        ensures { IsNodeAt self.now id result }
    {
        self.region.nodes[id as usize]
    }

    /// What stands at each number.
    pub fn nodes(&self) -> &[Node]
        ensures table { IsNodeTable result.now }
        ensures terms { principals_of result.now ≡ self.now.terms }
    {
        &self.region.nodes
    }

    /// How many terms there is room for.
    pub fn spare(&self) -> u32
        ensures { result + length self.now.terms ≡ self.now.room }
    {
        self.region.room - self.region.nodes.len() as u32
    }

    /// Nothing is there any more, and all room is spare.
    pub fn reset(&mut self)
        ensures { self.new ≡ record { terms = []; room = self.old.room } }
    {
        self.region.clear();
    }
}
