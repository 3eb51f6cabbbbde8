ghost use Rattle.std.specs.Prelude.{◌≡◌, ◌↔◌, IsSome, IfSome, IfOk};
ghost use Rattle.taos_calculus.specs.Tables.{parts_of};

use crate::canonical::{is_met_in_order, is_node_table};
use crate::line::{Line, Node};
use crate::nodes::node_is;
use prin_term::Term;
use std::alloc::{AllocError, Global};
use std::marker::Model;

/// How many nodes the table of a proof has at most.
pub const MAX_NODES: usize = 1_296;

/// How many lines a proof has at most.
pub const MAX_LINES: usize = 1_762_560;

/// Lines over the numbers of a table of principals. The table is the canonical one of the lines,
/// so no principal has two numbers, and lines over principals are one proof only. Whether a line
/// follows is not part of it.
#[derive(Drop)]
pub struct Proof {
    nodes: Vec<Node>,
    lines: Vec<Line>,
}

impl Model for Proof {
    ghost use Rattle.taos_calculus.specs.Tables.{Parts, parts_of};

    ghost Value = { Parts };

    ghost use Rattle.taos_calculus.specs.Limits.{IsProofParts};

    ghost view = { λ p. parts_of p.nodes.items p.lines.items };

    // The parts are within the limits, and their table is the canonical one of their lines.
    ghost invariant = { λ p. IsProofParts (parts_of p.nodes.items p.lines.items) };
}

impl Proof {
    ghost use Rattle.std.specs.Prelude.{◌<◌, IsTrue, length};
    ghost use Rattle.prin_term.specs.View.{principal};
    ghost use Rattle.taos_calculus.specs.Tables.{named};
    ghost use Rattle.taos_calculus.specs.Limits.{IsProofParts};

    /// The proof of these parts. Takes no memory.
    pub fn from_parts(nodes: Vec<Node>, lines: Vec<Line>) -> Option<Proof>
        ensures made { IsSome result ↔ IsProofParts (parts_of nodes.items lines.items) }
        ensures parts { IfSome result (λ p. p ≡ parts_of nodes.items lines.items) }
    {
        if nodes.len() > MAX_NODES || lines.len() > MAX_LINES {
            return None;
        }
        if !is_node_table(&nodes) {
            return None;
        }
        if !is_met_in_order(&nodes, &lines) {
            return None;
        }
        Some(Proof { nodes, lines })
    }

    /// An equal proof of its own.
    pub fn copy(&self, alloc: Global) -> Result<Proof, AllocError>
        ensures { IfOk result (λ p. p ≡ self.now) }
    {
        let nodes = Vec::from_slice(alloc, &self.nodes)?;
        let lines = Vec::from_slice(alloc, &self.lines)?;
        Ok(Proof { nodes, lines })
    }

    /// The principals by number: each node's operands stand before it.
    pub fn nodes(&self) -> &[Node]
        ensures value { result.now ≡ self.now.nodes }
        ensures kept { IsProofParts self.now }
    {
        &self.nodes
    }

    /// The lines in order, the conclusion last.
    pub fn lines(&self) -> &[Line]
        ensures value { result.now ≡ self.now.lines }
        ensures kept { IsProofParts self.now }
    {
        &self.lines
    }

    /// Whether the number is one of the table and stands for the term. Takes no memory.
    pub fn node_is(&self, id: u16, term: &Term) -> bool
        ensures { IsTrue result ↔ ((id < length self.now.nodes)
            × (named self.now.nodes id ≡ principal term.now)) }
    {
        let nodes = self.nodes();
        (id as usize) < nodes.len() && node_is(nodes, id, term)
    }
}
