//! Which compounds have a node as an operand. Nothing rests on it: it tells where to look.

ghost use Rattle.std.specs.Prelude.{◌*◌, ◌≤◌, length, vec_capacity};
ghost use Rattle.taos_calculus.specs.declared.proof.TheConstants.{MAX_NODES};

use std::alloc::{AllocError, Global};
use taos_calculus::{MAX_NODES, Node};

/// For each node a chain of its places as an operand. A place is twice the compound's number, and
/// one more for the right operand; it is kept as one more, and 0 ends a chain.
#[derive(Drop)]
pub struct Parents {
    first: Vec<u16>,
    next: Vec<u16>,
    /// There is room for the largest table.
    ghost first_room: { MAX_NODES ≤ vec_capacity first },
    ghost next_room: { 2 * MAX_NODES ≤ vec_capacity next },
}

impl Parents {
    /// Room for the largest table.
    pub fn reserve(alloc: Global) -> Result<Parents, AllocError> {
        Ok(Parents {
            first: Vec::with_capacity(alloc, MAX_NODES)?,
            next: Vec::with_capacity(alloc, 2 * MAX_NODES)?,
        })
    }

    // Puts a place in front of the operand's chain.
    fn link(&mut self, operand: u16, place: usize) {
        let operand = operand as usize;
        if place >= 65_535 || place >= self.next.len() || operand >= self.first.len() {
            return;
        }
        self.next[place] = self.first[operand];
        self.first[operand] = place as u16 + 1;
    }

    /// The compounds of these nodes. Takes no memory.
    pub fn restart(&mut self, nodes: &[Node])
        requires { length nodes.now ≤ MAX_NODES }
    {
        self.first.clear();
        self.next.clear();
        self.first.resize(nodes.len(), 0).unwrap();
        self.next.resize(2 * nodes.len(), 0).unwrap();
        for i in 0..nodes.len() {
            let place = i.wrapping_mul(2);
            match nodes[i] {
                Node::Key(_) | Node::Name(_) => {}
                Node::And(a, b) | Node::Quote(a, b) | Node::For(a, b) => {
                    self.link(a, place);
                    self.link(b, place.wrapping_add(1));
                }
                Node::AsRole(a, _) => self.link(a, place),
            }
        }
    }

    /// The head of a node's chain.
    pub fn first(&self, operand: u16) -> u16 {
        match self.first.get(operand as usize) {
            Some(first) => *first,
            None => 0,
        }
    }

    /// What follows in a chain.
    pub fn next(&self, link: u16) -> u16 {
        match self.next.get((link as usize).saturating_sub(1)) {
            Some(next) => *next,
            None => 0,
        }
    }

    /// How many links there may be.
    pub fn count(&self) -> usize {
        self.next.len()
    }
}

/// The compound of a link.
pub fn compound(link: u16) -> u16 {
    link.saturating_sub(1) / 2
}
