//! Interned nodes, which are found by a hash.

ghost use Rattle.std.specs.Prelude.{◌≡◌, ℕ, ◌<◌, ◌≤◌, [], ◌∷◌, ◌++◌, IfOk, length};
ghost use Rattle.std.specs.Prelude.{◌↔◌, IsTrue, MatchOption, Some, slice_get, slice_index};
ghost use Rattle.prin_term.specs.Principal.{Principal};
ghost use Rattle.prin_term.specs.View.{principal};
ghost use Rattle.taos_calculus.specs.declared.proof.TheConstants.{MAX_NODES};
ghost use Rattle.taos_calculus.specs.Canonical.{post_order};
ghost use Rattle.taos_calculus.specs.Tables.{OperandsBelow, named, shape};
ghost use Rattle.term_pool.specs.Filing.{IsFiled, IsRegion, bucket_of, mark_of};
ghost use Rattle.term_pool.specs.Interning.{FindsNumber, FitsIn, TakesIn};

use crate::interning::pair_node;
use prin_term::Term;
use std::alloc::{AllocError, Global};
use taos_calculus::Node;

/// Nodes by their numbers. Each is in a bucket, by a hash of its own numbers, from whose head links
/// lead to all nodes of the bucket. A link is one more than a node's number, or 0.
#[derive(Drop)]
pub struct Region {
    pub nodes: Vec<Node>,
    /// For each node, the link to the one before it in its bucket.
    pub links: Vec<u16>,
    /// For each bucket, the link to its last node.
    pub heads: Vec<u16>,
    /// How many nodes there may be.
    pub room: u32,
}

// The number that a node is hashed by.
fn mark(node: Node) -> u64
    ensures { result ≡ mark_of node }
{
    match node {
        Node::Key(key) => key as u64 * 6,
        Node::Name(name) => name as u64 * 6 + 1,
        Node::And(a, b) => (a as u64 * 65_536 + b as u64) * 6 + 2,
        Node::Quote(a, b) => (a as u64 * 65_536 + b as u64) * 6 + 3,
        Node::AsRole(a, role) => (a as u64 * 4_294_967_296 + role as u64) * 6 + 4,
        Node::For(a, b) => (a as u64 * 65_536 + b as u64) * 6 + 5,
    }
}

// The bucket of a node.
fn bucket(node: Node, count: usize) -> usize
    requires { 0 < count }
    ensures bucket { result ≡ bucket_of count node }
    ensures within { result < count }
{
    (mark(node) % count as u64) as usize
}

// Whether the node stands at the number.
fn stands_at(nodes: &[Node], number: usize, node: Node) -> bool
    ensures { IsTrue result ↔ (slice_get nodes.now number ≡ Some node) }
{
    number < nodes.len() && nodes[number] == node
}

// The number of a node.
fn look(nodes: &[Node], links: &[u16], heads: &[u16], node: Node) -> Option<u16>
    requires filed { IsFiled nodes.now links.now heads.now }
    ensures { MatchOption result ((i : ℕ) → slice_get nodes.now i ≡ Some node → ⊥)
        (λ i. slice_get nodes.now i ≡ Some node) }
{
    let mut link = heads[bucket(node, heads.len())];
    while link > 0 {
        let k = (link - 1) as usize;
        if stands_at(nodes, k, node) {
            return Some(link - 1);
        }
        link = links[k];
    }
    None
}

// The heads when nothing is filed any more. Only those of the nodes are written.
fn forget(nodes: &[Node], links: &[u16], heads: &mut Vec<u16>)
    requires filed { IsFiled nodes.now links.now heads.old.items }
    ensures same_length { length heads.new.items ≡ length heads.old.items }
    ensures none { (bucket : ℕ) → bucket < length heads.old.items
        → slice_index heads.new.items bucket ≡ 0 }
{
    let count = heads.len();
    for i in 0..nodes.len() {
        let at = bucket(nodes[i], count);
        heads[at] = 0;
    }
}

impl Region {
    /// Room for so many nodes.
    pub fn reserve(alloc: Global, room: u32) -> Result<Region, AllocError>
        requires small { room ≤ MAX_NODES }
        ensures { IfOk result (λ r. IsRegion r × (r.nodes.items ≡ []) × (r.room ≡ room)) }
    {
        let nodes = Vec::with_capacity(alloc, room as usize)?;
        let links = Vec::with_capacity(alloc, room as usize)?;
        let heads = vec![in alloc; 0; room as usize * 2 + 1]?;
        Ok(Region {
            nodes,
            links,
            heads,
            room,
        })
    }

    /// The number of a node.
    pub fn number(&self, node: Node) -> Option<u16>
        requires region { IsRegion self.now }
        ensures { MatchOption result ((i : ℕ) → slice_get self.now.nodes.items i ≡ Some node → ⊥)
            (λ i. slice_get self.now.nodes.items i ≡ Some node) }
    {
        look(&self.nodes, &self.links, &self.heads, node)
    }

    // Puts a node that is not there behind the others.
    fn add(&mut self, node: Node)
        requires region { IsRegion self.old }
        requires new { (i : ℕ) → slice_get self.old.nodes.items i ≡ Some node → ⊥ }
        requires operands { OperandsBelow (length self.old.nodes.items) node }
        requires room { length self.old.nodes.items < self.old.room }
        ensures region { IsRegion self.new }
        ensures added { self.new.nodes.items ≡ self.old.nodes.items ++ node ∷ [] }
        ensures same_room { self.new.room ≡ self.old.room }
    {
        let at = bucket(node, self.heads.len());
        self.links.push(self.heads[at]).unwrap();
        self.nodes.push(node).unwrap();
        self.heads[at] = self.nodes.len() as u16;
    }

    /// The number of a node, which is put behind the others where it is not there.
    pub fn place(&mut self, node: Node) -> u16
        requires region { IsRegion self.old }
        requires operands { OperandsBelow (length self.old.nodes.items) node }
        requires fits { FitsIn self.old.room self.old.nodes.items
            (shape (named self.old.nodes.items) node ∷ []) }
        ensures region { IsRegion self.new }
        ensures taken { TakesIn self.old.nodes.items self.new.nodes.items
            (shape (named self.old.nodes.items) node ∷ [])
            (shape (named self.old.nodes.items) node) result }
        ensures same_room { self.new.room ≡ self.old.room }
    {
        match self.number(node) {
            Some(id) => id,
            None => {
                let id = self.nodes.len() as u16;
                self.add(node);
                id
            }
        }
    }

    /// The number of a term, which is put behind the others, with its parts, where it is not there.
    pub fn intern(&mut self, term: &Term) -> u16
        requires region { IsRegion self.old }
        requires fits { FitsIn self.old.room self.old.nodes.items
            (post_order (principal term.now)) }
        ensures region { IsRegion self.new }
        ensures taken { TakesIn self.old.nodes.items self.new.nodes.items
            (post_order (principal term.now)) (principal term.now) result }
        ensures same_room { self.new.room ≡ self.old.room }
    {
        match term {
            Term::Key(key) => self.place(Node::Key(*key)),
            Term::Name(name) => self.place(Node::Name(*name)),
            Term::And(left, right) | Term::Quote(left, right) | Term::For(left, right) => {
                let a = self.intern(left);
                let b = self.intern(right);
                self.place(pair_node(term, a, b))
            }
            Term::AsRole(base, role) => {
                let a = self.intern(base);
                self.place(Node::AsRole(a, *role))
            }
        }
    }

    /// The number of a term.
    pub fn find(&self, term: &Term) -> Option<u16>
        requires region { IsRegion self.now }
        ensures { FindsNumber self.now.nodes.items (principal term.now) result }
    {
        match term {
            Term::Key(key) => self.number(Node::Key(*key)),
            Term::Name(name) => self.number(Node::Name(*name)),
            Term::And(left, right) | Term::Quote(left, right) | Term::For(left, right) => {
                match self.find(left) {
                    Some(a) => match self.find(right) {
                        Some(b) => self.number(pair_node(term, a, b)),
                        None => None,
                    },
                    None => None,
                }
            }
            Term::AsRole(base, role) => match self.find(base) {
                Some(a) => self.number(Node::AsRole(a, *role)),
                None => None,
            },
        }
    }

    /// Nothing is there any more.
    pub fn clear(&mut self)
        requires region { IsRegion self.old }
        ensures region { IsRegion self.new }
        ensures none { self.new.nodes.items ≡ [] }
        ensures same_room { self.new.room ≡ self.old.room }
    {
        forget(&self.nodes, &self.links, &mut self.heads);
        self.nodes.clear();
        self.links.clear();
    }
}
