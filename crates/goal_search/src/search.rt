//! A table of principals with its certificates, and rows of numbers that are filled on demand.

ghost use Rattle.std.specs.Prelude.{◌≤◌, ◌+◌, vec_capacity};
ghost use Rattle.taos_calculus.specs.declared.decide.TheConstants.{MAX_ANCHORS, MAX_CERTS};
ghost use Rattle.taos_calculus.specs.declared.proof.TheConstants.{MAX_NODES};

use crate::cells::Cells;
use crate::growth::{Growth, MAX_ROWS};
use crate::queue::Queue;
use prin_term::Anchor;
use std::alloc::{AllocError, Global};
use taos_calculus::{MAX_ANCHORS, MAX_CERTS, MAX_NODES, Node};
use term_pool::{Cited, Parents};

/// The reason of what a row begins with: its own number, or the speaker of a certificate.
pub const AT_ONCE: u16 = 1_296;

/// The reason of a conjunction both of whose parts are in the row.
pub const OF_BOTH: u16 = 1_297;

/// An anchor, by the numbers of its key and its name.
#[derive(Clone, Copy)]
pub struct Anchored {
    pub key: u16,
    pub name: u16,
}

/// The table, and its rows: that of a number has what it speaks for, that of a certificate, which
/// stands after all numbers, who says its statement.
#[derive(Drop)]
pub struct Search {
    pub nodes: Vec<Node>,
    pub anchors: Vec<Anchor>,
    /// The anchors whose key and name are in the table.
    pub links: Vec<Anchored>,
    pub cited: Vec<Cited>,
    pub cells: Cells,
    /// The rows that have to be finished.
    pub wanted: Vec<u16>,
    /// Which compounds have a number as an operand. Nothing rests on it.
    pub parents: Parents,
    /// What came into a row and was not followed yet. Nothing rests on it.
    pub queue: Queue,
    /// How rows grew. Nothing rests on it.
    pub growth: Growth,
    /// The compounds that may give more to the row that is worked on. Nothing rests on it.
    pub fresh: Queue,
    /// The compounds that this row lacks. Nothing rests on it.
    pub lacking: Queue,
    /// There is room for the largest question.
    ghost nodes_room: { MAX_NODES ≤ vec_capacity nodes },
    ghost anchors_room: { MAX_ANCHORS ≤ vec_capacity anchors },
    ghost links_room: { MAX_ANCHORS ≤ vec_capacity links },
    ghost cited_room: { MAX_CERTS ≤ vec_capacity cited },
    ghost wanted_room: { MAX_NODES + MAX_CERTS ≤ vec_capacity wanted },
}

impl Search {
    ghost use Rattle.std.specs.Prelude.{◌≡◌, ◌↔◌, ℕ, ◌<◌, [], ◌∷◌, ◌++◌, Some, IsTrue};
    ghost use Rattle.std.specs.Prelude.{All, Contains, slice_get, length};
    ghost use Rattle.taos_calculus.specs.Tables.{IsNodeTable, OperandsBelow};
    ghost use Rattle.term_pool.specs.Claims.{CitedIn};
    ghost use Rattle.goal_search.specs.Searching.{core, HasFollowed, IsReady, IsNumber, IsRow, IsSettled, Has};
    ghost use Rattle.goal_search.specs.Searching.{AreAnchored, about};

    /// Room for the largest question.
    pub fn reserve(alloc: Global) -> Result<Search, AllocError> {
        Ok(Search {
            nodes: Vec::with_capacity(alloc, MAX_NODES)?,
            anchors: Vec::with_capacity(alloc, MAX_ANCHORS)?,
            links: Vec::with_capacity(alloc, MAX_ANCHORS)?,
            cited: Vec::with_capacity(alloc, MAX_CERTS)?,
            cells: Cells::reserve(alloc)?,
            wanted: Vec::with_capacity(alloc, MAX_ROWS)?,
            parents: Parents::reserve(alloc)?,
            queue: Queue::reserve(alloc)?,
            growth: Growth::reserve(alloc)?,
            fresh: Queue::reserve(alloc)?,
            lacking: Queue::reserve(alloc)?,
        })
    }

    /// No row is begun, in the table that was taken in.
    pub fn restart(&mut self)
        requires table { IsNodeTable self.old.nodes.items }
        requires few_nodes { length self.old.nodes.items ≤ MAX_NODES }
        requires few_cited { length self.old.cited.items ≤ MAX_CERTS }
        requires cited_in { All (CitedIn (length self.old.nodes.items)) self.old.cited.items }
        requires few_anchors { length self.old.anchors.items ≤ MAX_ANCHORS }
        requires few_links { length self.old.links.items ≤ MAX_ANCHORS }
        requires anchored { AreAnchored self.old.nodes.items self.old.anchors.items
            self.old.links.items }
        requires none { self.old.wanted.items ≡ [] }
        ensures ready { IsReady (core self.new) }
        ensures about_is { about (core self.new) ≡ about (core self.old) }
        ensures none { self.new.wanted.items ≡ [] }
    {
        let count = self.nodes.len();
        let rows = count + self.cited.len();
        self.cells.restart(count, rows);
        self.growth.restart(rows);
        self.parents.restart(&self.nodes);
    }

    /// One certificate more. What is known stays known, and the rows of numbers that are wanted stay
    /// wanted.
    pub fn add_cert(&mut self, it: Cited)
        requires ready { IsReady (core self.old) }
        requires cited_in { CitedIn (length self.old.nodes.items) it }
        requires few { length self.old.cited.items < MAX_CERTS }
        ensures ready { IsReady (core self.new) }
        ensures nodes { self.new.nodes.items ≡ self.old.nodes.items }
        ensures anchors { self.new.anchors.items ≡ self.old.anchors.items }
        ensures cited { self.new.cited.items ≡ self.old.cited.items ++ it ∷ [] }
        ensures settled { IsSettled (core self.old) → HasFollowed (core self.old) it
            → IsSettled (core self.new) }
    {
        let count = self.nodes.len();
        self.wanted.retain(|row| (*row as usize) < count);
        self.cited.push(it).unwrap();
        self.cells.add_row();
        self.growth.add_row();
    }

    // Whether the row is one of a number, and has the right side of the certificate if it has the
    // left one.
    fn row_has_followed(&self, row: u16, it: Cited) -> bool
        requires ready { IsReady (core self.now) }
        requires row_in { IsRow (core self.now) row }
        requires cited_in { CitedIn (length self.now.nodes.items) it }
        ensures number { IsTrue result → row < length self.now.nodes.items }
        ensures followed { IsTrue result → Has (core self.now) row it.left
            → Has (core self.now) row it.right }
    {
        (row as usize) < self.nodes.len()
            && (!self.has(row as usize, it.left) || self.has(row as usize, it.right))
    }

    /// Whether the certificate gives the wanted rows nothing, and each of them is one of a number.
    pub fn has_followed(&self, it: Cited) -> bool
        requires ready { IsReady (core self.now) }
        requires cited_in { CitedIn (length self.now.nodes.items) it }
        ensures { IsTrue result → HasFollowed (core self.now) it }
    {
        for i in 0..self.wanted.len() {
            if !self.row_has_followed(self.wanted[i], it) {
                return false;
            }
        }
        true
    }

    pub fn node(&self, id: u16) -> Node
        requires ready { IsReady (core self.now) }
        requires id_in { IsNumber (core self.now) id }
        ensures stands { slice_get self.now.nodes.items id ≡ Some result }
        ensures operands { OperandsBelow (length self.now.nodes.items) result }
    {
        self.nodes[id as usize]
    }

    /// The certificate of this number.
    pub fn cite(&self, number: usize) -> Cited
        requires ready { IsReady (core self.now) }
        requires number_in { number < length self.now.cited.items }
        ensures stands { slice_get self.now.cited.items number ≡ Some result }
        ensures cited_in { CitedIn (length self.now.nodes.items) result }
    {
        self.cited[number]
    }

    /// The row of who says the statement of a certificate.
    pub fn statement_row(&self, number: usize) -> usize
        requires ready { IsReady (core self.now) }
        requires number_in { number < length self.now.cited.items }
        ensures row { result ≡ length self.now.nodes.items + number }
        ensures row_in { IsRow (core self.now) result }
    {
        self.nodes.len() + number
    }

    /// Whether the row has the number.
    pub fn has(&self, row: usize, number: u16) -> bool
        requires ready { IsReady (core self.now) }
        requires row_in { IsRow (core self.now) row }
        requires number_in { IsNumber (core self.now) number }
        ensures { IsTrue result ↔ Has (core self.now) row number }
    {
        self.cells.has(row, number as usize)
    }

    /// Whether the row is wanted.
    pub fn is_wanted(&self, row: u16) -> bool
        ensures { IsTrue result ↔ Contains self.now.wanted.items row }
    {
        for i in 0..self.wanted.len() {
            if self.wanted[i] == row {
                return true;
            }
        }
        false
    }
}
