//! Lines over the table of their own terms.

ghost use Rattle.std.specs.Prelude.{◌≡◌, ℕ, ◌<◌, ◌≤◌, ◌^◌, Some, IfOk};
ghost use Rattle.std.specs.Prelude.{slice_get, length, Contains, vec_capacity};
ghost use Rattle.prin_term.specs.Kind.{Kind};
ghost use Rattle.taos_calculus.specs.Canonical.{post_order};
ghost use Rattle.taos_calculus.specs.Tables.{IsNodeTable, IsBelow, named};
ghost use Rattle.term_pool.specs.Carrying.{AreCarried, CarriesFact, CarriesLines, FactFits};
ghost use Rattle.taos_calculus.specs.declared.line.Line.{Line};
ghost use Rattle.taos_calculus.specs.declared.proof.TheConstants.{MAX_NODES};
ghost use Rattle.taos_calculus.specs.Tidy.{cites_of};
ghost use Rattle.term_pool.specs.Citing.{HasPlace};
ghost use Rattle.term_pool.specs.Interning.{IsRoomy, Fits, TakesIn, node_pair};

use crate::citing::recite;
use crate::interning::place;
use std::alloc::{AllocError, Global};
use taos_calculus::{Fact, Line, MAX_NODES, Node};

// The node of two operands of the kind of a node.
fn pair_like(node: Node, a: u16, b: u16) -> Node
    ensures { (kind : Kind) (x y : ℕ) → node ≡ node_pair kind x y → result ≡ node_pair kind a b }
{
    match node {
        Node::And(_, _) => Node::And(a, b),
        Node::Quote(_, _) => Node::Quote(a, b),
        _ => Node::For(a, b),
    }
}

// The mark of a number that was not carried yet.
const NOT_YET: u16 = u16::MAX;

// The number in the new table of what has this number in the old one. `numbers` are those of the
// terms that were carried before.
fn carry(nodes: &[Node], new: &mut Vec<Node>, numbers: &mut Vec<u16>, id: u16) -> u16
    requires table { IsNodeTable nodes.now }
    requires id_in { id < length nodes.now }
    requires roomy { IsRoomy new.old.items (vec_capacity new.old) }
    requires fits { Fits new.old.items (post_order (named nodes.now id)) }
    requires known { AreCarried nodes.now new.old.items numbers.old.items }
    ensures taken { TakesIn new.old.items new.new.items (post_order (named nodes.now id))
        (named nodes.now id) result }
    ensures capacity { vec_capacity new.old ≤ vec_capacity new.new }
    ensures known { AreCarried nodes.now new.new.items numbers.new.items }
{
    let known = numbers[id as usize];
    if known != NOT_YET {
        return known;
    }
    let node = nodes[id as usize];
    match node {
        Node::Key(_) | Node::Name(_) => {
            let number = place(new, node);
            numbers[id as usize] = number;
            number
        }
        Node::And(a, b) | Node::Quote(a, b) | Node::For(a, b) => {
            let x = carry(nodes, new, numbers, a);
            let y = carry(nodes, new, numbers, b);
            let number = place(new, pair_like(node, x, y));
            numbers[id as usize] = number;
            number
        }
        Node::AsRole(a, role) => {
            let x = carry(nodes, new, numbers, a);
            let number = place(new, Node::AsRole(x, role));
            numbers[id as usize] = number;
            number
        }
    }
}

/// The fact by the numbers of the new table. `numbers` are those of the terms that were carried
/// before.
pub fn carry_fact(nodes: &[Node], new: &mut Vec<Node>, numbers: &mut Vec<u16>, fact: Fact) -> Fact
    requires table { IsNodeTable nodes.now }
    requires known { AreCarried nodes.now new.old.items numbers.old.items }
    requires below { IsBelow (length nodes.now) fact }
    requires roomy { IsRoomy new.old.items (vec_capacity new.old) }
    requires fits { FactFits nodes.now new.old.items fact }
    ensures carries { CarriesFact nodes.now new.old.items new.new.items fact result }
    ensures capacity { vec_capacity new.old ≤ vec_capacity new.new }
    ensures known { AreCarried nodes.now new.new.items numbers.new.items }
{
    match fact {
        Fact::Speaks { left, right } => {
            let a = carry(nodes, new, numbers, left);
            let b = carry(nodes, new, numbers, right);
            Fact::Speaks { left: a, right: b }
        }
        Fact::Says { who, left, right } => {
            let w = carry(nodes, new, numbers, who);
            let a = carry(nodes, new, numbers, left);
            let b = carry(nodes, new, numbers, right);
            Fact::Says {
                who: w,
                left: a,
                right: b,
            }
        }
    }
}

/// Lines with the table of their terms.
#[derive(Drop)]
pub struct Carried {
    pub nodes: Vec<Node>,
    pub lines: Vec<Line>,
}

/// The lines over the table of their own terms, with their certificates by the places in `used`.
/// There is no spare room in them, since proofs are kept.
pub fn carry_lines(
    alloc: Global,
    nodes: &[Node],
    lines: &[Line],
    used: &[u16],
) -> Result<Carried, AllocError>
    requires table { IsNodeTable nodes.now }
    requires few { length nodes.now ≤ MAX_NODES }
    requires few_used { length used.now < 2 ^ 16 }
    requires below { (i : ℕ) (l : Line) → slice_get lines.now i ≡ Some l
        → IsBelow (length nodes.now) l.fact }
    requires has { (i k : ℕ) (l : Line) → slice_get lines.now i ≡ Some l
        → Contains (cites_of l.step) k → HasPlace used.now k }
    ensures { IfOk result
        (λ r. CarriesLines nodes.now used.now lines.now r.nodes.items r.lines.items) }
{
    let mut new = Vec::with_capacity(alloc, MAX_NODES)?;
    let mut out = Vec::with_capacity(alloc, lines.len())?;
    let mut numbers = vec![in alloc; NOT_YET; nodes.len()]?;
    for i in 0..lines.len() {
        let fact = carry_fact(nodes, &mut new, &mut numbers, lines[i].fact);
        let step = recite(lines[i].step, used);
        out.push(Line { fact, step })?;
    }
    new.shrink_to_fit();
    Ok(Carried {
        nodes: new,
        lines: out,
    })
}
