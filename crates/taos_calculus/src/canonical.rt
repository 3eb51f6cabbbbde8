ghost use Rattle.std.specs.Prelude.{◌≡◌, ◌↔◌, ◌<◌, ◌≤◌, ◌^◌, ◌+◌, ◌∷◌, [], IsTrue, IfSome};
ghost use Rattle.std.specs.Prelude.{MatchOption, SomeIff, slice_get, length, max, Contains};
ghost use Rattle.taos_calculus.specs.Tables.{IsNodeTable, OperandsBelow, parts_of};
ghost use Rattle.taos_calculus.specs.Canonical.{IsCanonical};
ghost use Rattle.taos_calculus.specs.Walking.{IsPlaced, Reaches, Strays, numbers_in};

use crate::line::{Fact, Line, Node};

// Whether the operands are numbers below n.
fn has_operands_below(node: Node, n: usize) -> bool
    ensures { IsTrue result ↔ OperandsBelow n node }
{
    match node {
        Node::Key(_) | Node::Name(_) => true,
        Node::And(a, b) | Node::Quote(a, b) | Node::For(a, b) => {
            (a as usize) < n && (b as usize) < n
        }
        Node::AsRole(a, _) => (a as usize) < n,
    }
}

fn contains(nodes: &[Node], node: Node) -> bool
    ensures { IsTrue result ↔ Contains nodes.now node }
{
    nodes.contains(&node)
}

// Whether the node of that number has its operands before it, and its like nowhere before it.
fn is_placed(nodes: &[Node], i: usize) -> bool
    requires { i < length nodes.now }
    ensures { IfSome (slice_get nodes.now i) (λ node. IsTrue result ↔ IsPlaced nodes.now i node) }
{
    has_operands_below(nodes[i], i) && !contains(&nodes[..i], nodes[i])
}

// Whether operands come first and no node comes twice.
pub(crate) fn is_node_table(nodes: &[Node]) -> bool
    ensures { IsTrue result ↔ IsNodeTable nodes.now }
{
    for i in 0..nodes.len() {
        if !is_placed(nodes, i) {
            return false;
        }
    }
    true
}

// Whether lines that are gone through in order come to the numbers of the table one after another.
pub(crate) fn is_met_in_order(nodes: &[Node], lines: &[Line]) -> bool
    requires table { IsNodeTable nodes.now }
    requires fits { length nodes.now < 2 ^ 16 }
    ensures { IsTrue result ↔ IsCanonical (parts_of nodes.now lines.now) }
{
    let mut due = 0;
    for line in lines {
        match after_fact(nodes, line.fact, due) {
            Some(next) => due = next,
            None => return false,
        }
    }
    due as usize == nodes.len()
}

// The number due after the principals of a fact, where `due` is due before them.
fn after_fact(nodes: &[Node], fact: Fact, due: u16) -> Option<u16>
    requires table { IsNodeTable nodes.now }
    requires fits { length nodes.now < 2 ^ 16 }
    requires due_in { due ≤ length nodes.now }
    ensures { MatchOption result (Strays nodes.now due (numbers_in fact))
        (Reaches nodes.now due (numbers_in fact)) }
{
    match fact {
        Fact::Speaks { left, right } => {
            let next = after_term(nodes, left, due)?;
            after_term(nodes, right, next)
        }
        Fact::Says { who, left, right } => {
            let next = after_term(nodes, who, due)?;
            let later = after_term(nodes, left, next)?;
            after_term(nodes, right, later)
        }
    }
}

// The number due after a principal of that number, if there is one.
fn after_term(nodes: &[Node], id: u16, due: u16) -> Option<u16>
    requires table { IsNodeTable nodes.now }
    requires fits { length nodes.now < 2 ^ 16 }
    requires due_in { due ≤ length nodes.now }
    ensures { MatchOption result (Strays nodes.now due (id ∷ []))
        (Reaches nodes.now due (id ∷ [])) }
{
    if id as usize >= nodes.len() {
        return None;
    }
    after(nodes, id, due)
}

// Below the number due all is met; the number that is due has its operands met first.
fn after(nodes: &[Node], id: u16, due: u16) -> Option<u16>
    requires table { IsNodeTable nodes.now }
    requires fits { length nodes.now < 2 ^ 16 }
    requires id_in { id < length nodes.now }
    requires due_in { due ≤ length nodes.now }
    ensures bounded { IfSome result (λ k. k ≤ max due (id + 1)) }
    ensures reached { MatchOption result (Strays nodes.now due (id ∷ []))
        (Reaches nodes.now due (id ∷ [])) }
{
    if id < due {
        return Some(due);
    }
    let node = nodes[id as usize];
    match node {
        Node::Key(_) | Node::Name(_) => if_due(id, due),
        Node::And(a, b) | Node::Quote(a, b) | Node::For(a, b) => {
            let next = after(nodes, a, due)?;
            let last = after(nodes, b, next)?;
            if_due(id, last)
        }
        Node::AsRole(a, _) => {
            let next = after(nodes, a, due)?;
            if_due(id, next)
        }
    }
}

// The number after this one, where it is the one due.
fn if_due(id: u16, due: u16) -> Option<u16>
    requires { id + 1 < 2 ^ 16 }
    ensures { SomeIff result (id ≡ due) (id + 1) }
{
    if id == due { Some(id + 1) } else { None }
}
