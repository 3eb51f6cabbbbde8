//! Which terms the numbers of a table stand for.

ghost use Rattle.std.specs.Prelude.{◌≡◌, ◌↔◌, ◌<◌, IsTrue, length};
ghost use Rattle.prin_term.specs.View.{principal};
ghost use Rattle.taos_calculus.specs.Tables.{IsNodeTable, OperandsBelow, named, shape};

use crate::line::Node;
use prin_term::Term;

// The node of a number.
fn node_at(nodes: &[Node], id: u16) -> Node
    requires table { IsNodeTable nodes.now }
    requires id_in { id < length nodes.now }
    ensures reads { named nodes.now id ≡ shape (named nodes.now) result }
    ensures operands { OperandsBelow (length nodes.now) result }
{
    nodes[id as usize]
}

/// Whether a number of a table stands for the term. Takes no memory.
pub fn node_is(nodes: &[Node], id: u16, term: &Term) -> bool
    requires table { IsNodeTable nodes.now }
    requires id_in { id < length nodes.now }
    ensures { IsTrue result ↔ (named nodes.now id ≡ principal term.now) }
{
    match term {
        Term::Key(k) => match node_at(nodes, id) {
            Node::Key(n) => *k == n,
            _ => false,
        },
        Term::Name(k) => match node_at(nodes, id) {
            Node::Name(n) => *k == n,
            _ => false,
        },
        Term::And(a, b) => match node_at(nodes, id) {
            Node::And(x, y) => node_is(nodes, x, a) && node_is(nodes, y, b),
            _ => false,
        },
        Term::Quote(a, b) => match node_at(nodes, id) {
            Node::Quote(x, y) => node_is(nodes, x, a) && node_is(nodes, y, b),
            _ => false,
        },
        Term::AsRole(a, r) => match node_at(nodes, id) {
            Node::AsRole(x, s) => *r == s && node_is(nodes, x, a),
            _ => false,
        },
        Term::For(a, b) => match node_at(nodes, id) {
            Node::For(x, y) => node_is(nodes, x, a) && node_is(nodes, y, b),
            _ => false,
        },
    }
}
