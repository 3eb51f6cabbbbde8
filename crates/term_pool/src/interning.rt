//! A term among the nodes of a table.

ghost use Rattle.std.specs.Prelude.{◌≡◌, ℕ, ◌<◌, ◌≤◌, ◌^◌, [], ◌∷◌, length};
ghost use Rattle.std.specs.Prelude.{MatchOption, Some, slice_get, vec_capacity};
ghost use Rattle.prin_term.specs.Kind.{Kind, pair};
ghost use Rattle.prin_term.specs.Principal.{Principal};
ghost use Rattle.prin_term.specs.View.{principal};
ghost use Rattle.taos_calculus.specs.declared.proof.TheConstants.{MAX_NODES};
ghost use Rattle.taos_calculus.specs.Canonical.{post_order};
ghost use Rattle.stmt_codec.specs.Distinct.{met};
ghost use Rattle.taos_calculus.specs.Tables.{IsNodeTable, OperandsBelow};
ghost use Rattle.taos_calculus.specs.Tables.{named, principals_of, shape};
ghost use Rattle.term_pool.specs.Interning.{IsRoomy, TakesIn, Fits, node_pair};

use prin_term::Term;
use taos_calculus::Node;

/// The number of a node.
pub fn find(nodes: &[Node], node: Node) -> Option<usize>
    ensures { MatchOption result ((i : ℕ) → slice_get nodes.now i ≡ Some node → ⊥)
        (λ i. slice_get nodes.now i ≡ Some node) }
{
    for i in 0..nodes.len() {
        if nodes[i] == node {
            return Some(i);
        }
    }
    None
}

/// The number of a node, which is put behind the others where it is not there.
pub fn place(nodes: &mut Vec<Node>, node: Node) -> u16
    requires roomy { IsRoomy nodes.old.items (vec_capacity nodes.old) }
    requires operands { OperandsBelow (length nodes.old.items) node }
    requires fits { Fits nodes.old.items (shape (named nodes.old.items) node ∷ []) }
    ensures taken { TakesIn nodes.old.items nodes.new.items
        (shape (named nodes.old.items) node ∷ []) (shape (named nodes.old.items) node) result }
    ensures capacity { vec_capacity nodes.old ≤ vec_capacity nodes.new }
{
    match find(nodes, node) {
        Some(i) => i as u16,
        None => {
            nodes.push(node).unwrap();
            (nodes.len() - 1) as u16
        }
    }
}

/// The node of a compound of two, of the kind of a term.
pub fn pair_node(term: &Term, a: u16, b: u16) -> Node
    ensures { (kind : Kind) (p q : Principal) → principal term.now ≡ pair kind p q
        → result ≡ node_pair kind a b }
{
    match term {
        Term::And(_, _) => Node::And(a, b),
        Term::Quote(_, _) => Node::Quote(a, b),
        _ => Node::For(a, b),
    }
}

/// The number of a term, which is put behind the others, with its parts, where it is not there.
pub fn intern(nodes: &mut Vec<Node>, term: &Term) -> u16
    requires roomy { IsRoomy nodes.old.items (vec_capacity nodes.old) }
    requires fits { Fits nodes.old.items (post_order (principal term.now)) }
    ensures taken { TakesIn nodes.old.items nodes.new.items (post_order (principal term.now))
        (principal term.now) result }
    ensures capacity { vec_capacity nodes.old ≤ vec_capacity nodes.new }
{
    match term {
        Term::Key(key) => place(nodes, Node::Key(*key)),
        Term::Name(name) => place(nodes, Node::Name(*name)),
        Term::And(left, right) | Term::Quote(left, right) | Term::For(left, right) => {
            let a = intern(nodes, left);
            let b = intern(nodes, right);
            place(nodes, pair_node(term, a, b))
        }
        Term::AsRole(base, role) => {
            let a = intern(nodes, base);
            place(nodes, Node::AsRole(a, *role))
        }
    }
}
