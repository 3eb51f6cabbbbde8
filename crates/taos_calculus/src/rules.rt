//! What each rule takes for a fact, by the numbers of a table: one function for each rule.

ghost use Rattle.std.specs.Prelude.{◌≡◌, ◌↔◌, IsTrue, Some};
ghost use Rattle.taos_calculus.specs.Premises.{IsSpeaks, IsSays, Chains, IsLeftOf, IsRightOf};
ghost use Rattle.taos_calculus.specs.Premises.{ReachBoth, Quotes, ActsFor, IsRoleOf, UnderRole};
ghost use Rattle.taos_calculus.specs.Premises.{IsAnchored, Lifts, JoinIn, HandsOff, Delegates};

use crate::line::{Fact, Node};
use prin_term::Anchor;

fn is_node(found: Option<Node>, node: Node) -> bool
    ensures { IsTrue result ↔ (found ≡ Some node) }
{
    match found {
        Some(other) => other == node,
        None => false,
    }
}

fn is_fact(found: Option<Fact>, fact: Fact) -> bool
    ensures { IsTrue result ↔ (found ≡ Some fact) }
{
    match found {
        Some(other) => other == fact,
        None => false,
    }
}

fn speaks(found: Option<Fact>, left: u16, right: u16) -> bool
    ensures { IsTrue result ↔ IsSpeaks found left right }
{
    is_fact(found, Fact::Speaks { left, right })
}

fn says(found: Option<Fact>, who: u16, left: u16, right: u16) -> bool
    ensures { IsTrue result ↔ IsSays found who left right }
{
    is_fact(found, Fact::Says { who, left, right })
}

pub(crate) fn chains(first: Option<Fact>, second: Option<Fact>, left: u16, right: u16) -> bool
    ensures { IsTrue result ↔ Chains first second left right }
{
    match second {
        Some(
            Fact::Speaks {
                left: middle,
                right: end,
            },
        ) => speaks(first, left, middle) && end == right,
        _ => false,
    }
}

pub(crate) fn is_left_of(whole: Option<Node>, part: u16) -> bool
    ensures { IsTrue result ↔ IsLeftOf whole part }
{
    match whole {
        Some(Node::And(a, _)) => a == part,
        _ => false,
    }
}

pub(crate) fn is_right_of(whole: Option<Node>, part: u16) -> bool
    ensures { IsTrue result ↔ IsRightOf whole part }
{
    match whole {
        Some(Node::And(_, b)) => b == part,
        _ => false,
    }
}

pub(crate) fn reach_both(
    whole: Option<Node>,
    first: Option<Fact>,
    second: Option<Fact>,
    left: u16,
) -> bool
    ensures { IsTrue result ↔ ReachBoth whole first second left }
{
    match whole {
        Some(Node::And(a, b)) => speaks(first, left, a) && speaks(second, left, b),
        _ => false,
    }
}

pub(crate) fn quotes(
    from: Option<Node>,
    to: Option<Node>,
    first: Option<Fact>,
    second: Option<Fact>,
) -> bool
    ensures { IsTrue result ↔ Quotes from to first second }
{
    match from {
        Some(Node::Quote(a, b)) => match to {
            Some(Node::Quote(c, d)) => speaks(first, a, c) && speaks(second, b, d),
            _ => false,
        },
        _ => false,
    }
}

pub(crate) fn acts_for(
    from: Option<Node>,
    to: Option<Node>,
    first: Option<Fact>,
    second: Option<Fact>,
) -> bool
    ensures { IsTrue result ↔ ActsFor from to first second }
{
    match from {
        Some(Node::For(a, b)) => match to {
            Some(Node::For(x, y)) => speaks(first, a, x) && speaks(second, b, y),
            _ => false,
        },
        _ => false,
    }
}

pub(crate) fn is_role_of(role: Option<Node>, base: u16) -> bool
    ensures { IsTrue result ↔ IsRoleOf role base }
{
    match role {
        Some(Node::AsRole(a, _)) => a == base,
        _ => false,
    }
}

pub(crate) fn under_role(from: Option<Node>, to: Option<Node>, fact: Option<Fact>) -> bool
    ensures { IsTrue result ↔ UnderRole from to fact }
{
    match from {
        Some(Node::AsRole(a, role)) => match to {
            Some(Node::AsRole(b, other)) => role == other && speaks(fact, a, b),
            _ => false,
        },
        _ => false,
    }
}

pub(crate) fn is_anchored(anchor: Option<Anchor>, left: Option<Node>, right: Option<Node>) -> bool
    ensures { IsTrue result ↔ IsAnchored anchor left right }
{
    match anchor {
        Some(anchor) => {
            is_node(left, Node::Key(anchor.key)) && is_node(right, Node::Name(anchor.name))
        }
        None => false,
    }
}

pub(crate) fn lifts(
    said: Option<Fact>,
    spoken: Option<Fact>,
    who: u16,
    left: u16,
    right: u16,
) -> bool
    ensures { IsTrue result ↔ Lifts said spoken who left right }
{
    match said {
        Some(
            Fact::Says {
                who: speaker,
                left: l,
                right: r,
            },
        ) => l == left && r == right && speaks(spoken, speaker, who),
        _ => false,
    }
}

pub(crate) fn join_in(
    whole: Option<Node>,
    first: Option<Fact>,
    second: Option<Fact>,
    left: u16,
    right: u16,
) -> bool
    ensures { IsTrue result ↔ JoinIn whole first second left right }
{
    match whole {
        Some(Node::And(a, b)) => says(first, a, left, right) && says(second, b, left, right),
        _ => false,
    }
}

pub(crate) fn hands_off(said: Option<Fact>, left: u16, right: u16) -> bool
    ensures { IsTrue result ↔ HandsOff said left right }
{
    says(said, right, left, right)
}

pub(crate) fn delegates(
    from: Option<Node>,
    to: Option<Node>,
    said: Option<Fact>,
    left: u16,
    right: u16,
) -> bool
    ensures { IsTrue result ↔ Delegates from to said left right }
{
    match from {
        Some(Node::Quote(b, a)) => is_node(to, Node::For(b, a)) && says(said, a, left, right),
        _ => false,
    }
}
