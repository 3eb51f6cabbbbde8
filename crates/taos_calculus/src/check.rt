//! Checking a proof against anchors and certificates.

ghost use Rattle.std.specs.Prelude.{◌≡◌, ◌≢◌, ◌↔◌, ◌<◌, ◌≤◌, [], ℕ, List, Some, IsOk};
ghost use Rattle.std.specs.Prelude.{IsTrue, MatchOption, slice_get, take, length, map, All};
ghost use Rattle.prin_term.specs.declared.term.Anchor.{Anchor};
ghost use Rattle.prin_term.specs.Principal.{Principal};
ghost use Rattle.taos_calculus.specs.declared.line.Fact.{Fact};
ghost use Rattle.taos_calculus.specs.Rules as rules;
ghost use Rattle.taos_calculus.specs.Rules.{Claim, SpeaksFor, Follows, EachFollows, Proves};
ghost use Rattle.taos_calculus.specs.Tables.{IsNodeTable, IsBelow, named, parts_of, lines_of};
ghost use Rattle.taos_calculus.specs.Tidy.{facts};
ghost use Rattle.taos_calculus.specs.Numbered.{Gives, facts_at, last_fact_at};
ghost use Rattle.taos_calculus.specs.Premises.{IsClaimed, Asks};
ghost use Rattle.taos_calculus.specs.Checking.{IsChecked, said_by};

use crate::line::{Fact, Line, Node, Step};
use crate::nodes::node_is;
use crate::proof::Proof;
use crate::rules::{
    acts_for, chains, delegates, hands_off, is_anchored, is_left_of, is_right_of, is_role_of,
    join_in, lifts, quotes, reach_both, under_role,
};
use prin_term::Anchor;
use std::sync::Arc;
use stmt_codec::Cert;

/// What a proof proves: the one number speaks for the other.
#[derive(Clone, Copy, PartialEq, Eq)]
pub struct Conclusion {
    pub left: u16,
    pub right: u16,
}

/// The number of the first line that does not follow. Where all follow and conclude nothing, it
/// is the number of lines.
#[derive(Clone, Copy, PartialEq, Eq)]
pub struct BadLine {
    pub line: u32,
}

fn fact_at(lines: &[Line], i: u32) -> Option<Fact>
    ensures { result ≡ slice_get (facts_at lines.now) i }
{
    match lines.get(i as usize) {
        Some(line) => Some(line.fact),
        None => None,
    }
}

fn node_at(nodes: &[Node], id: u16) -> Option<Node>
    ensures { result ≡ slice_get nodes.now id }
{
    nodes.get(id as usize).copied()
}

fn anchor_at(anchors: &[Anchor], index: u16) -> Option<Anchor>
    ensures { result ≡ slice_get anchors.now index }
{
    anchors.get(index as usize).copied()
}

// Whether the step gives that the one speaks for the other, whatever certificates say.
fn gives_speaks(
    anchors: &[Anchor],
    nodes: &[Node],
    earlier: &[Line],
    left: u16,
    right: u16,
    step: Step,
) -> bool
    ensures { (claims : List Claim) → IsTrue result ↔ Asks nodes.now anchors.now claims
        (facts_at earlier.now) (Fact.Speaks left right) step }
{
    let from = node_at(nodes, left);
    let to = node_at(nodes, right);
    match step {
        Step::Same => left == right,
        Step::Chain { first, second } => chains(
            fact_at(earlier, first),
            fact_at(earlier, second),
            left,
            right,
        ),
        Step::Left => is_left_of(from, right),
        Step::Right => is_right_of(from, right),
        Step::Both { first, second } => {
            reach_both(to, fact_at(earlier, first), fact_at(earlier, second), left)
        }
        Step::Quote { first, second } => {
            quotes(from, to, fact_at(earlier, first), fact_at(earlier, second))
        }
        Step::For { first, second } => {
            acts_for(from, to, fact_at(earlier, first), fact_at(earlier, second))
        }
        Step::Role => is_role_of(to, left),
        Step::RoleUnder { first } => under_role(from, to, fact_at(earlier, first)),
        Step::Anchor { index } => is_anchored(anchor_at(anchors, index), from, to),
        Step::HandOff { says } => hands_off(fact_at(earlier, says), left, right),
        Step::Delegate { says } => delegates(from, to, fact_at(earlier, says), left, right),
        Step::Said { .. } | Step::Lift { .. } | Step::Join { .. } => false,
    }
}

// Whether the certificate says it.
fn is_claimed(
    cites: &[Arc<Cert>],
    cite: u16,
    nodes: &[Node],
    who: u16,
    left: u16,
    right: u16,
) -> bool
    requires table { IsNodeTable nodes.now }
    requires below { IsBelow (length nodes.now) (Fact.Says who left right) }
    ensures { IsTrue result ↔ IsClaimed (named nodes.now) (slice_get (said_by cites.now) cite)
        who left right }
{
    match cites.get(cite as usize) {
        Some(cert) => {
            node_is(nodes, who, &cert.speaker)
                && node_is(nodes, left, &cert.body.statement.left)
                && node_is(nodes, right, &cert.body.statement.right)
        }
        None => false,
    }
}

// Whether the step gives that somebody says it.
fn gives_says(
    cites: &[Arc<Cert>],
    nodes: &[Node],
    earlier: &[Line],
    fact: (u16, u16, u16),
    step: Step,
) -> bool
    requires table { IsNodeTable nodes.now }
    requires below { IsBelow (length nodes.now) (Fact.Says fact.0 fact.1 fact.2) }
    ensures { (anchors : List Anchor) → IsTrue result ↔ Asks nodes.now anchors
        (said_by cites.now) (facts_at earlier.now) (Fact.Says fact.0 fact.1 fact.2) step }
{
    let (who, left, right) = fact;
    match step {
        Step::Said { cite } => is_claimed(cites, cite, nodes, who, left, right),
        Step::Lift { says, speaks } => lifts(
            fact_at(earlier, says),
            fact_at(earlier, speaks),
            who,
            left,
            right,
        ),
        Step::Join { first, second } => join_in(
            node_at(nodes, who),
            fact_at(earlier, first),
            fact_at(earlier, second),
            left,
            right,
        ),
        _ => false,
    }
}

// Whether the line's step gives its fact.
fn is_given(
    anchors: &[Anchor],
    cites: &[Arc<Cert>],
    nodes: &[Node],
    earlier: &[Line],
    line: Line,
) -> bool
    requires table { IsNodeTable nodes.now }
    requires below { IsBelow (length nodes.now) line.fact }
    ensures { IsTrue result ↔ Gives nodes.now anchors.now (said_by cites.now)
        (facts_at earlier.now) line.fact line.step }
{
    match line.fact {
        Fact::Speaks { left, right } => {
            gives_speaks(anchors, nodes, earlier, left, right, line.step)
        }
        Fact::Says { who, left, right } => {
            gives_says(cites, nodes, earlier, (who, left, right), line.step)
        }
    }
}

// The number of the first line that does not follow, or of all lines.
fn first_bad(anchors: &[Anchor], cites: &[Arc<Cert>], nodes: &[Node], lines: &[Line]) -> usize
    requires table { IsNodeTable nodes.now }
    requires below { All (λ l. IsBelow (length nodes.now) l.fact) lines.now }
    ensures within { result ≤ length lines.now }
    ensures before { EachFollows anchors.now (said_by cites.now) []
        (take result (lines_of (parts_of nodes.now lines.now))) }
    ensures here { (l : rules.Line) → slice_get (lines_of (parts_of nodes.now lines.now)) result
        ≡ Some l
        → ¬ Follows anchors.now (said_by cites.now)
        (facts (take result (lines_of (parts_of nodes.now lines.now)))) l }
{
    for k in 0..lines.len() {
        if !is_given(anchors, cites, nodes, &lines[..k], lines[k]) {
            return k;
        }
    }
    lines.len()
}

// What the last line says, if it is that one speaks for another.
fn conclusion_of(lines: &[Line]) -> Option<Conclusion>
    ensures { MatchOption result
        ((left right : ℕ) → last_fact_at lines.now ≢ Some (Fact.Speaks left right))
        (λ c. last_fact_at lines.now ≡ Some (Fact.Speaks c.left c.right)) }
{
    match lines.last() {
        Some(line) => match line.fact {
            Fact::Speaks { left, right } => Some(Conclusion { left, right }),
            Fact::Says { .. } => None,
        },
        None => None,
    }
}

fn checked(anchors: &[Anchor], cites: &[Arc<Cert>], proof: &Proof) -> Result<Conclusion, BadLine>
    ensures { IsChecked anchors.now (said_by cites.now) proof.now result }
{
    let nodes = proof.nodes();
    let lines = proof.lines();
    let bad = first_bad(anchors, cites, nodes, lines);
    if bad < lines.len() {
        return Err(BadLine { line: bad as u32 });
    }
    match conclusion_of(lines) {
        Some(conclusion) => Ok(conclusion),
        None => Err(BadLine { line: bad as u32 }),
    }
}

/// Whether each line of the proof follows from those before it, the anchors and the certificates,
/// and the last says that one speaks for another. Takes no memory.
pub fn check_proof(
    anchors: &[Anchor],
    cites: &[Arc<Cert>],
    proof: &Proof,
) -> Result<Conclusion, BadLine>
    // What the answer tells.
    ensures checked { IsChecked anchors.now (said_by cites.now) proof.now result }
    // What proves that somebody speaks for somebody is not refused.
    ensures only { (left right : Principal) → Proves anchors.now (said_by cites.now)
        (lines_of proof.now) (SpeaksFor left right) → IsOk result }
{
    checked(anchors, cites, proof)
}
