//! Writing the spelling of a proof.

ghost use Rattle.std.specs.Prelude.{◌≡◌, ◌++◌, ◌∷◌, ◌+◌, ◌<◌, ◌≤◌, ◌^◌, length, OnOk};
ghost use Rattle.std.specs.Int.{w16, w32, to_be_bytes};
ghost use Rattle.std.specs.List.{flat_map};
ghost use Rattle.byte_fields.specs.Appends.{Appends, Pushes};
ghost use Rattle.taos_calculus.specs.Tables.{lines_of, parts_of};
ghost use Rattle.taos_calculus.specs.Spelling.{proof_bytes, proof_spelling, parts_spelling};
ghost use Rattle.taos_calculus.specs.Spelling.{node_bytes};
ghost use Rattle.taos_calculus.specs.Spelling.{fact_bytes, premise_bytes, line_bytes, rule_byte};
ghost use Rattle.taos_calculus.specs.Spelling.{pair16, pair32};

use crate::line::{Fact, Line, Node, Step};
use crate::proof::{MAX_LINES, MAX_NODES, Proof};
use byte_fields::fill;
use std::alloc::AllocError;

/// Appends the one spelling of a proof. An `Err` leaves the bytes as they were.
pub fn write_proof(out: &mut Vec<u8>, proof: &Proof) -> Result<(), AllocError>
    ensures appends { Appends out.old out.new (proof_spelling (lines_of proof.now)) result }
    // A proof within its limits is short.
    ensures short { length (proof_spelling (lines_of proof.now)) < 2 ^ 25 }
{
    write_parts(out, proof.nodes(), proof.lines())
}

/// Appends a proof after its length. An `Err` leaves the bytes as they were.
pub fn write_counted_proof(out: &mut Vec<u8>, proof: &Proof) -> Result<(), AllocError>
    ensures appends { Appends out.old out.new (proof_bytes (lines_of proof.now)) result }
    ensures short { OnOk result (length (proof_bytes (lines_of proof.now)) < 2 ^ 25 + 4) }
{
    let len = out.len();
    let written = push_counted(out, proof);
    if written.is_err() {
        out.truncate(len);
    }
    written
}

#[tactic(auto, unfolding(crate::specs::Spelling::proof_bytes))]
fn push_counted(out: &mut Vec<u8>, proof: &Proof) -> Result<(), AllocError>
    ensures pushes { Pushes out.old out.new (proof_bytes (lines_of proof.now)) result }
    ensures short { OnOk result (length (proof_bytes (lines_of proof.now)) < 2 ^ 25 + 4) }
{
    let start = out.len();
    out.extend_from_slice(&[0; 4])?;
    let text = out.len();
    write_proof(out, proof)?;
    let len = (out.len() - text) as u32;
    fill(out, start, &len.to_be_bytes());
    Ok(())
}

fn write_parts(out: &mut Vec<u8>, nodes: &[Node], lines: &[Line]) -> Result<(), AllocError>
    requires nodes_fit { length nodes.now ≤ MAX_NODES }
    requires lines_fit { length lines.now ≤ MAX_LINES }
    ensures { Appends out.old out.new (parts_spelling (parts_of nodes.now lines.now)) result }
{
    let len = out.len();
    let written = push_parts(out, nodes, lines);
    if written.is_err() {
        out.truncate(len);
    }
    written
}

fn push_parts(out: &mut Vec<u8>, nodes: &[Node], lines: &[Line]) -> Result<(), AllocError>
    requires nodes_fit { length nodes.now ≤ MAX_NODES }
    requires lines_fit { length lines.now ≤ MAX_LINES }
    ensures { Pushes out.old out.new (parts_spelling (parts_of nodes.now lines.now)) result }
{
    out.extend_from_slice(&(nodes.len() as u16).to_be_bytes())?;
    push_nodes(out, nodes)?;
    out.extend_from_slice(&(lines.len() as u32).to_be_bytes())?;
    push_lines(out, lines)?;
    Ok(())
}

fn push_nodes(out: &mut Vec<u8>, nodes: &[Node]) -> Result<(), AllocError>
    ensures { Pushes out.old out.new (flat_map node_bytes nodes.now) result }
{
    for node in nodes {
        push_node(out, *node)?;
    }
    Ok(())
}

fn push_lines(out: &mut Vec<u8>, lines: &[Line]) -> Result<(), AllocError>
    ensures { Pushes out.old out.new (flat_map line_bytes lines.now) result }
{
    for line in lines {
        push_line(out, *line)?;
    }
    Ok(())
}

fn push_line(out: &mut Vec<u8>, line: Line) -> Result<(), AllocError>
    ensures { Pushes out.old out.new (line_bytes line) result }
{
    push_fact(out, rule_of(line.step), line.fact)?;
    push_premises(out, line.step)
}

fn push_node(out: &mut Vec<u8>, node: Node) -> Result<(), AllocError>
    ensures { Pushes out.old out.new (node_bytes node) result }
{
    match node {
        Node::Key(key) => out.extend_from_slice(&atom_of(1, key)),
        Node::Name(name) => out.extend_from_slice(&atom_of(2, name)),
        Node::And(left, right) => out.extend_from_slice(&compound_of(3, left, right)),
        Node::Quote(left, right) => out.extend_from_slice(&compound_of(4, left, right)),
        Node::AsRole(base, role) => out.extend_from_slice(&role_of(base, role)),
        Node::For(left, right) => out.extend_from_slice(&compound_of(6, left, right)),
    }
}

fn atom_of(tag: u8, number: u32) -> [u8; 5]
    ensures { result ≡ tag ∷ to_be_bytes w32 number }
{
    let n = number.to_be_bytes();
    [tag, n[0], n[1], n[2], n[3]]
}

fn compound_of(tag: u8, left: u16, right: u16) -> [u8; 5]
    ensures { result ≡ tag ∷ pair16 left right }
{
    let l = left.to_be_bytes();
    let r = right.to_be_bytes();
    [tag, l[0], l[1], r[0], r[1]]
}

fn role_of(base: u16, role: u32) -> [u8; 7]
    ensures { result ≡ 5 ∷ (to_be_bytes w16 base ++ to_be_bytes w32 role) }
{
    let b = base.to_be_bytes();
    let r = role.to_be_bytes();
    [5, b[0], b[1], r[0], r[1], r[2], r[3]]
}

// What is said, behind the byte of the rule.
fn said_of(rule: u8, who: u16, left: u16, right: u16) -> [u8; 7]
    ensures { result
        ≡ rule ∷ (to_be_bytes w16 who ++ to_be_bytes w16 left ++ to_be_bytes w16 right) }
{
    let w = who.to_be_bytes();
    let l = left.to_be_bytes();
    let r = right.to_be_bytes();
    [rule, w[0], w[1], l[0], l[1], r[0], r[1]]
}

// The byte of the rule, and the fact.
fn push_fact(out: &mut Vec<u8>, rule: u8, fact: Fact) -> Result<(), AllocError>
    ensures { Pushes out.old out.new (rule ∷ fact_bytes fact) result }
{
    match fact {
        Fact::Speaks { left, right } => out.extend_from_slice(&compound_of(rule, left, right)),
        Fact::Says { who, left, right } => {
            out.extend_from_slice(&said_of(rule, who, left, right))
        }
    }
}

fn push_premises(out: &mut Vec<u8>, step: Step) -> Result<(), AllocError>
    ensures { Pushes out.old out.new (premise_bytes step) result }
{
    match step {
        Step::Same | Step::Left | Step::Right | Step::Role => Ok(()),
        Step::Chain { first, second }
        | Step::Both { first, second }
        | Step::Quote { first, second }
        | Step::For { first, second }
        | Step::Join { first, second } => out.extend_from_slice(&pair_of(first, second)),
        Step::Lift { says, speaks } => out.extend_from_slice(&pair_of(says, speaks)),
        Step::RoleUnder { first } => out.extend_from_slice(&first.to_be_bytes()),
        Step::HandOff { says } | Step::Delegate { says } => {
            out.extend_from_slice(&says.to_be_bytes())
        }
        Step::Anchor { index } => out.extend_from_slice(&index.to_be_bytes()),
        Step::Said { cite } => out.extend_from_slice(&cite.to_be_bytes()),
    }
}

fn pair_of(first: u32, second: u32) -> [u8; 8]
    ensures { result ≡ pair32 first second }
{
    let a = first.to_be_bytes();
    let b = second.to_be_bytes();
    [a[0], a[1], a[2], a[3], b[0], b[1], b[2], b[3]]
}

// The byte of the rule.
fn rule_of(step: Step) -> u8
    ensures { result ≡ rule_byte step }
{
    match step {
        Step::Same => 1,
        Step::Chain { .. } => 2,
        Step::Left => 3,
        Step::Right => 4,
        Step::Both { .. } => 5,
        Step::Quote { .. } => 6,
        Step::For { .. } => 7,
        Step::Role => 8,
        Step::Anchor { .. } => 9,
        Step::Said { .. } => 10,
        Step::Lift { .. } => 11,
        Step::Join { .. } => 12,
        Step::HandOff { .. } => 13,
        Step::Delegate { .. } => 14,
        Step::RoleUnder { .. } => 15,
    }
}
