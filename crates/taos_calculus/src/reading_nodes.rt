//! Reading the nodes of a proof.

ghost use Rattle.std.specs.Prelude.{◌≡◌, ◌≤◌, [], length, IfOk};
ghost use Rattle.byte_fields.specs.Readers.{items_behind};
ghost use Rattle.byte_fields.specs.Steps.{Gives};
ghost use Rattle.byte_fields.specs.declared.fault.FormatFault.TheVariants.{NoMemory};
ghost use Rattle.taos_calculus.specs.ProofReading.{node_shape, node_fields_at};
ghost use Rattle.taos_calculus.specs.ProofReading.{node_tagged, node_at, nodes_at};

use crate::fault::ProofFault;
use crate::line::Node;
use crate::proof::MAX_NODES;
use crate::reading_fields::{byte_up_to, ended, number_of, pair_of, room_for};
use byte_fields::{u16_at, u32_at};
use std::alloc::Global;

// What stands behind the tag of a node.
#[derive(Clone, Copy)]
pub(crate) enum NodeShape {
    Atom,
    Role,
    Pair,
}

fn node_shape(tag: u8) -> NodeShape
    ensures { result ≡ node_shape tag }
{
    if tag == 1 || tag == 2 {
        NodeShape::Atom
    } else if tag == 5 {
        NodeShape::Role
    } else {
        NodeShape::Pair
    }
}

// The fields of a node, those that it does not have being 0.
#[tactic(auto, unfolding(crate::specs::ProofReading::node_fields_at))]
fn node_fields_of(
    bytes: &[u8],
    at: usize,
    nodes: usize,
    shape: NodeShape,
) -> Result<(((u16, u16), u32), usize), ProofFault>
    requires { at ≤ length bytes.now }
    ensures value { result ≡ node_fields_at bytes.now nodes shape at }
    ensures within { IfOk result (λ x. x.1 ≤ length bytes.now) }
{
    match shape {
        NodeShape::Atom => {
            let (number, next) = u32_at(bytes, at, ended(bytes))?;
            Ok((((0, 0), number), next))
        }
        NodeShape::Role => {
            let (base, next) = number_of(bytes, at, nodes)?;
            let (role, next) = u32_at(bytes, next, ended(bytes))?;
            Ok((((base, 0), role), next))
        }
        NodeShape::Pair => {
            let (operands, next) = pair_of(bytes, at, nodes)?;
            Ok(((operands, 0), next))
        }
    }
}

fn node_tagged(tag: u8, operands: (u16, u16), number: u32) -> Node
    ensures { result ≡ node_tagged tag (operands, number) }
{
    match tag {
        1 => Node::Key(number),
        2 => Node::Name(number),
        3 => Node::And(operands.0, operands.1),
        4 => Node::Quote(operands.0, operands.1),
        5 => Node::AsRole(operands.0, number),
        _ => Node::For(operands.0, operands.1),
    }
}

// A node behind so many.
#[tactic(auto, unfolding(crate::specs::ProofReading::node_at))]
fn node_of(bytes: &[u8], at: usize, nodes: usize) -> Result<(Node, usize), ProofFault>
    requires { at ≤ length bytes.now }
    ensures value { result ≡ node_at bytes.now nodes at }
    ensures within { IfOk result (λ x. x.1 ≤ length bytes.now) }
{
    let (tag, next) = byte_up_to(bytes, at, 6)?;
    let ((operands, number), next) = node_fields_of(bytes, next, nodes, node_shape(tag))?;
    Ok((node_tagged(tag, operands, number), next))
}

// So many nodes.
fn some_nodes(
    alloc: Global,
    bytes: &[u8],
    at: usize,
    count: u16,
) -> Result<(Vec<Node>, usize), ProofFault>
    requires { at ≤ length bytes.now }
    ensures value { Gives NoMemory (λ x. (x.0.items, x.1)) result
        (items_behind (λ before. node_at bytes.now (length before)) count [] at) }
    ensures within { IfOk result (λ x. x.1 ≤ length bytes.now) }
{
    let mut nodes = Vec::with_capacity(alloc, room_for(bytes, at, count as usize))?;
    let mut next = at;
    for _ in 0..count {
        let (node, after) = node_of(bytes, next, nodes.len())?;
        nodes.push(node)?;
        next = after;
    }
    Ok((nodes, next))
}

#[tactic(auto, unfolding(crate::specs::ProofReading::nodes_at))]
pub(crate) fn nodes_of(
    alloc: Global,
    bytes: &[u8],
    at: usize,
) -> Result<(Vec<Node>, usize), ProofFault>
    requires { at ≤ length bytes.now }
    ensures value { Gives NoMemory (λ x. (x.0.items, x.1)) result (nodes_at bytes.now at) }
    ensures within { IfOk result (λ x. x.1 ≤ length bytes.now) }
{
    let (count, next) = u16_at(bytes, at, ended(bytes))?;
    if count as usize > MAX_NODES {
        return Err(ProofFault::Malformed { offset: at });
    }
    some_nodes(alloc, bytes, next, count)
}
