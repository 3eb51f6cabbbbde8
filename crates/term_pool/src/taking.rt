//! Proofs that are taken out of what a decider found.

ghost use Rattle.std.specs.Prelude.{◌≡◌, ◌<◌, ◌≤◌, All, IfOk, length, map};
ghost use Rattle.taos_calculus.specs.declared.decide.TheConstants.{MAX_CERTS};
ghost use Rattle.taos_calculus.specs.declared.proof.TheConstants.{MAX_LINES, MAX_NODES};
ghost use Rattle.taos_calculus.specs.Tables.{lines_of};
ghost use Rattle.term_pool.specs.Claims.{place_at};
ghost use Rattle.term_pool.specs.Taking.{AreFound, ProvesGoal};

use crate::cited::Cited;
use crate::citing::cites_in;
use crate::extract::extract;
use crate::retable::carry_lines;
use std::alloc::{AllocError, Global};
use taos_calculus::{Line, Node, Proof, Taken};

// The places of the certificates of these numbers.
fn places(alloc: Global, cited: &[Cited], used: &[u16]) -> Result<Vec<u16>, AllocError>
    requires { All (λ k. k < length cited.now) used.now }
    ensures { IfOk result (λ r. r.items ≡ map (place_at cited.now) used.now) }
{
    let mut out = Vec::with_capacity(alloc, used.len())?;
    for i in 0..used.len() {
        out.push(cited[used[i] as usize].place)?;
    }
    Ok(out)
}

/// The proof of what the line of number `goal` says: the lines that it needs, over the table of
/// their own terms, with the places of the certificates that they cite.
pub fn take_proof(
    alloc: Global,
    nodes: &[Node],
    cited: &[Cited],
    lines: &[Line],
    goal: usize,
) -> Result<Taken, AllocError>
    requires found { AreFound (record {
      nodes = nodes.now;
      cited = cited.now;
      lines = lines.now;
    }) }
    requires few_nodes { length nodes.now ≤ MAX_NODES }
    requires few_cited { length cited.now ≤ MAX_CERTS }
    requires few_lines { length lines.now ≤ MAX_LINES }
    requires goal_in { goal < length lines.now }
    ensures { IfOk result (λ t. ProvesGoal (record {
      nodes = nodes.now;
      cited = cited.now;
      lines = lines.now;
    }) goal (lines_of t.proof)
        t.cites.items) }
{
    let needed = extract(alloc, lines, goal)?;
    let used = cites_in(alloc, &needed, cited.len() as u16)?;
    let carried = carry_lines(alloc, nodes, &needed, &used)?;
    let cites = places(alloc, cited, &used)?;
    let proof = Proof::from_parts(carried.nodes, carried.lines).unwrap();
    Ok(Taken { proof, cites })
}
