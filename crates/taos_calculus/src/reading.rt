//! Reading a proof from its bytes.

ghost use Rattle.std.specs.Prelude.{◌≡◌, ◌≤◌, length, IfOk, MatchResult};
ghost use Rattle.byte_fields.specs.Steps.{Gives};
ghost use Rattle.byte_fields.specs.declared.fault.FormatFault.TheVariants.{NoMemory};
ghost use Rattle.taos_calculus.specs.Tables.{Parts, lines_of, parts_of};
ghost use Rattle.taos_calculus.specs.Spells.{Spells};
ghost use Rattle.taos_calculus.specs.ProofReading.{parts_at, proof_at, proof_from, proof_of};
ghost use Rattle.taos_calculus.specs.ProofReading.{proof_filling};

use crate::fault::ProofFault;
use crate::line::{Line, Node};
use crate::proof::Proof;
use crate::reading_fields::ended;
use crate::reading_lines::lines_of;
use crate::reading_nodes::nodes_of;
use byte_fields::{slice_at, u32_at};
use std::alloc::Global;

// The nodes, the lines, and the offset behind them.
#[tactic(auto, unfolding(crate::specs::ProofReading::parts_at))]
fn parts_of(
    alloc: Global,
    bytes: &[u8],
    at: usize,
) -> Result<(Vec<Node>, Vec<Line>, usize), ProofFault>
    requires { at ≤ length bytes.now }
    ensures { Gives NoMemory (λ x. (parts_of x.0.items x.1.items, x.2)) result
        (parts_at bytes.now at) }
{
    let (nodes, next) = nodes_of(alloc, bytes, at)?;
    let (lines, end) = lines_of(alloc, bytes, next, nodes.len())?;
    Ok((nodes, lines, end))
}

fn all_of(alloc: Global, bytes: &[u8], at: usize) -> Result<Proof, ProofFault>
    requires { at ≤ length bytes.now }
    ensures { Gives NoMemory (λ p. p) result (proof_from bytes.now at) }
{
    let (nodes, lines, end) = parts_of(alloc, bytes, at)?;
    let Some(proof) = Proof::from_parts(nodes, lines) else {
        return Err(ProofFault::Malformed { offset: at });
    };
    if end < bytes.len() {
        Err(ProofFault::Malformed { offset: end })
    } else {
        Ok(proof)
    }
}

/// The proof that all of the bytes spell. Memory is taken for its parts; where it is refused, the
/// fault is `NoMemory`.
pub fn read_proof(alloc: Global, bytes: &[u8]) -> Result<Proof, ProofFault>
    // What is read is spelled so.
    ensures found { IfOk result (λ p. Spells p bytes.now) }
    // What is spelled so is read, unless memory runs out.
    ensures only { (p : Parts) → Spells p bytes.now
        → MatchResult result (λ x. x ≡ p) (λ f. f ≡ NoMemory) }
    // Which fault it is.
    ensures exact { Gives NoMemory (λ p. p) result (proof_of bytes.now) }
{
    all_of(alloc, bytes, 0)
}

/// The proof that fills so many bytes at an offset, and the offset after it. A fault tells its
/// offset in all of the bytes.
#[tactic(auto, unfolding(crate::specs::ProofReading::proof_filling))]
pub fn read_proof_at(
    alloc: Global,
    bytes: &[u8],
    at: usize,
    len: usize,
) -> Result<(Proof, usize), ProofFault>
    requires { at ≤ length bytes.now }
    ensures exact { Gives NoMemory (λ x. x) result (proof_filling bytes.now len at) }
    ensures within { IfOk result (λ x. x.1 ≤ length bytes.now) }
{
    let (_, end) = slice_at(bytes, at, len, ended(bytes))?;
    let proof = all_of(alloc, &bytes[..end], at)?;
    Ok((proof, end))
}

/// The proof that is spelled at `at`, after its length, and the offset after it.
#[tactic(auto, unfolding(crate::specs::ProofReading::proof_at))]
pub fn read_counted_proof(
    alloc: Global,
    bytes: &[u8],
    at: usize,
) -> Result<(Proof, usize), ProofFault>
    requires { at ≤ length bytes.now }
    // `counted_proofs_are_read` tells what it gives.
    ensures exact { Gives NoMemory (λ x. (lines_of x.0, x.1)) result (proof_at bytes.now at) }
    ensures within { IfOk result (λ x. x.1 ≤ length bytes.now) }
{
    let (len, next) = u32_at(bytes, at, ended(bytes))?;
    let (proof, end) = read_proof_at(alloc, bytes, next, len as usize)?;
    Ok((proof, end))
}
