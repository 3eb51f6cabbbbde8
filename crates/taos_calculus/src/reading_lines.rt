//! Reading the lines of a proof.

ghost use Rattle.std.specs.Prelude.{◌≡◌, ◌≤◌, [], length, IfOk};
ghost use Rattle.byte_fields.specs.Readers.{items_behind};
ghost use Rattle.byte_fields.specs.Steps.{Gives};
ghost use Rattle.byte_fields.specs.declared.fault.FormatFault.TheVariants.{NoMemory};
ghost use Rattle.taos_calculus.specs.ProofReading.{gives_says, fact_at, step_shape, premises_at};
ghost use Rattle.taos_calculus.specs.ProofReading.{step_ruled, step_at, line_at, lines_at};

use crate::fault::ProofFault;
use crate::line::{Fact, Line, Step};
use crate::proof::MAX_LINES;
use crate::reading_fields::{byte_up_to, ended, number_of, pair_of, room_for};
use byte_fields::{u16_at, u32_at};
use std::alloc::Global;

fn gives_says(rule: u8) -> bool
    ensures { result ≡ gives_says rule }
{
    rule == 10 || rule == 11 || rule == 12
}

// The fact that a rule gives.
#[tactic(auto, unfolding(crate::specs::ProofReading::fact_at))]
fn fact_of(bytes: &[u8], at: usize, nodes: usize, rule: u8) -> Result<(Fact, usize), ProofFault>
    requires { at ≤ length bytes.now }
    ensures value { result ≡ fact_at bytes.now nodes rule at }
    ensures within { IfOk result (λ x. x.1 ≤ length bytes.now) }
{
    if gives_says(rule) {
        let (who, next) = number_of(bytes, at, nodes)?;
        let ((left, right), next) = pair_of(bytes, next, nodes)?;
        return Ok((Fact::Says { who, left, right }, next));
    }
    let ((left, right), next) = pair_of(bytes, at, nodes)?;
    Ok((Fact::Speaks { left, right }, next))
}

// What stands behind the fact of a line.
#[derive(Clone, Copy)]
pub(crate) enum StepShape {
    Bare,
    Place,
    OneLine,
    TwoLines,
}

fn step_shape(rule: u8) -> StepShape
    ensures { result ≡ step_shape rule }
{
    if rule == 1 || rule == 3 || rule == 4 || rule == 8 {
        StepShape::Bare
    } else if rule == 9 || rule == 10 {
        StepShape::Place
    } else if rule == 13 || rule == 14 || rule == 15 {
        StepShape::OneLine
    } else {
        StepShape::TwoLines
    }
}

// The premises of a rule, those that it does not have being 0.
#[tactic(auto, unfolding(crate::specs::ProofReading::premises_at))]
fn premises_of(
    bytes: &[u8],
    at: usize,
    shape: StepShape,
) -> Result<((u16, (u32, u32)), usize), ProofFault>
    requires { at ≤ length bytes.now }
    ensures value { result ≡ premises_at bytes.now shape at }
    ensures within { IfOk result (λ x. x.1 ≤ length bytes.now) }
{
    match shape {
        StepShape::Bare => Ok(((0, (0, 0)), at)),
        StepShape::Place => {
            let (place, next) = u16_at(bytes, at, ended(bytes))?;
            Ok(((place, (0, 0)), next))
        }
        StepShape::OneLine => {
            let (line, next) = u32_at(bytes, at, ended(bytes))?;
            Ok(((0, (line, 0)), next))
        }
        StepShape::TwoLines => {
            let (first, next) = u32_at(bytes, at, ended(bytes))?;
            let (second, next) = u32_at(bytes, next, ended(bytes))?;
            Ok(((0, (first, second)), next))
        }
    }
}

// The step of a rule, by the place of an anchor or a certificate, or by the numbers of two lines.
fn step_ruled(rule: u8, place: u16, first: u32, second: u32) -> Step
    ensures { result ≡ step_ruled rule (place, (first, second)) }
{
    match rule {
        1 => Step::Same,
        2 => Step::Chain { first, second },
        3 => Step::Left,
        4 => Step::Right,
        5 => Step::Both { first, second },
        6 => Step::Quote { first, second },
        7 => Step::For { first, second },
        8 => Step::Role,
        9 => Step::Anchor { index: place },
        10 => Step::Said { cite: place },
        11 => Step::Lift {
            says: first,
            speaks: second,
        },
        12 => Step::Join { first, second },
        13 => Step::HandOff { says: first },
        14 => Step::Delegate { says: first },
        _ => Step::RoleUnder { first },
    }
}

#[tactic(auto, unfolding(crate::specs::ProofReading::step_at))]
fn step_of(bytes: &[u8], at: usize, rule: u8) -> Result<(Step, usize), ProofFault>
    requires { at ≤ length bytes.now }
    ensures value { result ≡ step_at bytes.now rule at }
    ensures within { IfOk result (λ x. x.1 ≤ length bytes.now) }
{
    let ((place, (first, second)), next) = premises_of(bytes, at, step_shape(rule))?;
    Ok((step_ruled(rule, place, first, second), next))
}

// A line over the numbers of so many nodes.
#[tactic(auto, unfolding(crate::specs::ProofReading::line_at))]
fn line_of(bytes: &[u8], at: usize, nodes: usize) -> Result<(Line, usize), ProofFault>
    requires { at ≤ length bytes.now }
    ensures value { result ≡ line_at bytes.now nodes at }
    ensures within { IfOk result (λ x. x.1 ≤ length bytes.now) }
{
    let (rule, next) = byte_up_to(bytes, at, 15)?;
    let (fact, next) = fact_of(bytes, next, nodes, rule)?;
    let (step, next) = step_of(bytes, next, rule)?;
    Ok((Line { fact, step }, next))
}

// So many lines.
fn some_lines(
    alloc: Global,
    bytes: &[u8],
    at: usize,
    nodes: usize,
    count: u32,
) -> Result<(Vec<Line>, usize), ProofFault>
    requires { at ≤ length bytes.now }
    ensures value { Gives NoMemory (λ x. (x.0.items, x.1)) result
        (items_behind (λ _. line_at bytes.now nodes) count [] at) }
    ensures within { IfOk result (λ x. x.1 ≤ length bytes.now) }
{
    let mut lines = Vec::with_capacity(alloc, room_for(bytes, at, count as usize))?;
    let mut next = at;
    for _ in 0..count {
        let (line, after) = line_of(bytes, next, nodes)?;
        lines.push(line)?;
        next = after;
    }
    Ok((lines, next))
}

#[tactic(auto, unfolding(crate::specs::ProofReading::lines_at))]
pub(crate) fn lines_of(
    alloc: Global,
    bytes: &[u8],
    at: usize,
    nodes: usize,
) -> Result<(Vec<Line>, usize), ProofFault>
    requires { at ≤ length bytes.now }
    ensures value { Gives NoMemory (λ x. (x.0.items, x.1)) result (lines_at bytes.now nodes at) }
    ensures within { IfOk result (λ x. x.1 ≤ length bytes.now) }
{
    let (count, next) = u32_at(bytes, at, ended(bytes))?;
    if count as usize > MAX_LINES {
        return Err(ProofFault::Malformed { offset: at });
    }
    some_lines(alloc, bytes, next, nodes, count)
}
