//! The lines that a goal needs.

ghost use Rattle.std.specs.Prelude.{◌≡◌, ◌≢◌, ◌⊎◌, ℕ, ◌+◌, ◌<◌, ◌≤◌, ◌^◌, ◌++◌};
ghost use Rattle.std.specs.Prelude.{Some, IfOk, slice_get, slice_index, length};
ghost use Rattle.std.specs.Prelude.{Contains, option_to_list, option_map};
ghost use Rattle.taos_calculus.specs.declared.line.Line.{Line};
ghost use Rattle.taos_calculus.specs.Tidy.{premises_of, moved};
ghost use Rattle.term_pool.specs.Extract.{Marked, IsMarked, IsMarkedFrom};
ghost use Rattle.term_pool.specs.Extract.{IsExtract, PremisesBelow};

use std::alloc::{AllocError, Global};
use taos_calculus::{Line, Step};

// The numbers of the lines that a step names.
fn premises(step: Step) -> (Option<u32>, Option<u32>)
    ensures { premises_of step ≡ option_to_list result.0 ++ option_to_list result.1 }
{
    match step {
        Step::Chain { first, second } => (Some(first), Some(second)),
        Step::Both { first, second } => (Some(first), Some(second)),
        Step::Quote { first, second } => (Some(first), Some(second)),
        Step::For { first, second } => (Some(first), Some(second)),
        Step::Join { first, second } => (Some(first), Some(second)),
        Step::Lift { says, speaks } => (Some(says), Some(speaks)),
        Step::RoleUnder { first } => (Some(first), None),
        Step::HandOff { says } => (Some(says), None),
        Step::Delegate { says } => (Some(says), None),
        Step::Same | Step::Left | Step::Right | Step::Role => (None, None),
        Step::Anchor { .. } | Step::Said { .. } => (None, None),
    }
}

// Marks the line.
fn mark(marks: &mut Vec<bool>, line: Option<u32>)
    requires { (i : ℕ) → line ≡ Some i → i < length marks.old.items }
    ensures same_length { length marks.new.items ≡ length marks.old.items }
    ensures kept { (k : ℕ) → Marked marks.old.items k → Marked marks.new.items k }
    ensures set { (i : ℕ) → line ≡ Some i → Marked marks.new.items i }
    ensures only { (k : ℕ) → Marked marks.new.items k → Marked marks.old.items k ⊎ (line ≡ Some k) }
{
    if let Some(i) = line {
        marks[i as usize] = true;
    }
}

// Marks the premises of a step.
fn mark_premises(marks: &mut Vec<bool>, step: Step)
    requires { (i : ℕ) → Contains (premises_of step) i → i < length marks.old.items }
    ensures same_length { length marks.new.items ≡ length marks.old.items }
    ensures kept { (k : ℕ) → Marked marks.old.items k → Marked marks.new.items k }
    ensures set { (i : ℕ) → Contains (premises_of step) i → Marked marks.new.items i }
    ensures only { (k : ℕ) → Marked marks.new.items k
        → Marked marks.old.items k ⊎ Contains (premises_of step) k }
{
    let (first, second) = premises(step);
    mark(marks, first);
    mark(marks, second);
}

// Marks what the last line needs.
fn marks_for(alloc: Global, lines: &[Line], last: usize) -> Result<Vec<bool>, AllocError>
    requires last_in { last < length lines.now }
    requires ordered { (k i : ℕ) (l : Line) → slice_get lines.now k ≡ Some l
        → Contains (premises_of l.step) i → i < k }
    ensures { IfOk result (λ marks. IsMarked lines.now last marks.items) }
{
    let mut marks = vec![in alloc; false; last + 1]?;
    marks[last] = true;
    let mut k = last + 1;
    while k > 0 {
        k -= 1;
        if marks[k] {
            mark_premises(&mut marks, lines[k].step);
        }
    }
    Ok(marks)
}

// The step with its premises renumbered.
fn renumbered(step: Step, numbers: &[u32]) -> Step
    requires { PremisesBelow (length numbers.now) step }
    ensures { result ≡ moved (λ i. slice_index numbers.now i) (λ n. n) step }
{
    match step {
        Step::Chain { first, second } => Step::Chain {
            first: numbers[first as usize],
            second: numbers[second as usize],
        },
        Step::Both { first, second } => Step::Both {
            first: numbers[first as usize],
            second: numbers[second as usize],
        },
        Step::Quote { first, second } => Step::Quote {
            first: numbers[first as usize],
            second: numbers[second as usize],
        },
        Step::For { first, second } => Step::For {
            first: numbers[first as usize],
            second: numbers[second as usize],
        },
        Step::Join { first, second } => Step::Join {
            first: numbers[first as usize],
            second: numbers[second as usize],
        },
        Step::Lift { says, speaks } => Step::Lift {
            says: numbers[says as usize],
            speaks: numbers[speaks as usize],
        },
        Step::RoleUnder { first } => Step::RoleUnder {
            first: numbers[first as usize],
        },
        Step::HandOff { says } => Step::HandOff {
            says: numbers[says as usize],
        },
        Step::Delegate { says } => Step::Delegate {
            says: numbers[says as usize],
        },
        _ => step,
    }
}

/// The lines that the last one needs, in order, with their premises renumbered.
pub fn extract(alloc: Global, lines: &[Line], last: usize) -> Result<Vec<Line>, AllocError>
    requires last_in { last < length lines.now }
    requires lines_fit { length lines.now < 2 ^ 32 }
    requires ordered { (k i : ℕ) (l : Line) → slice_get lines.now k ≡ Some l
        → Contains (premises_of l.step) i → i < k }
    ensures { IfOk result (λ out. IsExtract lines.now last out.items) }
{
    let marks = marks_for(alloc, lines, last)?;
    let mut numbers = Vec::new(alloc);
    let mut out: Vec<Line> = Vec::new(alloc);
    for k in 0..last + 1 {
        numbers.push(out.len() as u32)?;
        if marks[k] {
            let step = renumbered(lines[k].step, &numbers);
            out.push(Line {
                fact: lines[k].fact,
                step,
            })?;
        }
    }
    Ok(out)
}
