//! The certificates that lines cite.

ghost use Rattle.std.specs.Prelude.{◌≡◌, ◌⊎◌, ℕ, ◌<◌, ◌^◌, Some, IfOk};
ghost use Rattle.std.specs.Prelude.{MatchOption, slice_get, length, Contains};
ghost use Rattle.taos_calculus.specs.Tidy.{cites_of};
ghost use Rattle.term_pool.specs.Citing.{HasPlace, MarksCites, UsedBelow, IsRecited};
ghost use Rattle.term_pool.specs.Extract.{Marked};

use std::alloc::{AllocError, Global};
use taos_calculus::{Line, Step};

// The place of a number.
fn place_of(used: &[u16], cite: u16) -> Option<u16>
    requires { length used.now < 2 ^ 16 }
    ensures { MatchOption result ((i : ℕ) → slice_get used.now i ≡ Some cite → ⊥)
        (λ i. slice_get used.now i ≡ Some cite) }
{
    for i in 0..used.len() {
        if used[i] == cite {
            return Some(i as u16);
        }
    }
    None
}

// Marks the certificate that the step names.
fn mark_cite(marks: &mut Vec<bool>, step: Step)
    ensures same_length { length marks.new.items ≡ length marks.old.items }
    ensures kept { (k : ℕ) → Marked marks.old.items k → Marked marks.new.items k }
    ensures set { (k : ℕ) → Contains (cites_of step) k → k < length marks.old.items
        → Marked marks.new.items k }
    ensures only { (k : ℕ) → Marked marks.new.items k
        → Marked marks.old.items k ⊎ Contains (cites_of step) k }
{
    if let Step::Said { cite } = step {
        if (cite as usize) < marks.len() {
            marks[cite as usize] = true;
        }
    }
}

// Which numbers below `count` the lines cite.
fn cited_marks(alloc: Global, lines: &[Line], count: u16) -> Result<Vec<bool>, AllocError>
    ensures { IfOk result (λ marks. MarksCites lines.now count marks.items) }
{
    let mut marks = vec![in alloc; false; count as usize]?;
    for i in 0..lines.len() {
        mark_cite(&mut marks, lines[i].step);
    }
    Ok(marks)
}

/// The numbers below `count` that the lines cite, each once.
pub fn cites_in(alloc: Global, lines: &[Line], count: u16) -> Result<Vec<u16>, AllocError>
    ensures { IfOk result (λ used. UsedBelow lines.now count used.items) }
{
    let marks = cited_marks(alloc, lines, count)?;
    let mut used = Vec::with_capacity(alloc, marks.len())?;
    for number in 0..count {
        if marks[number as usize] {
            used.push(number)?;
        }
    }
    Ok(used)
}

/// The step, with its certificate by the place of its number.
pub fn recite(step: Step, used: &[u16]) -> Step
    requires few { length used.now < 2 ^ 16 }
    requires has { (k : ℕ) → Contains (cites_of step) k → HasPlace used.now k }
    ensures { IsRecited used.now step result }
{
    match step {
        Step::Said { cite } => match place_of(used, cite) {
            Some(place) => Step::Said { cite: place },
            None => step,
        },
        _ => step,
    }
}
