//! The objects of an opening.

ghost use Rattle.std.specs.Prelude.{◌≡◌, ◌≤◌, List, [], length, IfOk, None};
ghost use Rattle.byte_fields.specs.declared.fault.FormatFault.TheVariants.{NoMemory};
ghost use Rattle.byte_fields.specs.Readers.{items_behind};
ghost use Rattle.byte_fields.specs.Steps.{Gives};
ghost use Rattle.object_core.specs.Objects.{ObjectPlan as Plan, object_of};
ghost use Rattle.node_file.specs.OpeningReading.{new_object_at, object_at, objects_at};
ghost use Rattle.node_file.specs.OpeningView.{Agrees, WithEnd};
ghost use Rattle.node_file.specs.Plans.{HoldsPlans, drafted};

use crate::limits::MAX_OBJECTS;
use crate::object_drafts::{ObjectDraft, ObjectDrafts};
use crate::object_plans::ObjectPlans;
use byte_fields::{FormatFault, ended, length_up_to, u32_at};
use object_core::{read_content, read_list};
use std::alloc::Global;

// The number of an object that is not there yet.
#[tactic(auto, unfolding(crate::specs::OpeningReading::new_object_at))]
fn number_of(bytes: &[u8], at: usize, plans: &ObjectDrafts) -> Result<(u32, usize), FormatFault>
    requires { at ≤ length bytes.now }
    ensures value { (before : List Plan) → HoldsPlans plans.now before
        → result ≡ new_object_at bytes.now before at }
    ensures is_new { IfOk result (λ x. object_of plans.now x.0 ≡ None) }
    ensures within { IfOk result (λ x. x.1 ≤ length bytes.now) }
{
    let (number, next) = u32_at(bytes, at, ended(bytes))?;
    if plans.get(number).is_some() {
        return Err(FormatFault::Malformed { offset: at });
    }
    Ok((number, next))
}

// An object that is not there yet.
#[tactic(auto, unfolding(crate::specs::OpeningReading::object_at))]
fn object_of(
    alloc: Global,
    bytes: &[u8],
    at: usize,
    plans: &ObjectDrafts,
) -> Result<(u32, ObjectDraft, usize), FormatFault>
    requires { at ≤ length bytes.now }
    ensures value { (before : List Plan) → HoldsPlans plans.now before
        → Gives NoMemory (λ x. (drafted (x.0, x.1), x.2)) result
        (object_at bytes.now before at) }
    ensures is_new { IfOk result (λ x. object_of plans.now x.0 ≡ None) }
    ensures within { IfOk result (λ x. x.2 ≤ length bytes.now) }
{
    let (number, next) = number_of(bytes, at, plans)?;
    let (content, next) = read_content(alloc, bytes, next)?;
    let (list, next) = read_list(alloc, bytes, next)?;
    Ok((number, ObjectDraft { content, list }, next))
}

// So many objects.
fn plans_of(
    alloc: Global,
    bytes: &[u8],
    at: usize,
    count: u16,
) -> Result<(ObjectDrafts, usize), FormatFault>
    requires { at ≤ length bytes.now }
    ensures value { Agrees (WithEnd HoldsPlans) result
        (items_behind (object_at bytes.now) count [] at) }
    ensures within { IfOk result (λ x. x.1 ≤ length bytes.now) }
{
    let mut plans = ObjectDrafts::new(alloc);
    let mut next = at;
    for _ in 0..count {
        let (number, object, after) = object_of(alloc, bytes, next, &plans)?;
        plans.add(number, object)?;
        next = after;
    }
    Ok((plans, next))
}

#[tactic(auto, unfolding(crate::specs::OpeningReading::objects_at))]
pub(super) fn objects_of(
    alloc: Global,
    bytes: &[u8],
    at: usize,
) -> Result<(ObjectPlans, usize), FormatFault>
    requires { at ≤ length bytes.now }
    ensures value { Agrees (WithEnd HoldsPlans) result (objects_at bytes.now at) }
    ensures within { IfOk result (λ x. x.1 ≤ length bytes.now) }
{
    let (count, next) = length_up_to(bytes, at, MAX_OBJECTS)?;
    let (drafts, next) = plans_of(alloc, bytes, next, count)?;
    Ok((drafts.plans(alloc)?, next))
}
