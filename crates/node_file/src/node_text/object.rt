//! The objects of a node file, and what they contain.

ghost use Rattle.std.specs.Prelude.{◌≡◌, ℕ, List};
ghost use Rattle.object_core.specs.Objects.{ObjectPlan as Plan};
ghost use Rattle.prin_text.specs.LineView.{TakesLine};
ghost use Rattle.node_file.specs.NodeLines.{contents_and, contents_with, empty_object};
ghost use Rattle.node_file.specs.NodeLines.{objects_and, objects_with};
ghost use Rattle.node_file.specs.Plans.{HoldsPlans, drafted};

use crate::limits::MAX_OBJECTS;
use crate::object_drafts::{ObjectDraft, ObjectDrafts};
use object_core::MAX_CONTENT;
use prin_text::{FileCause, LineFault, numbered_digits, one_number};
use std::alloc::Global;

// An object without content and with an empty access list.
fn empty_object(alloc: Global) -> ObjectDraft
    ensures { (number : ℕ) → drafted (number, result) ≡ empty_object number }
{
    ObjectDraft {
        content: Vec::new(alloc),
        list: Vec::new(alloc),
    }
}

fn add_object(alloc: Global, objects: &mut ObjectDrafts, number: u32) -> Result<(), LineFault>
    ensures takes { (above : List Plan) → HoldsPlans objects.old above
        → TakesLine HoldsPlans result objects.new (objects_and above number) }
{
    if objects.get(number).is_some() {
        return Err(LineFault::Refused(FileCause::Twice));
    }
    if objects.count() >= MAX_OBJECTS as usize {
        return Err(LineFault::Refused(FileCause::Limit));
    }
    let object = empty_object(alloc);
    objects.add(number, object)?;
    Ok(())
}

// Adds the object that the line says.
pub(super) fn take_object(
    alloc: Global,
    objects: &mut ObjectDrafts,
    rest: &[u8],
) -> Result<(), LineFault>
    ensures takes { (above : List Plan) → HoldsPlans objects.old above
        → TakesLine HoldsPlans result objects.new (objects_with above rest.now) }
{
    match one_number(rest, u32::MAX as u64) {
        Ok(number) => add_object(alloc, objects, number as u32),
        Err(cause) => Err(LineFault::Refused(cause)),
    }
}

// Gives an object its content.
fn add_content(objects: &mut ObjectDrafts, number: u32, content: Vec<u8>) -> Result<(), LineFault>
    ensures takes { (above : List Plan) → HoldsPlans objects.old above
        → TakesLine HoldsPlans result objects.new
        (contents_and above (number, content.items)) }
{
    let Some(object) = objects.get(number) else {
        return Err(LineFault::Refused(FileCause::UnknownObject));
    };
    if object.content.len() > 0 {
        return Err(LineFault::Refused(FileCause::Twice));
    }
    if content.len() > MAX_CONTENT as usize {
        return Err(LineFault::Refused(FileCause::Limit));
    }
    objects.set_content(number, content);
    Ok(())
}

// Gives an object the content that the line says.
pub(super) fn take_content(
    alloc: Global,
    objects: &mut ObjectDrafts,
    rest: &[u8],
) -> Result<(), LineFault>
    ensures takes { (above : List Plan) → HoldsPlans objects.old above
        → TakesLine HoldsPlans result objects.new (contents_with above rest.now) }
{
    match numbered_digits(alloc, rest) {
        Ok((number, content)) => add_content(objects, number, content),
        Err(fault) => Err(fault),
    }
}
