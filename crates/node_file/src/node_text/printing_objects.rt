//! Printing the objects of an opening.

ghost use Rattle.std.specs.Prelude.{◌≡◌, ◌++◌, OnOk, map, string_bytes};
ghost use Rattle.std.specs.List.{flat_map};
ghost use Rattle.node_file.specs.FilePrinting.{allow_line, content_lines, ended};
ghost use Rattle.node_file.specs.FilePrinting.{object_lines, text_of_lines};
ghost use Rattle.node_file.specs.Plans.{AreByNumber, plan};
ghost use Rattle.prin_term.specs.View.{grant};

use crate::node_text::printing::{push_bytes, push_number, push_text};
use crate::object_plan::ObjectPlan;
use crate::object_plans::ObjectPlans;
use prin_term::Entry;
use prin_text::{Names, print_list};
use std::alloc::{AllocError, Global};
use std::array::from_ref;

fn push_content(
    alloc: Global,
    out: &mut String,
    number: u32,
    content: &[u8],
) -> Result<(), AllocError>
    ensures { OnOk result (string_bytes out.new
        ≡ string_bytes out.old ++ text_of_lines (content_lines number content.now)) }
{
    if content.is_empty() {
        return Ok(());
    }
    push_bytes(alloc, out, "content", number, content)
}

fn push_entry(
    alloc: Global,
    out: &mut String,
    names: &Names,
    number: u32,
    entry: &Entry,
) -> Result<(), AllocError>
    ensures { OnOk result (string_bytes out.new
        ≡ string_bytes out.old ++ ended (allow_line names.now number (grant entry.now))) }
{
    let mut text = String::new(alloc);
    print_list(alloc, &mut text, names, from_ref(entry))?;
    push_text(out, "allow", number, text.as_str())
}

fn push_entries(
    alloc: Global,
    out: &mut String,
    names: &Names,
    number: u32,
    list: &[Entry],
) -> Result<(), AllocError>
    ensures { OnOk result (string_bytes out.new
        ≡ string_bytes out.old
        ++ text_of_lines (map (allow_line names.now number) (map grant list.now))) }
{
    for entry in list {
        push_entry(alloc, out, names, number, entry)?;
    }
    Ok(())
}

fn push_object(
    alloc: Global,
    out: &mut String,
    names: &Names,
    object: &ObjectPlan,
) -> Result<(), AllocError>
    ensures { OnOk result (string_bytes out.new
        ≡ string_bytes out.old ++ text_of_lines (object_lines names.now (plan object.now))) }
{
    push_number(out, "object", object.number as u64)?;
    push_content(alloc, out, object.number, &object.content)?;
    push_entries(alloc, out, names, object.number, &object.list)
}

pub(super) fn push_objects(
    alloc: Global,
    out: &mut String,
    names: &Names,
    objects: &ObjectPlans,
) -> Result<(), AllocError>
    ensures printed { OnOk result (string_bytes out.new
        ≡ string_bytes out.old ++ text_of_lines (flat_map (object_lines names.now) objects.now)) }
    ensures sound { AreByNumber objects.now }
{
    for place in 0..objects.count() {
        if let Some(object) = objects.at(place) {
            push_object(alloc, out, names, object)?;
        }
    }
    Ok(())
}
