//! Objects by their numbers, while they are gathered.

ghost use Rattle.std.specs.Prelude.{◌≡◌, [], length, IfOk, IsSome, OnOk, None};
ghost use Rattle.std.specs.Option.{option_map};
ghost use Rattle.object_core.specs.Objects.{object_of};
ghost use Rattle.prin_term.specs.View.{grant};
ghost use Rattle.node_file.specs.NodeLines.{with_content, with_grant};
ghost use Rattle.node_file.specs.Plans.{AddsPlan, ChangesPlan, drafted, plan};

use crate::object_plan::ObjectPlan;
use crate::object_plans::ObjectPlans;
use prin_term::Entry;
use std::alloc::{AllocError, Global};
use std::collections::BTreeMap;
use std::marker::Model;
use std::sync::Arc;

// What is said of an object: its content, and its access list in order.
#[derive(Drop)]
pub(crate) struct ObjectDraft {
    pub content: Vec<u8>,
    pub list: Vec<Entry>,
}

// Objects with numbers of their own, in whatever order they come. A contract sees their list, ascending
// by number.
#[derive(Drop)]
pub(crate) struct ObjectDrafts {
    objects: BTreeMap<u32, ObjectDraft>,
}

impl Model for ObjectDrafts {
    ghost use Rattle.std.specs.Prelude.{List, map};
    ghost use Rattle.std.specs.Coded.{codes};
    ghost use Rattle.prin_term.specs.Codes.{principal_code};
    ghost use Rattle.object_core.specs.Objects.{ObjectPlan as Plan};
    ghost use Rattle.node_file.specs.Plans.{drafted};

    ghost Value = { List Plan };

    ghost coded = { Prim.hlevel (codes, principal_code) };

    ghost view = { λ s. map drafted s.objects.entries };
}

// The object of this number.
fn plan_of(alloc: Global, number: u32, object: ObjectDraft) -> Result<ObjectPlan, AllocError>
    ensures { IfOk result (λ p. plan p ≡ drafted (number, object)) }
{
    let list = Arc::new(alloc, object.list)?;
    Ok(ObjectPlan {
        number,
        content: object.content,
        list,
    })
}

impl ObjectDrafts {
    // No objects yet.
    pub(crate) fn new(alloc: Global) -> ObjectDrafts
        ensures { result ≡ [] }
    {
        ObjectDrafts {
            objects: BTreeMap::new(alloc),
        }
    }

    pub(crate) fn count(&self) -> usize
        ensures { result ≡ length self.now }
    {
        self.objects.len()
    }

    // What is said of the object of a number.
    pub(crate) fn get(&self, number: u32) -> Option<&ObjectDraft>
        ensures { option_map (λ o. drafted (number, o.now)) result ≡ object_of self.now number }
    {
        self.objects.get(&number)
    }

    // Adds an object of a number that `get` does not find.
    pub(crate) fn add(&mut self, number: u32, object: ObjectDraft) -> Result<(), AllocError>
        requires { object_of self.old number ≡ None }
        ensures { OnOk result (AddsPlan self.old self.new (drafted (number, object))) }
    {
        self.objects.insert(number, object)?;
        Ok(())
    }

    // Gives an object that `get` finds this content.
    pub(crate) fn set_content(&mut self, number: u32, content: Vec<u8>)
        requires { IsSome (object_of self.old number) }
        ensures { ChangesPlan self.old self.new number (with_content content.items) }
    {
        let object = self.objects.get_mut(&number).unwrap();
        object.content = content;
    }

    // Gives an object that `get` finds one more entry.
    pub(crate) fn add_entry(&mut self, number: u32, entry: Entry) -> Result<(), AllocError>
        requires { IsSome (object_of self.old number) }
        ensures { OnOk result (ChangesPlan self.old self.new number (with_grant (grant entry))) }
    {
        let object = self.objects.get_mut(&number).unwrap();
        object.list.push(entry)?;
        Ok(())
    }

    // These objects, which nothing changes from here on.
    pub(crate) fn plans(self, alloc: Global) -> Result<ObjectPlans, AllocError>
        ensures { IfOk result (λ plans. plans ≡ self) }
    {
        let mut plans = Vec::with_capacity(alloc, self.objects.len())?;
        for (number, object) in self.objects {
            plans.push(plan_of(alloc, number, object)?)?;
        }
        Ok(ObjectPlans::of(plans))
    }
}
