//! What an opening opens but for keys.

ghost use Rattle.std.specs.Prelude.{◌≡◌, map, IfOk};
ghost use Rattle.std.specs.List.Sorted.{IsStrictlyIncreasing};
ghost use Rattle.keyed_seal.specs.Keys.{IsKeyTable};
ghost use Rattle.object_core.specs.Shelving.{HaveOwnNumbers, fixed_of, numbers_of as object_numbers};
ghost use Rattle.shard_core.specs.Alone.{plans_in};
ghost use Rattle.shard_core.specs.Opened.{new_shard};
ghost use Rattle.agent_core.specs.Plans.{AreShards};
ghost use Rattle.prin_term.specs.View.{grant};
ghost use Rattle.node_file.specs.declared.opening.Opening as code;
ghost use Rattle.node_file.specs.Meaning.{opening, FitsByNumber};
ghost use Rattle.node_file.specs.Opening.{Opening as Meaning};
ghost use Rattle.node_file.specs.OpeningView.{Represents};
ghost use Rattle.shard_core.specs.Cells.{AllFit, AreCellsOf, cells_of, its_plans, new_object, numbers_of};
ghost use Rattle.node_file.specs.Plans.{AreByNumber};

use crate::opened::open_shards;
use crate::shard::Shard;
use keyed_seal::KeyTable;
use node_file::{ObjectPlans, Opening};
use object_core::Object;
use prin_term::Entry;
use std::alloc::{AllocError, Global};
use std::sync::Arc;

/// What an opening opens, whatever order its file has, is the opening's.
pub fn cells_are_of()
    ensures { (node : code.Opening) (o : Meaning) → Represents node o
        → IsKeyTable node.channels → AreByNumber node.objects → AreCellsOf o (cells_of node) }
{}

// The numbers of the channels, ascending.
fn channels_of(alloc: Global, table: &KeyTable) -> Result<Vec<u32>, AllocError>
    ensures numbers { IfOk result (λ v. v.items ≡ numbers_of table.now.entries) }
    ensures sound { IsKeyTable table.now }
{
    let count = table.count();
    let mut numbers = Vec::with_capacity(alloc, count)?;
    for place in 0..count {
        if let Some((number, _)) = table.at(place) {
            numbers.push(number)?;
        }
    }
    Ok(numbers)
}

/// The shards, each with the channels that are its own, and an empty journal.
pub fn shards_of(alloc: Global, node: &Opening) -> Result<Vec<Shard>, AllocError>
    requires { FitsByNumber (opening node.now) }
    ensures opened { IfOk result (λ v. v.items
        ≡ map new_shard (its_plans (opening node.now) node.now.channels.entries)) }
    ensures whole { IfOk result (λ v. AreShards (plans_in v.items)
        node.now.anchors.value.items) }
    ensures sound { IfOk result (λ _. IsKeyTable node.now.channels) }
{
    let channels = channels_of(alloc, &node.channels)?;
    open_shards(
        alloc,
        &channels,
        node.shards,
        &node.anchors,
        &node.commons,
        node.keep,
        node.limit,
    )
}

// A list of its own for an object, beside what else is the object's: who asks for it writes to the
// count of the list's handles, and threads at different objects would do so in one line of the cache.
fn list_of(alloc: Global, list: &Arc<Vec<Entry>>) -> Result<Arc<Vec<Entry>>, AllocError>
    ensures { IfOk result (λ own. map grant own.value.items ≡ map grant list.now.value.items) }
{
    let mut entries = Vec::with_capacity(alloc, list.len())?;
    for place in 0..list.len() {
        let entry = &list[place];
        entries.push(Entry {
            rights: entry.rights,
            who: entry.who.copy(alloc)?,
        })?;
    }
    Ok(Arc::new(alloc, entries)?)
}

/// The objects, each with an empty journal of at most so many entries.
pub fn objects_of(alloc: Global, plans: &ObjectPlans, limit: u64) -> Result<Vec<Object>, AllocError>
    requires { AllFit plans.now }
    ensures opened { IfOk result (λ v. v.items ≡ map (new_object limit) plans.now) }
    ensures apart { IfOk result (λ v. HaveOwnNumbers (map fixed_of v.items)) }
    ensures by_number { IfOk result (λ v.
        IsStrictlyIncreasing (object_numbers (map fixed_of v.items))) }
{
    // It says that no number comes twice.
    let _first = plans.at(0);
    let count = plans.count();
    let mut objects = Vec::with_capacity(alloc, count)?;
    for place in 0..count {
        if let Some(plan) = plans.at(place) {
            let list = list_of(alloc, &plan.list)?;
            objects.push(Object::new(alloc, plan.number, &plan.content, list, limit)?)?;
        }
    }
    Ok(objects)
}
