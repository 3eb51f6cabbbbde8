//! A guarded object: what it was opened with, and its journal.

ghost use Rattle.std.specs.Prelude.{◌≡◌, ◌↔◌, ◌<◌, ◌≤◌, ◌++◌, ◌∷◌, [], if◌then◌else◌, IsTrue, Some, IfOk, length, map, vec_capacity, vec_len};
ghost use Rattle.std.specs.List.{filter_map};
ghost use Rattle.std.specs.Option.{is_some};
ghost use Rattle.prin_term.specs.View.{grant};
ghost use Rattle.object_core.specs.FixedView.{fixed_plan};
ghost use Rattle.object_core.specs.Kept.{IsLatest};
ghost use Rattle.object_core.specs.ObjectView.{object_entry, plan_seen};
ghost use Rattle.object_core.specs.Objects.{content_after, latest, list_after, listed_by, written_by};
ghost use Rattle.object_core.specs.Operation.{FitsOperation, IsAccessList, IsContent};
ghost use Rattle.object_core.specs.View.{operation};

use crate::entry::ObjectEntry;
use crate::fixed::Fixed;
use crate::operation::Op;
use crate::ruling::Ruling;
use prin_term::Entry;
use std::alloc::{AllocError, Global};
use std::marker::Model;
use std::sync::Arc;

/// An object. A contract sees what it was opened with and its journal: its content and its access
/// list follow from these.
#[derive(Drop)]
pub struct Object {
    fixed: Arc<Fixed>,
    entries: Vec<ObjectEntry>,
    // The places of the last granted Write and the last granted SetList.
    written: Option<usize>,
    listed: Option<usize>,
}

impl Model for Object {
    ghost use Rattle.std.specs.Prelude.{map};
    ghost use Rattle.std.specs.Coded.{codes};
    ghost use Rattle.prin_term.specs.Codes.{principal_code};
    ghost use Rattle.object_core.specs.Kept.{IsObject};
    ghost use Rattle.object_core.specs.ObjectView.{object_entry};
    ghost use Rattle.object_core.specs.FixedView.{fixed_plan};
    ghost use Rattle.object_core.specs.Objects.{ObjectSeen};

    ghost Value = { ObjectSeen };

    ghost coded = { Prim.hlevel (codes, principal_code) };

    ghost view = { λ o. record {
      plan = fixed_plan o.fixed.value;
      limit = o.fixed.value.limit;
      journal = map object_entry o.entries.items;
    } };

    // What is kept stands for the content and the list after the entries, which have room.
    ghost invariant = { λ o. IsObject (fixed_plan o.fixed.value) o.fixed.value.limit o.entries
        o.written o.listed };
}

// Whether the entry replaces the content.
fn writes(entry: &ObjectEntry) -> bool
    ensures { result ≡ is_some (written_by (object_entry entry.now)) }
{
    match (&entry.ruling, &*entry.op) {
        (Ruling::Granted { .. }, Op::Write(_)) => true,
        _ => false,
    }
}

// Whether the entry replaces the access list.
fn lists(entry: &ObjectEntry) -> bool
    ensures { result ≡ is_some (listed_by (object_entry entry.now)) }
{
    match (&entry.ruling, &*entry.op) {
        (Ruling::Granted { .. }, Op::SetList(_)) => true,
        _ => false,
    }
}

// The content that stands after the entries.
fn content_in<'a>(entries: &'a [ObjectEntry], written: Option<usize>, opened: &'a [u8]) -> &'a [u8]
    requires { IsLatest written_by opened.now (map object_entry entries.now) written }
    ensures { let journal = map object_entry entries.now in
        result.now ≡ latest opened.now (filter_map written_by journal) }
{
    let Some(place) = written else {
        return opened;
    };
    match &*entries[place].op {
        Op::Write(content) => content,
        _ => opened,
    }
}

// The access list that stands after the entries.
fn list_in<'a>(
    entries: &'a [ObjectEntry],
    listed: Option<usize>,
    opened: &'a Arc<Vec<Entry>>,
) -> &'a Arc<Vec<Entry>>
    requires { IsLatest listed_by (map grant opened.now.value.items) (map object_entry entries.now)
        listed }
    ensures { map grant result.now.value.items ≡ latest (map grant opened.now.value.items)
        (filter_map listed_by (map object_entry entries.now)) }
{
    let Some(place) = listed else {
        return opened;
    };
    match &*entries[place].op {
        Op::SetList(list) => list,
        _ => opened,
    }
}

// The place, where it counts; else the one before.
fn later(counts: bool, place: usize, before: Option<usize>) -> Option<usize>
    ensures { result ≡ (if counts then Some place else before) }
{
    if counts { Some(place) } else { before }
}

// Journals the entry, in the room that is reserved.
fn append(entries: &mut Vec<ObjectEntry>, entry: ObjectEntry)
    requires { vec_len entries.old < vec_capacity entries.old }
    ensures added { entries.new.items ≡ entries.old.items ++ entry ∷ [] }
    ensures capacity { vec_capacity entries.old ≤ vec_capacity entries.new }
{
    let _ = entries.push(entry);
}

impl Object {
    /// An object with an empty journal, which has room for `limit` entries from now on. No later
    /// call takes memory.
    pub fn new(
        alloc: Global,
        number: u32,
        content: &[u8],
        list: Arc<Vec<Entry>>,
        limit: u64,
    ) -> Result<Object, AllocError>
        requires content { IsContent content.now }
        requires list { IsAccessList (map grant list.value.items) }
        ensures { IfOk result (λ o. o ≡ record {
          plan = plan_seen number content.now list;
          limit = limit;
          journal = [];
        }) }
    {
        let content = Vec::from_slice(alloc, content)?;
        let entries = Vec::with_capacity(alloc, limit as usize)?;
        let fixed = Fixed {
            number,
            content,
            list,
            limit,
        };
        Ok(Object {
            fixed: Arc::new(alloc, fixed)?,
            entries,
            written: None,
            listed: None,
        })
    }

    pub fn number(&self) -> u32
        ensures { result ≡ self.now.plan.number }
    {
        self.fixed.number
    }

    /// What the last granted Write wrote, or the content at opening.
    pub fn content(&self) -> &[u8]
        ensures value { result.now ≡ content_after self.now.plan self.now.journal }
        ensures fits { IsContent result.now }
    {
        content_in(&self.entries, self.written, &self.fixed.content)
    }

    /// What the last granted SetList set, or the list at opening.
    pub fn list(&self) -> &Arc<Vec<Entry>>
        ensures value { map grant result.now.value.items
            ≡ list_after self.now.plan self.now.journal }
        ensures fits { IsAccessList (map grant result.now.value.items) }
    {
        list_in(&self.entries, self.listed, &self.fixed.list)
    }

    /// The operations that came to a ruling, in their order.
    pub fn journal(&self) -> &[ObjectEntry]
        ensures value { map object_entry result.now ≡ self.now.journal }
        ensures within { length self.now.journal ≤ self.now.limit }
    {
        &self.entries
    }

    /// Whether the journal has room for one entry more.
    pub fn has_room(&self) -> bool
        ensures { IsTrue result ↔ (length self.now.journal < self.now.limit) }
    {
        (self.entries.len() as u64) < self.fixed.limit
    }

    /// Journals a ruling. What it grants is performed: a Write replaces the content, a SetList the
    /// access list. Takes no memory.
    pub fn apply(&mut self, entry: ObjectEntry)
        requires room { length self.old.journal < self.old.limit }
        requires fits { FitsOperation (operation entry.op.value) }
        ensures { self.new ≡ record {
          plan = self.old.plan;
          limit = self.old.limit;
          journal = self.old.journal ++ object_entry entry ∷ [];
        } }
    {
        let place = self.entries.len();
        self.written = later(writes(&entry), place, self.written);
        self.listed = later(lists(&entry), place, self.listed);
        append(&mut self.entries, entry);
    }
}
