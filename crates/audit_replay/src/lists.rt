//! The access lists that Asks were read with: an equal one is kept once.

ghost use Rattle.std.specs.Prelude.{◌≡◌, ◌+◌, ◌<◌, ◌≤◌, IfOk, IfSome, length, map};
ghost use Rattle.prin_term.specs.View.{grant};

use crate::ruling::are_same;
use prin_term::Entry;
use proof_cache::mark_of;
use std::alloc::{AllocError, Global};
use std::sync::Arc;

// So many slots, of which a list may stand in this many.
const SLOTS: usize = 1_029;

const RUN: usize = 8;

type Slot = Option<Arc<Vec<Entry>>>;

/// Lists that were read. Slots are hints: what a slot has is compared, and what stands in no slot is
/// kept twice.
#[derive(Drop)]
pub(crate) struct Lists {
    slots: Vec<Slot>,
}

// The first slot of a list, by the principals at its ends.
fn first_slot(list: &[Entry], count: usize) -> usize
    requires { 8 < count }
    ensures { result + 8 ≤ count }
{
    if list.is_empty() {
        return 0;
    }
    let mark = mark_of(&list[0].who, &list[list.len() - 1].who);
    (mark % (count - RUN) as u64) as usize
}

// A handle to an equal list, where one stands in a slot from the first on.
fn found(slots: &[Slot], first: usize, list: &[Entry]) -> Result<Slot, AllocError>
    requires { first + 8 ≤ length slots.now }
    ensures { IfOk result
        (λ found. IfSome found (λ handle. map grant handle.value.items ≡ map grant list.now)) }
{
    for slot in first..first + RUN {
        if let Some(known) = &slots[slot] {
            if are_same(known, list) {
                return Ok(Some(Arc::try_clone(known)?));
            }
        }
    }
    Ok(None)
}

// Puts the list into a free slot from the first on, or into the first.
fn put(slots: &mut [Slot], first: usize, list: Arc<Vec<Entry>>)
    requires { first + 8 ≤ length slots.old }
{
    for slot in first..first + RUN {
        if slots[slot].is_none() {
            slots[slot] = Some(list);
            return;
        }
    }
    slots[first] = Some(list);
}

impl Lists {
    /// None yet.
    pub fn new(alloc: Global) -> Result<Lists, AllocError> {
        let mut slots = Vec::with_capacity(alloc, SLOTS)?;
        for _ in 0..SLOTS {
            slots.push(None)?;
        }
        Ok(Lists { slots })
    }

    /// A handle to an equal list that was read before, or else this one.
    pub fn handle_to(&mut self, list: Arc<Vec<Entry>>) -> Result<Arc<Vec<Entry>>, AllocError>
        ensures { IfOk result
            (λ handle. map grant handle.value.items ≡ map grant list.value.items) }
    {
        if self.slots.len() <= RUN {
            return Ok(list);
        }
        let first = first_slot(&list, self.slots.len());
        if let Some(known) = found(&self.slots, first, &list)? {
            return Ok(known);
        }
        put(&mut self.slots, first, Arc::try_clone(&list)?);
        Ok(list)
    }
}
