//! The certificates that Asks of a shard present: an equal one is kept once.

ghost use Rattle.std.specs.Prelude.{◌≡◌, ◌+◌, ◌<◌, ◌≤◌, IfOk, IfSome, IsTrue, Some, length, slice_get};
ghost use Rattle.stmt_codec.specs.Certificates.{certificate};
ghost use Rattle.stmt_codec.specs.View.{certificates};

use std::alloc::{AllocError, Global};
use std::sync::Arc;
use stmt_codec::Cert;

// In how many slots a digest may be noted.
const RUN: usize = 16;

// What a slot has where no place is noted.
const FREE: usize = usize::MAX;

/// The certificates in the order in which they came.
#[derive(Drop)]
pub(crate) struct Presented {
    certs: Vec<Arc<Cert>>,
    // Places among them, each near the slot that its digest gives. These are hints: what a slot
    // leads to is compared, and what no slot leads to is kept twice.
    slots: Vec<usize>,
}

// The first of the slots of a digest.
fn first_slot(digest: &[u8; 32], count: usize) -> usize
    requires { 16 < count }
    ensures { result + 16 ≤ count }
{
    let number = u32::from_be_bytes([digest[0], digest[1], digest[2], digest[3]]);
    number as usize % (count - RUN)
}

// Whether an equal certificate stands at the place.
fn is_at(certs: &[Arc<Cert>], place: usize, cert: &Cert) -> bool
    ensures within { IsTrue result → place < length certs.now }
    ensures equal { IsTrue result
        → slice_get (certificates certs.now) place ≡ Some (certificate cert.now.body) }
{
    if place >= certs.len() {
        return false;
    }
    certs[place].body.same(&cert.body)
}

// A handle to an equal certificate, where a slot leads to one.
fn found(certs: &[Arc<Cert>], slots: &[usize], cert: &Cert) -> Result<Option<Arc<Cert>>, AllocError>
    ensures { IfOk result (λ found. IfSome found
        (λ handle. certificate handle.value.body ≡ certificate cert.now.body)) }
{
    if slots.len() <= RUN {
        return Ok(None);
    }
    let first = first_slot(&cert.digest, slots.len());
    for slot in first..first + RUN {
        let place = slots[slot];
        if is_at(certs, place, cert) {
            return Ok(Some(Arc::try_clone(&certs[place])?));
        }
    }
    Ok(None)
}

// Notes the place in a slot of the digest, where one is free.
fn note(slots: &mut [usize], digest: &[u8; 32], place: usize) {
    if slots.len() <= RUN {
        return;
    }
    let first = first_slot(digest, slots.len());
    for slot in first..first + RUN {
        if slots[slot] == FREE {
            slots[slot] = place;
            return;
        }
    }
}

// Slots for more certificates than these, with the places of these.
fn slots_for(alloc: Global, certs: &[Arc<Cert>]) -> Result<Vec<usize>, AllocError> {
    let count = certs.len().saturating_mul(8).saturating_add(1_024);
    let mut slots = vec![in alloc; FREE; count]?;
    for place in 0..certs.len() {
        note(&mut slots, &certs[place].digest, place);
    }
    Ok(slots)
}

// Makes the slots more where there are few for one certificate more than these.
fn make_room(alloc: Global, slots: &mut Vec<usize>, certs: &[Arc<Cert>]) -> Result<(), AllocError> {
    if slots.len() / 4 <= certs.len() {
        *slots = slots_for(alloc, certs)?;
    }
    Ok(())
}

impl Presented {
    /// These, at first.
    pub(crate) fn of(alloc: Global, certs: &[Arc<Cert>]) -> Result<Presented, AllocError> {
        let mut presented = Presented {
            certs: Vec::new(alloc),
            slots: Vec::new(alloc),
        };
        let _ = presented.take_in(alloc, certs)?;
        Ok(presented)
    }

    // Keeps one more.
    fn add(&mut self, alloc: Global, cert: Arc<Cert>) -> Result<(), AllocError> {
        make_room(alloc, &mut self.slots, &self.certs)?;
        note(&mut self.slots, &cert.digest, self.certs.len());
        self.certs.push(cert)?;
        Ok(())
    }

    // A handle to an equal certificate that is kept, now at the latest.
    fn handle_to(&mut self, alloc: Global, cert: &Arc<Cert>) -> Result<Arc<Cert>, AllocError>
        ensures { IfOk result
            (λ handle. certificate handle.value.body ≡ certificate cert.now.value.body) }
    {
        if let Some(handle) = found(&self.certs, &self.slots, cert)? {
            return Ok(handle);
        }
        self.add(alloc, Arc::try_clone(cert)?)?;
        Ok(Arc::try_clone(cert)?)
    }

    /// Handles to equal certificates that are kept, now at the latest.
    pub(crate) fn take_in(
        &mut self,
        alloc: Global,
        certs: &[Arc<Cert>],
    ) -> Result<Vec<Arc<Cert>>, AllocError>
        ensures { IfOk result (λ taken. certificates taken.items ≡ certificates certs.now) }
    {
        let mut taken = Vec::with_capacity(alloc, certs.len())?;
        for place in 0..certs.len() {
            taken.push(self.handle_to(alloc, &certs[place])?)?;
        }
        Ok(taken)
    }

    /// A handle to an equal certificate, where one is kept and a slot leads to it.
    pub(crate) fn known(&self, cert: &Cert) -> Result<Option<Arc<Cert>>, AllocError>
        ensures { IfOk result (λ found. IfSome found
            (λ handle. certificate handle.value.body ≡ certificate cert.now.body)) }
    {
        found(&self.certs, &self.slots, cert)
    }
}
